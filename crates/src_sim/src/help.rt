// The commands, as `help` tells them.
use std::fmt;

// The form of each command, and what it does.
// Kept: the patterns that read the commands stand beside, in `main`, since a pattern is no value.
pub static COMMANDS: [(&str, &str); 19] = [
    ("words N", "the board has a word memory over N words"),
    ("bytes N", "and after it a byte memory over N bytes"),
    ("slow FIRST LENGTH EXTRA", "and over both a slow stretch"),
    ("row EXTRA", "and over that an open row"),
    ("start", "zeroes the registers and the PC, and runs"),
    ("resume", "runs on from the PC"),
    ("reset", "zeroes the PC at the next clock"),
    ("set-register I V", "sets a register"),
    ("set-word I V", "sets a word of the memory"),
    ("image HEX", "loads an image from its bytes"),
    ("load FILE", "loads an image from a file"),
    ("clock K", "spends K clocks"),
    ("register I", "tells a register"),
    ("word I", "tells a word of the memory"),
    ("line I", "tells a word as an instruction"),
    (
        "state",
        "tells the PC, the step, whether it runs, and the counts",
    ),
    ("registers", "tells every register"),
    (
        "list FIRST COUNT",
        "tells words, each with its address and its line",
    ),
    ("help", "tells this"),
];

// To be shown as a line for each command.
#[derive(Clone, Copy)]
pub struct Help;

impl fmt::Display for Help {
    fn fmt<W: fmt::Write>(&self, f: &mut fmt::Formatter<W>) -> fmt::Result {
        for (form, meaning) in COMMANDS.iter() {
            writeln!(f, "{form:<24}{meaning}")?;
        }
        Ok(())
    }
}
