// Runs a script of calls on a machine, read from standard input, or with `src_sim FILE` the program in an image.
#![tactic(auto)]

ghost use Rattle.std.specs.Prelude.{◌-◌};
ghost use Rattle.std.specs.Iterator.{at_most};

mod board;
mod command;
mod complaint;
mod help;
mod hex_bytes;
mod numbers;
mod parameters;

use crate::board::{Board, BoardPart, PLAIN, Pile};
use crate::command::{Command, Question};
use crate::complaint::Complaint;
use crate::help::{COMMANDS, Help};
use crate::hex_bytes::byte;
use crate::parameters::{count, delay, index, limited, value};
use anyhow::bail;
use isa::{Entry, Hex, Line};
use machine::{MOST_WANTED, Machine, perform};
use memory::Stretch;
use run_control::{Answer, Call, MachineFault, Refusal};
use std::alloc::Global;
use std::io::{BufRead, BufReader, Stdin};
use std::ops::Range;
use std::{array, env, fmt, fs, io};

// The bytes that the words write, one word after another, with two digits to a byte.
fn bytes_of(heap: Global, words: &[&str]) -> Result<Vec<u8>, Complaint> {
    let mut bytes = Vec::new(heap);
    for word in words {
        for pair in word.as_bytes().chunks(2) {
            let [high, low] = pair else {
                return Err(Complaint::NoBytes);
            };
            bytes.push(byte(*high, *low).ok_or(Complaint::NoBytes)?)?;
        }
    }
    Ok(bytes)
}

// The complaint about a line that begins with a command's name and is not that command.
fn misspelt(name: &str) -> Complaint {
    COMMANDS
        .iter()
        .find(|(form, _)| form.split_ascii_whitespace().next() == Some(name))
        .map_or(Complaint::NoCommand, |(form, _)| Complaint::Form(form))
}

// Kept: the four functions that follow each read one group of commands, or say that the words are none of it; one match over all nineteen would be too long for a function.
fn board_part(words: &[&str]) -> Result<Option<BoardPart>, Complaint> {
    Ok(Some(match words {
        ["words", n] => BoardPart::Words(limited(n, 65_536)?),
        ["bytes", n] => BoardPart::Bytes(limited(n, 262_144)?),
        ["slow", first, length, extra] => BoardPart::Slow(Stretch {
            first: index(first)?,
            length: index(length)?,
            extra: delay(extra)?,
        }),
        ["row", extra] => BoardPart::Row(delay(extra)?),
        _ => return Ok(None),
    }))
}

fn call_in(words: &[&str]) -> Result<Option<Call<'static>>, Complaint> {
    Ok(Some(match words {
        ["start"] => Call::Start,
        ["resume"] => Call::Resume,
        ["reset"] => Call::Reset,
        ["set-register", i, v] => Call::SetRegister(index(i)?, value(v)?),
        ["set-word", i, v] => Call::SetWord(index(i)?, value(v)?),
        ["clock", k] => Call::Clock(count(k)?),
        _ => return Ok(None),
    }))
}

fn image_in(rt: &HostRuntime, words: &[&str]) -> Result<Option<Vec<u8>>, Complaint> {
    Ok(Some(match words {
        ["image", bytes @ ..] if !bytes.is_empty() => bytes_of(rt.alloc(), bytes)?,
        ["load", path] => fs::read(rt, path)?,
        _ => return Ok(None),
    }))
}

fn question_in(words: &[&str]) -> Result<Option<Question>, Complaint> {
    Ok(Some(match words {
        ["register", i] => Question::Register(index(i)?),
        ["word", i] => Question::Word(index(i)?),
        ["line", i] => Question::Line(index(i)?),
        ["state"] => Question::State,
        ["registers"] => Question::Registers,
        ["list", first, count] => Question::List {
            first: index(first)?,
            count: index(count)?,
        },
        _ => return Ok(None),
    }))
}

// The command that the words of a line make.
fn command_in(rt: &HostRuntime, words: &[&str]) -> Result<Command, Complaint> {
    if let Some(part) = board_part(words)? {
        return Ok(Command::Describe(part));
    }
    if let Some(call) = call_in(words)? {
        return Ok(Command::Perform(call));
    }
    if let Some(image) = image_in(rt, words)? {
        return Ok(Command::Load(image));
    }
    if let Some(question) = question_in(words)? {
        return Ok(Command::Ask(question));
    }
    match words {
        ["help"] => Ok(Command::Help),
        [name, ..] => Err(misspelt(name)),
        [] => Err(Complaint::NoCommand),
    }
}

// The command in a line; none in a blank line and in a comment.
fn read_line(rt: &HostRuntime, line: &[u8]) -> Result<Option<Command>, Complaint> {
    let line = std::str::from_utf8(line).map_err(|_| Complaint::NotText)?;
    let words: Vec<&str> = line.split_ascii_whitespace().collect(rt.alloc())?;
    if words.is_empty() || line.starts_with('#') {
        return Ok(None);
    }
    Ok(Some(command_in(rt, &words)?))
}

// The next command of the input; none at its end. What is wrong with the lines on the way is told.
// Kept: a loop that reads each line into the space of the one before, since the library's `split` makes a `Vec` of each, and took two to three and a half times as long on lines that are blank or comments.
// Out of line, and `next` within its callers: a command is large, and each function between the two would copy it.
#[inline(never)]
fn next_command(rt: &HostRuntime, input: &mut BufReader<Stdin>) -> anyhow::Result<Option<Command>> {
    let mut line = Vec::new(rt.alloc());
    for _ in 0..u64::MAX {
        line.clear();
        if input.read_until(b'\n', &mut line)? == 0 {
            break;
        }
        match read_line(rt, &line) {
            Ok(None) => {}
            Ok(command) => return Ok(command),
            Err(complaint) => println!(rt; "? {complaint}")?,
        }
    }
    Ok(None)
}

// The commands of a script, read line by line from standard input.
#[derive(Drop)]
struct Script<'a> {
    rt: &'a HostRuntime,
    input: BufReader<Stdin>,
    // How many commands may still come: more than any input has.
    turns: Range<u64>,
}

impl Iterator for Script<'_> {
    type Item = anyhow::Result<Command>;

    ghost remaining = { λ s. at_most (s.turns.end - s.turns.start) };

    #[inline]
    fn next(&mut self) -> Option<anyhow::Result<Command>> {
        let _ = self.turns.next()?;
        next_command(self.rt, &mut self.input).transpose()
    }
}

impl<'a> Script<'a> {
    fn new(rt: &'a HostRuntime) -> io::Result<Script<'a>> {
        let input = BufReader::new(rt.alloc(), rt.stdin())?;
        Ok(Script {
            rt,
            input,
            turns: 0..u64::MAX,
        })
    }

    // The board that is described, and the first call or question after it; none where the script ends before one.
    fn board(&mut self) -> anyhow::Result<Option<(Board, Command)>> {
        let rt = self.rt;
        let mut board = PLAIN;
        for command in self.by_ref() {
            match command? {
                Command::Describe(part) => {
                    board = board.with(part);
                    println!(rt; "ok")?;
                }
                Command::Help => print!(rt; "{Help}")?,
                command => return Ok(Some((board, command))),
            }
        }
        Ok(None)
    }
}

// How many clock calls there are at most, each of as many clocks as a call may spend.
const CALLS: u64 = 1000;

#[derive(Clone, Copy)]
enum Ending {
    Stopped,
    Faulted(MachineFault),
    // It still runs after all the clocks.
    Spent,
}

impl fmt::Display for Ending {
    fn fmt<W: fmt::Write>(&self, f: &mut fmt::Formatter<W>) -> fmt::Result {
        match *self {
            Ending::Stopped => f.write_str("stopped"),
            Ending::Faulted(fault) => write!(f, "{fault}"),
            Ending::Spent => write!(f, "spent {} clocks", MOST_WANTED * CALLS),
        }
    }
}

// A machine that obeys commands, and tells what it answers.
#[derive(Drop)]
struct Session<'a> {
    rt: &'a HostRuntime,
    machine: Machine<Pile<'a>>,
}

// Tells a value, or why there is none.
fn tell<T: fmt::Display + Drop>(rt: &HostRuntime, told: Result<T, Refusal>) -> anyhow::Result<()> {
    match told {
        Ok(value) => println!(rt; "{value}")?,
        Err(refusal) => println!(rt; "{}", Answer::Refused(refusal))?,
    }
    Ok(())
}

impl<'a> Session<'a> {
    // A session with a stopped machine over the memory.
    fn new(rt: &'a HostRuntime, memory: Pile<'a>) -> Session<'a> {
        Session {
            rt,
            machine: Machine::set_up(memory),
        }
    }

    // The registers, each at its number.
    fn registers(&self) -> [u32; 32] {
        array::from_fn(|number| self.machine.register(number as u32).unwrap_or(0))
    }

    fn tell_state(&self) -> anyhow::Result<()> {
        let pc = Hex(self.machine.pc());
        let step = self.machine.step();
        let run = u8::from(self.machine.runs());
        let counts = self.machine.counts();
        println!(self.rt; "pc {pc} step {step} run {run} {counts}")?;
        Ok(())
    }

    // Four lines of eight registers.
    fn tell_registers(&self) -> anyhow::Result<()> {
        for (number, value) in self.registers().iter().enumerate() {
            let end = if number % 8 == 7 { '\n' } else { ' ' };
            print!(self.rt; "r{number} {}{end}", Hex(*value))?;
        }
        Ok(())
    }

    // Words from the first on, up to one that is not there.
    fn list(&mut self, first: u32, count: u32) -> anyhow::Result<()> {
        for number in (0..count).map(|k| first.saturating_add(k)) {
            match self.machine.word(number) {
                Ok(word) => println!(self.rt; "{}", Entry { number, word })?,
                refused => return tell(self.rt, refused.map(Hex)),
            }
        }
        Ok(())
    }

    fn answer(&mut self, question: Question) -> anyhow::Result<()> {
        match question {
            Question::Register(number) => tell(self.rt, self.machine.register(number).map(Hex)),
            Question::Word(number) => tell(self.rt, self.machine.word(number).map(Hex)),
            Question::Line(number) => tell(self.rt, self.machine.word(number).map(Line)),
            Question::State => self.tell_state(),
            Question::Registers => self.tell_registers(),
            Question::List { first, count } => self.list(first, count),
        }
    }

    fn obey(&mut self, command: Command) -> anyhow::Result<()> {
        if let Some(call) = command.call() {
            println!(self.rt; "{}", perform(&mut self.machine, call))?;
        }
        match command {
            Command::Describe(_) => println!(self.rt; "? {}", Complaint::LateBoard)?,
            // The call is performed.
            Command::Perform(_) | Command::Load(_) => (),
            Command::Ask(question) => self.answer(question)?,
            Command::Help => print!(self.rt; "{Help}")?,
        }
        Ok(())
    }

    // Clocks the machine, which was started, until it ends. A fault is told with the clocks and the instructions of the whole run.
    fn run_to_end(&mut self) -> Ending {
        for _ in 0..CALLS {
            if let Answer::Faulted(fault) = perform(&mut self.machine, Call::Clock(MOST_WANTED)) {
                return Ending::Faulted(MachineFault {
                    spent: self.machine.clocks(),
                    finished: self.machine.finished(),
                    ..fault
                });
            }
            if !self.machine.runs() {
                return Ending::Stopped;
            }
        }
        Ending::Spent
    }

    // Runs the program in the image, and tells how it ended, the registers that are not 0 and the counts.
    fn run_image(&mut self, image: &[u8]) -> anyhow::Result<()> {
        let loaded = perform(&mut self.machine, Call::Load(image));
        let Answer::Done = loaded else {
            println!(self.rt; "{loaded}")?;
            bail!("the file holds no image");
        };
        let _ = perform(&mut self.machine, Call::Start);
        println!(self.rt; "{}", self.run_to_end())?;
        for (number, value) in self.registers().iter().enumerate() {
            if *value != 0 {
                println!(self.rt; "r{number} {}", Hex(*value))?;
            }
        }
        println!(self.rt; "{}", self.machine.counts())?;
        Ok(())
    }
}

fn run_script(rt: &HostRuntime) -> anyhow::Result<()> {
    let mut script = Script::new(rt)?;
    let Some((board, first)) = script.board()? else {
        return Ok(());
    };
    let mut cells = board.cells(rt.alloc())?;
    let mut session = Session::new(rt, board.pile(&mut cells));
    session.obey(first)?;
    for command in script {
        session.obey(command?)?;
    }
    Ok(())
}

fn run_program(rt: &HostRuntime, path: &str) -> anyhow::Result<()> {
    let image = fs::read(rt, path)?;
    let mut cells = PLAIN.cells(rt.alloc())?;
    let mut session = Session::new(rt, PLAIN.pile(&mut cells));
    session.run_image(&image)
}

fn main(rt: HostRuntime) -> anyhow::Result<()> {
    let mut args = env::args(&rt)?.skip(1);
    match (args.next(), args.next()) {
        (None, _) => run_script(&rt),
        (Some(path), None) => run_program(&rt, path.as_str()),
        _ => bail!("usage: src_sim, with a script on standard input, or src_sim FILE"),
    }
}
