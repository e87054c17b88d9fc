// Lists a program image: `src_list FILE`.
#![tactic(auto)]

use anyhow::bail;
use image::{Image, ImagePart, read};
use isa::Entry;
use memory::MOST_WORDS;
use std::{env, fs};

// One segment: a heading, then a line for each word.
fn list_segment(rt: &HostRuntime, index: usize, part: &ImagePart<'_>) -> anyhow::Result<()> {
    let first = part.first();
    println!(rt;
        "segment {index}: {} words from word {first} on",
        part.count()
    )?;
    // A word's number is below the size of the largest memory.
    for (number, word) in (first..MOST_WORDS).zip(part.words()) {
        println!(rt; "{}", Entry { number, word })?;
    }
    Ok(())
}

fn list_image(rt: &HostRuntime, image: &Image<'_>) -> anyhow::Result<()> {
    let mut words = 0usize;
    for (index, part) in image.segments().enumerate() {
        list_segment(rt, index, &part)?;
        words = words.saturating_add(part.count());
    }
    println!(rt; "{} segments, {words} words", image.count())?;
    Ok(())
}

fn list_file(rt: &HostRuntime) -> anyhow::Result<()> {
    let Some(path) = env::args(rt)?.nth(1) else {
        bail!("usage: src_list FILE");
    };
    let bytes = fs::read(rt, path.as_str())?;
    // Kept: printing the refusal may fail too, and a `map_err` could not pass that on.
    match read(&bytes, MOST_WORDS) {
        Ok(image) => list_image(rt, &image),
        Err(refusal) => {
            println!(rt; "refused {} ({refusal})", refusal.number())?;
            bail!("the file holds no image")
        }
    }
}

fn main(rt: HostRuntime) -> anyhow::Result<()> {
    list_file(&rt)
}
