// What reading and loading answer. Images are written as their numbers, of four bytes each.
use image::{load, read};
use memory::WordMemory;
use std::alloc::{AllocError, Global};
use std::process::Abort;
use std::test::Fail;

// Kept: written out, as in the machine's tests, since a test does not take the mark from what it tests.
const MARK: u32 = 0x53524349;

// Two words from number 0 on, and two from number 4 on with one from number 6 on.
const TWO_WORDS: [u32; 7] = [0x68C2003A, 0xF8000000, 0, 2, MARK, 1, 16];

const TWO_SEGMENTS: [u32; 10] = [1, 2, 4, 2, 3, 6, 1, MARK, 2, 28];

// So many bytes that are no part of an image, and then the numbers.
// Kept: the machine's tests put an image together likewise, in three lines, for which the two would need a crate.
fn bytes(heap: Global, ignored: usize, numbers: &[u32]) -> Result<Vec<u8>, AllocError> {
    let mut all = vec![in heap; 0x53; ignored]?;
    for n in numbers {
        all.extend_from_slice(&n.to_be_bytes())?;
    }
    Ok(all)
}

// So many segments of one word each.
fn many(heap: Global, segments: u32) -> Result<Vec<u32>, AllocError> {
    let mut numbers = Vec::new(heap);
    for i in 0..segments {
        numbers.extend_from_slice(&[i, i, 1])?;
    }
    numbers.extend_from_slice(&[MARK, segments, segments.wrapping_mul(12)])?;
    Ok(numbers)
}

// What reading says for a memory of `size` words: how many segments, or the refusal.
fn tells(rt: &(impl Abort + AllocGlobal), image: &[u8], size: u32, text: &str) -> Result<(), Fail> {
    let told = match read(image, size) {
        Ok(image) => format!(in rt.alloc(); "segments: {}", image.count())?,
        Err(refusal) => refusal.to_string(rt.alloc())?,
    };
    assert_eq!(rt; told.as_str(), text);
    Ok(())
}

fn reads(
    rt: &(impl Abort + AllocGlobal),
    numbers: &[u32],
    size: u32,
    text: &str,
) -> Result<(), Fail> {
    tells(rt, &bytes(rt.alloc(), 0, numbers)?, size, text)
}

#[test]
fn one_segment(rt: HostRuntime) -> Result<(), Fail> {
    let bytes =
        b"\x68\xC2\x00\x3A\xF8\x00\x00\x00\x00\x00\x00\x00\x00\x00\x00\x02\x53\x52\x43\x49\x00\x00\x00\x01\x00\x00\x00\x10";
    let image = read(bytes, 2).map_err(|_| "refused")?;
    let part = image.segment(0).ok_or("no segment")?;
    assert_eq!(rt; part.first(), 0);
    assert_eq!(rt; part.count(), 2);
    assert_eq!(rt; part.word(0), Some(0x68C2003A));
    assert_eq!(rt; part.word(1), Some(0xF8000000));
    assert_eq!(rt; part.word(2), None);
    assert!(rt; image.segment(1).is_none());
    Ok(())
}

// Each word, with the number of its segment's first word.
#[test]
fn goes_over(rt: HostRuntime) -> Result<(), Fail> {
    let bytes = bytes(rt.alloc(), 1, &TWO_SEGMENTS)?;
    let image = read(&bytes, 7).map_err(|_| "refused")?;
    let mut words = Vec::new(rt.alloc());
    for part in image.segments() {
        for word in part.words() {
            words.push((part.first(), word))?;
        }
    }
    assert_eq!(rt; words.as_slice(), [(4, 1), (4, 2), (6, 3)].as_slice());
    Ok(())
}

#[test]
fn lengths(rt: HostRuntime) -> Result<(), Fail> {
    let heap = rt.alloc();
    tells(&rt, b"SRCI\0\0\0\0\0\0\0\0", 0, "segments: 0")?;
    tells(
        &rt,
        b"RCI\0\0\0\0\0\0\0\0",
        0,
        "11 bytes, and an image has 12 to 65536",
    )?;
    tells(&rt, &bytes(heap, 3, &TWO_WORDS)?, 2, "segments: 1")?;
    tells(&rt, &bytes(heap, 65_508, &TWO_WORDS)?, 2, "segments: 1")?;
    tells(
        &rt,
        &bytes(heap, 65_509, &TWO_WORDS)?,
        2,
        "65537 bytes, and an image has 12 to 65536",
    )
}

#[test]
fn trailers(rt: HostRuntime) -> Result<(), Fail> {
    let heap = rt.alloc();
    reads(
        &rt,
        &[1, 0, 1, 0x53524348, 1, 12],
        1,
        "53524348 stands for the mark 53524349",
    )?;
    reads(&rt, &many(heap, 64)?, 64, "segments: 64")?;
    reads(
        &rt,
        &many(heap, 65)?,
        65,
        "65 segments of 780 bytes, and there may be 64 of the 780 bytes before the trailer",
    )?;
    reads(&rt, &[1, 0, 1, MARK, 1, 12], 1, "segments: 1")?;
    reads(
        &rt,
        &[1, 0, 1, MARK, 1, 13],
        1,
        "1 segments of 13 bytes, and there may be 64 of the 12 bytes before the trailer",
    )
}

#[test]
fn segments(rt: HostRuntime) -> Result<(), Fail> {
    reads(
        &rt,
        &[1, 0, 1, MARK, 1, 7],
        1,
        "segment 0 has 7 bytes, and needs 8",
    )?;
    reads(&rt, &[0, 0, MARK, 1, 8], 1, "segment 0 has no words")?;
    reads(
        &rt,
        &[1, 0, 2, MARK, 1, 12],
        2,
        "segment 0 has 2 words, and there are 4 bytes for them",
    )?;
    reads(
        &rt,
        &[1, 1, 1, MARK, 1, 12],
        1,
        "segment 0 has 1 words from number 1 on, and has to end before number 1",
    )?;
    reads(&rt, &[1, 1, 1, MARK, 1, 12], 2, "segments: 1")?;
    reads(
        &rt,
        &[2, 1, 0, 1, MARK, 1, 16],
        1,
        "4 bytes are left over before segment 0",
    )
}

#[test]
fn order(rt: HostRuntime) -> Result<(), Fail> {
    reads(&rt, &TWO_SEGMENTS, 7, "segments: 2")?;
    reads(
        &rt,
        &[1, 2, 4, 2, 3, 5, 1, MARK, 2, 28],
        7,
        "segment 0 has 2 words from number 4 on, and has to end before number 5",
    )?;
    // the last segment passes the size and the first has no words: the last decides
    reads(
        &rt,
        &[1, 2, 4, 0, 3, 6, 1, MARK, 2, 28],
        6,
        "segment 1 has 1 words from number 6 on, and has to end before number 6",
    )?;
    reads(
        &rt,
        &[1, 2, 4, 0, 3, 6, 1, MARK, 2, 28],
        7,
        "segment 0 has no words",
    )?;
    // words that are not there and that pass the size: 11 comes before 12
    reads(
        &rt,
        &[1, 0, 2, MARK, 1, 12],
        1,
        "segment 0 has 2 words, and there are 4 bytes for them",
    )
}

#[test]
fn loads(rt: HostRuntime) -> Result<(), Fail> {
    let image = bytes(rt.alloc(), 1, &TWO_SEGMENTS)?;
    let mut words = [9; 8];
    let mut memory = WordMemory::new(&mut words);
    assert!(rt; load(&mut memory, &image).is_ok());
    assert_eq!(rt; words, [9, 9, 9, 9, 1, 2, 3, 9]);
    Ok(())
}

#[test]
fn refuses_to_load(rt: HostRuntime) -> Result<(), Fail> {
    let image = bytes(rt.alloc(), 1, &TWO_SEGMENTS)?;
    let mut words = [9; 6];
    let mut memory = WordMemory::new(&mut words);
    let loaded = load(&mut memory, &image).map_err(|refusal| refusal.number());
    assert_eq!(rt; loaded, Err(12));
    assert_eq!(rt; words, [9; 6]);
    Ok(())
}
