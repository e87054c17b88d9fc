// The edges: sizes about 8,192, bytes that make no whole word, a pair that is cut, and the delays of a pile.
use memory::{
    ByteMemory, Memory, MemoryFault, OpenRow, Pair, Row, SlowStretch, Stretch, WordMemory,
    copy_word, fill,
};
use std::process::Abort;
use std::test::Fail;

/// A read and a write of the number are refused, and name it and the size.
fn refused<M: Memory>(rt: &impl Abort, memory: &mut M, number: u32) {
    let fault = MemoryFault {
        number,
        size: memory.size(),
    };
    assert_eq!(rt; memory.read(number), Err(fault));
    assert_eq!(rt; memory.write(number, 9), Err(fault));
    assert_eq!(rt; memory.delay(number), 0);
}

/// The size is as said, the first and the last word are kept apart, and no number from the size on is accepted.
fn sized<M: Memory>(rt: &impl Abort, memory: &mut M, size: u32) {
    assert_eq!(rt; memory.size(), size);
    refused(rt, memory, size);
    refused(rt, memory, u32::MAX);
    if size > 0 {
        let last = size - 1;
        assert_eq!(rt; memory.write(0, 5), Ok(()));
        assert_eq!(rt; memory.write(last, 0xF0E1_D2C3), Ok(()));
        assert_eq!(rt; memory.read(last), Ok(0xF0E1_D2C3));
        if last > 0 {
            assert_eq!(rt; memory.read(0), Ok(5));
        }
    }
}

#[test]
fn word_memories(rt: HostRuntime) -> Result<(), Fail> {
    for (count, size) in [(0, 0), (1, 1), (8191, 8191), (8192, 8192), (8193, 8192)] {
        let mut words = vec![in rt.alloc(); 7u32; count]?;
        sized(&rt, &mut WordMemory::new(&mut words), size);
        if let Some(past) = words.get(8192) {
            assert_eq!(rt; *past, 7);
        }
    }
    Ok(())
}

#[test]
fn byte_memories(rt: HostRuntime) {
    for count in 0..10usize {
        let mut bytes = [1u8, 2, 3, 4, 5, 6, 7, 8, 9];
        let mut memory = ByteMemory::new(&mut bytes[0..count]);
        assert_eq!(rt; memory.size() as usize, count / 4);
        if count >= 4 {
            assert_eq!(rt; memory.read(0), Ok(0x0102_0304));
        }
        if count >= 8 {
            assert_eq!(rt; memory.read(1), Ok(0x0506_0708));
        }
    }
    let mut bytes = [1u8, 2, 3, 4, 5, 6, 7, 8, 9];
    sized(&rt, &mut ByteMemory::new(&mut bytes), 2);
    assert_eq!(rt; bytes, [0, 0, 0, 5, 0xF0, 0xE1, 0xD2, 0xC3, 9]);
}

#[test]
fn a_pair_is_cut(rt: HostRuntime) -> Result<(), Fail> {
    let mut front = vec![in rt.alloc(); 1u32; 8190]?;
    let mut back = [11u32, 12, 13, 14, 15];
    let mut pair = Pair::new(WordMemory::new(&mut front), WordMemory::new(&mut back));
    assert_eq!(rt; pair.read(8189), Ok(1));
    assert_eq!(rt; pair.read(8190), Ok(11));
    assert_eq!(rt; pair.read(8191), Ok(12));
    sized(&rt, &mut pair, 8192);
    assert_eq!(rt; back, [11, 0xF0E1_D2C3, 13, 14, 15]);
    Ok(())
}

/// Each number with the delay that it has.
fn delays<M: Memory>(rt: &impl Abort, memory: &mut M, table: &[(u32, u8)]) {
    for (number, delay) in table {
        assert_eq!(rt; memory.delay(*number), *delay);
    }
}

#[test]
fn a_pile_of_all_five(rt: HostRuntime) {
    let mut words = [1u32, 2, 3];
    let mut bytes = [0u8, 0, 1, 2, 9, 9, 9];
    let pair = Pair::new(WordMemory::new(&mut words), ByteMemory::new(&mut bytes));
    let mut pile = OpenRow::new(SlowStretch::new(pair, Stretch::new(2, 1, 250)), Row::new(7));
    let closed = [(0, 7), (1, 7), (2, 255), (3, 7), (4, 0)];
    delays(&rt, &mut pile, &closed);
    refused(&rt, &mut pile, 4);
    delays(&rt, &mut pile, &closed);
    assert_eq!(rt; pile.read(3), Ok(258));
    delays(&rt, &mut pile, &[(0, 0), (1, 0), (2, 250), (3, 0), (4, 0)]);
    assert_eq!(rt; copy_word(&mut pile, 3, 0), Ok(()));
    assert_eq!(rt; pile.read(0), Ok(258));
    fill(&mut pile, 0x0102_0304);
    sized(&rt, &mut pile, 4);
    assert_eq!(rt; words, [5, 0x0102_0304, 0x0102_0304]);
    assert_eq!(rt; bytes, [0xF0, 0xE1, 0xD2, 0xC3, 9, 9, 9]);
}

#[test]
fn rows_of_64_words(rt: HostRuntime) {
    let mut words = [0u32; 130];
    let mut memory = OpenRow::new(WordMemory::new(&mut words), Row::new(200));
    assert_eq!(rt; memory.read(63), Ok(0));
    delays(
        &rt,
        &mut memory,
        &[(0, 0), (63, 0), (64, 200), (129, 200), (130, 0)],
    );
    assert_eq!(rt; memory.write(64, 1), Ok(()));
    delays(
        &rt,
        &mut memory,
        &[(63, 200), (64, 0), (127, 0), (128, 200)],
    );
}
