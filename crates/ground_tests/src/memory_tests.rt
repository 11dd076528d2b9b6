//! The memory beside one vector, and hand-computed values.

use crate::plain::Plain;
use causes::NoMemory;
use linear_memory::{Answer, Call, GrowAnswer, Memory, StoreFault, Width, run};
use std::alloc::Global;

// A number after another, by Knuth's multiplier for 64 bits.
fn next(seed: u64) -> u64 {
    seed.wrapping_mul(6_364_136_223_846_793_005)
        .wrapping_add(1_442_695_040_888_963_407)
}

// A place in seven pages or a little past them, every other time near a page's edge.
fn place(seed: u64) -> u64 {
    let at = (seed >> 20) % 460_000;
    if (seed >> 45) % 2 == 0 {
        at
    } else {
        at / 65536 * 65536 + 65532 + at % 9
    }
}

fn length(seed: u64) -> u64 {
    match (seed >> 50) % 4 {
        0 => 0,
        1 => (seed >> 13) % 9,
        2 => (seed >> 13) % 3000,
        _ => (seed >> 13) % 140_000,
    }
}

fn width(seed: u64) -> Width {
    match (seed >> 30) % 4 {
        0 => Width::One,
        1 => Width::Two,
        2 => Width::Four,
        _ => Width::Eight,
    }
}

fn call(alloc: Global, first: u64, second: u64) -> Result<Call, NoMemory> {
    let at = place(first);
    match (second >> 57) % 16 {
        0..=3 => Ok(Call::Load {
            at,
            width: width(second),
        }),
        4..=8 => Ok(Call::Store {
            at,
            width: width(second),
            value: first,
        }),
        9 => Ok(Call::Write {
            at,
            bytes: Vec::from_slice(alloc, &second.to_le_bytes())?,
        }),
        10 => Ok(Call::Fill {
            at,
            byte: 7,
            len: length(second),
        }),
        11 | 12 => Ok(Call::Copy {
            to: at,
            from: place(second),
            len: length(second),
        }),
        13 => Ok(Call::Grow(((second >> 40) % 3) as u32)),
        14 => Ok(Call::Page(((second >> 40) % 8) as u32)),
        _ => Ok(if (second >> 40) % 2 == 0 {
            Call::Size
        } else {
            Call::CopyOf
        }),
    }
}

fn calls(alloc: Global, seed: u64, count: u32) -> Result<Vec<Call>, NoMemory> {
    let mut calls = Vec::new(alloc);
    let mut first = seed;
    for _ in 0..count {
        let second = next(first);
        calls.push(call(alloc, first, second)?)?;
        first = next(second);
    }
    Ok(calls)
}

fn are_zeros(bytes: &[u8]) -> bool {
    for byte in bytes {
        if *byte != 0 {
            return false;
        }
    }
    true
}

// Whether pages are equal, where one that is not made stands for zeros.
fn are_same(paged: &Option<Vec<u8>>, plain: &Option<Vec<u8>>) -> bool {
    match (paged, plain) {
        (Some(a), Some(b)) => a.as_slice() == b.as_slice(),
        (None, Some(b)) => are_zeros(b),
        (None, None) => true,
        (Some(_), None) => false,
    }
}

// Equal, but that a page which is not made stands for zeros.
fn agree(paged: &Answer, plain: &Answer) -> bool {
    match (paged, plain) {
        (Answer::Size(a), Answer::Size(b)) => *a == *b,
        (Answer::Loaded(a), Answer::Loaded(b)) => *a == *b,
        (Answer::Stored(a), Answer::Stored(b)) => *a == *b,
        (Answer::Grew(a), Answer::Grew(b)) => *a == *b,
        (Answer::Page(a), Answer::Page(b)) => are_same(a, b),
        (Answer::Copied, Answer::Copied) => true,
        _ => false,
    }
}

fn all_agree(paged: &[Answer], plain: &[Answer]) -> bool {
    for (a, b) in paged.iter().zip(plain.iter()) {
        if !agree(a, b) {
            return false;
        }
    }
    paged.len() == 300 && plain.len() == 300
}

fn paged_answers(alloc: Global, calls: &[Call]) -> Result<Vec<Answer>, NoMemory> {
    let mut memory = Memory::new(alloc, 2, 7)?;
    run(alloc, &mut memory, calls)
}

fn plain_answers(alloc: Global, calls: &[Call]) -> Result<Vec<Answer>, NoMemory> {
    let mut plain = Plain::new(alloc, 2, 7)?;
    plain.run(alloc, calls)
}

fn is_compared(alloc: Global, calls: &[Call]) -> bool {
    match (paged_answers(alloc, calls), plain_answers(alloc, calls)) {
        (Ok(paged), Ok(plain)) => all_agree(&paged, &plain),
        _ => false,
    }
}

fn compares(alloc: Global, seed: u64) -> bool {
    match calls(alloc, seed, 300) {
        Ok(calls) => is_compared(alloc, &calls),
        Err(NoMemory) => false,
    }
}

#[test]
fn the_answers_are_those_of_one_vector(rt: HostRuntime) {
    for seed in 1..6 {
        assert!(rt; compares(rt.alloc(), seed));
    }
}

/// What is asked of a memory, and what it answers.
enum Row {
    Load(u64, Width, Option<u64>),
    Store(u64, Width, u64, Result<(), StoreFault>),
    Write(u64, &'static [u8], Result<(), StoreFault>),
    Fill(u64, u8, u64, Result<(), StoreFault>),
    Copy(u64, u64, u64, Result<(), StoreFault>),
    Grow(u32, GrowAnswer),
}

fn is_answered(memory: &mut Memory, row: &Row) -> bool {
    match row {
        Row::Load(at, width, wanted) => memory.load(*at, width.bytes()) == *wanted,
        Row::Store(at, width, value, wanted) => {
            memory.store(*at, width.bytes(), *value) == *wanted
        }
        Row::Write(at, bytes, wanted) => memory.write(*at, bytes) == *wanted,
        Row::Fill(at, byte, len, wanted) => memory.fill(*at, *byte, *len) == *wanted,
        Row::Copy(to, from, len, wanted) => memory.copy(*to, *from, *len) == *wanted,
        Row::Grow(count, wanted) => memory.grow(*count) == *wanted,
    }
}

fn are_answered(memory: &mut Memory, rows: &[Row]) -> bool {
    for row in rows {
        if !is_answered(memory, row) {
            return false;
        }
    }
    true
}

const FAR: [Row; 5] = [
    Row::Store(0, Width::One, 1, Ok(())),
    Row::Store(268_435_455, Width::One, 2, Ok(())),
    Row::Store(4_294_967_295, Width::One, 2, Err(StoreFault::Out)),
    Row::Load(268_435_452, Width::Four, Some(33_554_432)),
    Row::Load(268_435_453, Width::Four, None),
];

fn absent_pages(memory: &Memory) -> u32 {
    let mut absent = 0u32;
    for index in 0..memory.size() {
        if memory.page(index).is_none() {
            absent = absent.wrapping_add(1);
        }
    }
    absent
}

fn are_far(alloc: Global) -> bool {
    match Memory::new(alloc, 4096, 4096) {
        Ok(mut memory) => are_answered(&mut memory, &FAR) && absent_pages(&memory) == 4094,
        Err(NoMemory) => false,
    }
}

#[test]
fn pages_between_the_written_ones_are_absent(rt: HostRuntime) {
    assert!(rt; are_far(rt.alloc()));
}

const ROWS: [Row; 14] = [
    Row::Fill(65_532, 7, 4, Ok(())),
    Row::Load(65_532, Width::Four, Some(117_901_063)),
    Row::Fill(65_533, 7, 4, Err(StoreFault::Out)),
    Row::Fill(65_536, 7, 0, Ok(())),
    Row::Fill(65_537, 7, 0, Err(StoreFault::Out)),
    Row::Copy(65_537, 0, 0, Err(StoreFault::Out)),
    Row::Copy(0, 18_446_744_073_709_551_615, 2, Err(StoreFault::Out)),
    Row::Store(0, Width::Four, 67_305_985, Ok(())),
    Row::Copy(1, 0, 4, Ok(())),
    Row::Load(1, Width::Four, Some(67_305_985)),
    Row::Grow(2, GrowAnswer::TooMany),
    Row::Grow(1, GrowAnswer::Grown(1)),
    Row::Store(65_534, Width::Four, 0x0102_0304, Ok(())),
    Row::Write(131_071, &[1, 2], Err(StoreFault::Out)),
];

const COPIED: [Row; 2] = [
    Row::Load(65_536, Width::Two, Some(0x0102)),
    Row::Load(1, Width::One, Some(1)),
];

/// Whether a copy stays as the memory was, which is filled.
fn is_copied(memory: &mut Memory) -> bool {
    match memory.copy_of() {
        Ok(mut copied) => {
            memory.fill(0, 9, 131_072) == Ok(()) && are_answered(&mut copied, &COPIED)
        }
        Err(NoMemory) => false,
    }
}

fn are_near(alloc: Global) -> bool {
    match Memory::new(alloc, 1, 2) {
        Ok(mut memory) => are_answered(&mut memory, &ROWS) && is_copied(&mut memory),
        Err(NoMemory) => false,
    }
}

#[test]
fn numbers_fills_and_copies(rt: HostRuntime) {
    assert!(rt; are_near(rt.alloc()));
}
