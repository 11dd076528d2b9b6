//! Outside vectors, and each generic function at a concrete type.

ghost use Rattle.std.specs.Prelude.{[], ◌∷◌, ◌++◌, ◌==◌, length};
ghost use Rattle.wasm_bytes.specs.Reading.{mapped, u32_item};

use pm_text::{Items, Text};
use std::alloc::Global;
use wasm_bytes::{
    Gather, GatherUntilDone, Item, ItemFault, Reader, Run, SectionFrame, gather_count,
    gather_to_end, gather_until_done, items_to_end, named_section, section_at,
};

// A custom section "ab" that holds a vector of two vectors of numbers, then two numbers up to the
// end.
const BYTES: [u8; 13] = [
    0x00, 0x09, 0x02, 0x61, 0x62, 0x02, 0x01, 0x80, 0x01, 0x01, 0x07, 0x05, 0x06,
];

fn has_lists(alloc: Global, title: &[u8], reader: &mut Reader<'_>) -> bool {
    match named_section::<Items<Items<u32>>>(alloc, title, reader) {
        Ok(lists) => matches!(
            lists.as_slice(),
            [first, second]
                if matches!(first.as_slice(), [128]) && matches!(second.as_slice(), [7])
        ),
        Err(_) => false,
    }
}

fn has_numbers(alloc: Global, reader: &mut Reader<'_>) -> bool {
    match items_to_end::<u32>(alloc, reader) {
        Ok(numbers) => matches!(numbers.as_slice(), [5, 6]),
        Err(_) => false,
    }
}

#[test]
fn lists_are_read(rt: HostRuntime) {
    let mut reader = Reader::new(&BYTES);
    let lists = has_lists(rt.alloc(), b"ab", &mut reader);
    let rest = has_numbers(rt.alloc(), &mut reader);
    assert!(rt; lists && rest);
}

fn has_name(alloc: Global, reader: &mut Reader<'_>) -> bool {
    match Text::read(alloc, reader) {
        Ok(name) => name.as_str() == "ab",
        Err(_) => false,
    }
}

fn has_run(alloc: Global, reader: &mut Reader<'_>) -> bool {
    match Run::read(alloc, reader) {
        Ok(run) => matches!(run.as_slice(), [0x01, 0x80]),
        Err(_) => false,
    }
}

fn has_cut_run(alloc: Global, reader: &mut Reader<'_>) -> bool {
    matches!(Run::read(alloc, reader), Err(ItemFault::At(11)))
}

#[test]
fn a_text_and_a_run_are_read(rt: HostRuntime) {
    let mut reader = Reader::starting_at(&BYTES, 2);
    let name = has_name(rt.alloc(), &mut reader);
    let run = has_run(rt.alloc(), &mut reader);
    assert!(rt; name && run);
    assert!(rt; has_cut_run(rt.alloc(), &mut Reader::starting_at(&BYTES, 10)));
}

#[derive(Drop)]
struct Kept {
    numbers: Items<u32>,
}

impl<'a> Gather<Reader<'a>> for Kept {
    ghost step = { λ kept. mapped (λ x. record { numbers = kept.numbers ++ x ∷ [] }) u32_item };

    fn take(&mut self, alloc: Global, reader: &mut Reader<'a>) -> Result<(), ItemFault> {
        let _alloc = alloc;
        self.numbers.push(reader.u32()?)?;
        Ok(())
    }
}

impl<'a> GatherUntilDone<'a> for Kept {
    ghost done = { λ kept. length kept.numbers == 3 };

    fn is_done(&self) -> bool {
        self.numbers.len() == 3
    }
}

/// Whether two numbers are gathered, then those up to the third, and then the rest.
fn gathers(alloc: Global, kept: &mut Kept, reader: &mut Reader<'_>) -> bool {
    gather_count(alloc, 2, kept, reader).is_ok()
        && gather_until_done(alloc, kept, reader).is_ok()
        && kept.is_done()
        && gather_to_end(alloc, kept, reader).is_ok()
}

#[test]
fn elements_are_gathered(rt: HostRuntime) {
    let mut reader = Reader::new(&[1, 2, 3, 4, 5]);
    let mut kept = Kept {
        numbers: Items::new(rt.alloc()),
    };
    let all = gathers(rt.alloc(), &mut kept, &mut reader);
    assert!(rt; all && matches!(kept.numbers.as_slice(), [1, 2, 3, 4, 5]));
}

// A module with the type section, the function section and the code section of one empty function.
const MODULE: [u8; 24] = [
    0x00, 0x61, 0x73, 0x6D, 0x01, 0x00, 0x00, 0x00, 0x01, 0x04, 0x01, 0x60, 0x00, 0x00, 0x03, 0x02,
    0x01, 0x00, 0x0A, 0x04, 0x01, 0x02, 0x00, 0x0B,
];

/// Offsets, and the sections that stand there or the offset of what is wrong.
const FRAMES: [(usize, Result<SectionFrame, usize>); 5] = [
    (
        8,
        Ok(SectionFrame {
            id: 1,
            at: 10,
            end: 14,
        }),
    ),
    (
        14,
        Ok(SectionFrame {
            id: 3,
            at: 16,
            end: 18,
        }),
    ),
    (
        18,
        Ok(SectionFrame {
            id: 10,
            at: 20,
            end: 24,
        }),
    ),
    (24, Err(24)),
    (1, Err(1)),
];

fn is_frame(bytes: &[u8], at: usize, frame: Result<SectionFrame, usize>) -> bool {
    at <= bytes.len() && section_at(bytes, at) == frame
}

#[test]
fn frames_are_found(rt: HostRuntime) {
    let wrong = FRAMES
        .iter()
        .position(|(at, frame)| !is_frame(&MODULE, *at, *frame));
    assert_eq!(rt; wrong, None);
    assert!(rt; is_frame(&MODULE[..23], 18, Err(19)) && is_frame(&MODULE[..19], 18, Err(19)));
}
