//! Bytes with the numbers, texts and blocks that stand in them by hand, and the generic function at
//! a concrete type.

ghost use Rattle.std.specs.Prelude.{◌==◌, Some, None, if◌then◌else◌};
ghost use Rattle.wasm_bytes.specs.Reading.{◌▷◌, u64_item, done_item};

use dwarf_bytes::{Ended, ended_items, number, open_long, open_unit, text};
use pm_text::Items;
use std::alloc::Global;
use wasm_bytes::{ItemFault, Reader};

// A number of two bytes, a text "ab", a block of two bytes, a unit of one byte, and a list of 5 and
// 128.
const BYTES: [u8; 18] = [
    0x34, 0x12, 0x61, 0x62, 0x00, 0x02, 0x07, 0x08, 0x01, 0x00, 0x00, 0x00, 0x09, 0x05, 0x80, 0x01,
    0x00, 0x06,
];

/// A number of a list that ends with 0.
#[derive(Drop)]
struct Listed {
    number: u64,
}

impl<'a> Ended<'a> for Listed {
    ghost item = { u64_item ▷ λ n. if n == 0 then done_item None
        else done_item (Some (record { number = n })) };

    fn read(_alloc: Global, reader: &mut Reader<'a>) -> Result<Option<Listed>, ItemFault> {
        let number = reader.u64()?;
        if number == 0 {
            Ok(None)
        } else {
            Ok(Some(Listed { number }))
        }
    }
}

fn has_block(reader: &mut Reader<'_>) -> bool {
    match open_long(reader) {
        Ok(block) => block.at() == 6 && block.left() == 2,
        Err(_) => false,
    }
}

fn has_unit(reader: &mut Reader<'_>) -> bool {
    match open_unit(reader) {
        Ok(unit) => unit.at() == 12 && unit.left() == 1,
        Err(_) => false,
    }
}

fn has_list(alloc: Global, reader: &mut Reader<'_>) -> bool {
    match ended_items::<Listed>(alloc, reader) {
        Ok(list) => matches!(
            list.as_slice(),
            [first, second] if first.number == 5 && second.number == 128
        ),
        Err(_) => false,
    }
}

fn has_number_and_text(reader: &mut Reader<'_>) -> bool {
    let number = matches!(number(reader, 2), Ok(0x1234));
    number && matches!(text(reader), Ok([0x61, 0x62]))
}

fn has_items(alloc: Global, reader: &mut Reader<'_>) -> bool {
    has_number_and_text(reader)
        && has_block(reader)
        && has_unit(reader)
        && reader.at() == 13
        && has_list(alloc, reader)
        && reader.at() == 17
}

#[test]
fn items_are_read(rt: HostRuntime) {
    assert!(rt; has_items(rt.alloc(), &mut Reader::new(&BYTES)));
}

#[test]
fn cut_items_are_refused(rt: HostRuntime) {
    assert!(rt; matches!(number(&mut Reader::starting_at(&BYTES, 17), 2), Err(_)));
    assert!(rt; matches!(text(&mut Reader::starting_at(&BYTES, 17)), Err(_)));
    assert!(rt; matches!(open_long(&mut Reader::starting_at(&BYTES, 17)), Err(_)));
    assert!(rt; matches!(open_unit(&mut Reader::starting_at(&BYTES, 14)), Err(_)));
    assert!(rt;
        matches!(
            open_unit(&mut Reader::new(&[0xF0, 0xFF, 0xFF, 0xFF])),
            Err(_)
        )
    );
}
