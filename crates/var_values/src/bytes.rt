//! The bytes of a value (DWARF 4 section 2.6).

ghost use Rattle.std.specs.Prelude.{◌≡◌, ◌<◌, ◌^◌, ◌<ℤ◌, pos};
ghost use Rattle.var_values.specs.Bytes as bytes;

use crate::mark::Mark;
use crate::source::Source;
use dwarf_expr::{FrameView, Piece, PiecePlace};

/// A byte of the recorded memory.
fn memory_byte(view: &FrameView<'_>, address: i128) -> Result<u8, Mark>
    ensures { result ≡ bytes.memory_byte view.now.memory address }
{
    let Some(memory) = view.memory else {
        return Err(Mark::NotRecorded);
    };
    if address < 0 || address >= 65_536 * i128::from(memory.size()) {
        return Err(Mark::OutsideMemory);
    }
    match memory.load(address as u64, 1) {
        Some(byte) => Ok(byte as u8),
        None => Err(Mark::OutsideMemory),
    }
}

/// Byte `index` of a number, from the lowest on.
fn byte_of(word: u64, index: u64) -> u8
    ensures { result ≡ bytes.byte_of word index }
{
    if index == 0 {
        (word % 256) as u8
    } else {
        byte_of(word / 256, index - 1)
    }
}

/// A value has eight bytes.
fn value_byte(word: u64, index: i128) -> Result<u8, Mark>
    ensures { result ≡ bytes.value_byte word index }
{
    if index < 0 || index >= 8 {
        return Err(Mark::OptimisedOut);
    }
    Ok(byte_of(word, index as u64))
}

fn place_byte(view: &FrameView<'_>, place: PiecePlace, index: i128) -> Result<u8, Mark>
    requires { index <ℤ pos (2 ^ 120) }
    ensures { result ≡ bytes.place_byte view.now.memory place index }
{
    match place {
        PiecePlace::Value(word) => value_byte(word, index),
        PiecePlace::Address(address) => memory_byte(view, i128::from(address) + index),
        PiecePlace::Nothing => Err(Mark::OptimisedOut),
    }
}

fn piece_byte(view: &FrameView<'_>, pieces: &[Piece], index: u128) -> Result<u8, Mark>
    requires { index < 2 ^ 120 }
    ensures { result ≡ bytes.piece_byte view.now.memory pieces.now index }
{
    let mut left = index;
    for piece in pieces {
        let size = u128::from(piece.size);
        if left < size {
            return place_byte(view, piece.place, left as i128);
        }
        left -= size;
    }
    Err(Mark::OptimisedOut)
}

/// Byte `index` of what has this source, or the mark in its place.
#[tactic(auto, unfolding(crate::specs::Bytes::byte_at))]
pub fn byte_at(view: &FrameView<'_>, source: &Source, index: i128) -> Result<u8, Mark>
    requires { index <ℤ pos (2 ^ 120) }
    ensures { result ≡ bytes.byte_at view.now.memory source.now index }
{
    match source {
        Source::Lost(mark) => Err(*mark),
        Source::Single(place) => place_byte(view, *place, index),
        Source::Pieces(pieces) => {
            if index < 0 {
                return Err(Mark::OptimisedOut);
            }
            piece_byte(view, pieces.as_slice(), index as u128)
        }
    }
}
