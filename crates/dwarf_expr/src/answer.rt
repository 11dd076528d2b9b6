//! What an expression means.

ghost use Rattle.std.specs.Prelude.{◌≡◌, ◌==◌, [], length};
ghost use Rattle.dwarf_expr.specs.Meaning.{added};
ghost use Rattle.dwarf_expr.specs.inner.Steps.{Leaves};

use crate::operators::PlacedOperator;
use arrayvec::ArrayVec;
use std::marker::Model;

/// The frame base that an expression counts from.
#[derive(Clone, Copy, PartialEq, Eq)]
pub enum Base {
    /// At this address.
    At(u32),
    /// It is not recorded.
    Missing,
    /// There is none.
    Absent,
}

/// Where a piece of a value is.
#[derive(Clone, Copy, PartialEq, Eq)]
pub enum PiecePlace {
    /// The piece is this number itself.
    Value(u64),
    /// In memory, from this address on.
    Address(u32),
    /// It is nowhere.
    Nothing,
}

impl Default for PiecePlace {
    fn default() -> Self {
        PiecePlace::Nothing
    }
}

/// A piece of a value (DWARF 4 section 2.6.1.2).
#[derive(Clone, Copy, Default, PartialEq, Eq)]
pub struct Piece {
    /// In bytes.
    pub size: u64,
    pub place: PiecePlace,
}

/// The pieces of a value, the first bytes first; at most 16.
#[derive(Drop)]
pub struct PieceList {
    pieces: ArrayVec<Piece, 16>,
}

impl Model for PieceList {
    ghost use Rattle.std.specs.Prelude.{List};
    ghost use Rattle.dwarf_expr.specs.declared.answer.Piece.{Piece};

    ghost Value = { List Piece };

    ghost view = { λ l. l.pieces.items };
}

impl PieceList {
    pub(crate) fn new() -> Self
        ensures { result ≡ [] }
    {
        PieceList {
            pieces: ArrayVec::new(),
        }
    }

    /// The pieces.
    pub fn as_slice(&self) -> &[Piece]
        ensures { result.now ≡ self.now }
    {
        self.pieces.as_slice()
    }

    pub(crate) fn is_empty(&self) -> bool
        ensures { result ≡ (length self.now == 0) }
    {
        self.pieces.is_empty()
    }

    /// Puts the piece that an operator makes behind the others. `Unsupported` where there are 16.
    pub(crate) fn add(&mut self, placed: &PlacedOperator, piece: Piece) -> Result<(), Eval>
        ensures { Leaves result self.new (added placed.now self.old piece) }
    {
        if self.pieces.is_full() {
            return Err(Eval::Unsupported {
                op: placed.opcode,
                at: placed.at,
            });
        }
        self.pieces.push(piece);
        Ok(())
    }
}

/// What an expression means. Offsets are in bytes, from its first byte.
#[derive(Drop)]
pub enum Eval {
    /// It has no bytes.
    Empty,
    /// The value itself.
    Value(u64),
    /// The value is in memory, from this address on.
    Address(u32),
    Pieces(PieceList),
    /// A value that it needs is not recorded.
    Missing,
    /// It reads there, past the end of the memory.
    Outside(u32),
    /// An operator that is not known, or a piece behind 16 others.
    Unsupported { op: u8, at: u32 },
    /// The operator there is no operator of an expression, or can't be applied.
    BadExpr { at: u32 },
    /// There would be more than 64 entries.
    TooDeep,
}
