//! DWARF expressions: what they mean in a frame (DWARF 4 sections 2.5 and 2.6, DWARF for
//! WebAssembly).
#![tactic(auto)]

mod alone;
mod answer;
mod decode;
mod effects;
mod evaluate;
pub mod laws;
mod named;
mod operators;
mod progress;
mod stack;
mod view;

pub use alone::is_location;
pub use answer::{Base, Eval, Piece, PieceList, PiecePlace};
pub use decode::read_operator;
pub use evaluate::{eval, frame_base};
pub use named::names_operand_from;
pub use operators::{Begun, Operator, PlacedOperator, Space};
pub use view::FrameView;
