//! The binary format of modules and of their instructions (Core 5.4, 5.5): which bytes spell them
//! and how they are read (in `specs/`), and the reading and writing of single instructions.
#![tactic(auto)]

mod code;
mod control;
mod expression;
mod memory;
mod module;
mod numeric;
mod read;
mod variable;
mod write;

pub use code::{Code, ReadInstr};
pub use expression::{Expression, Locals};
pub use module::{Imported, SpelledModule};
pub use read::{read_code, read_instr};
pub use write::write_instr;
