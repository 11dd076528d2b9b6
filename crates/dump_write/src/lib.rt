//! Core dumps: the image of a state as a dump, and the one list of bytes that is written of a dump.
#![tactic(auto)]

mod dump;
pub mod laws;
mod pages;
mod parts;
mod sections;
mod segments;
mod write;

pub use dump::{picture, recorded_frame};
pub use pages::memory_segments;
pub use write::{dump_bytes, write_dump};
