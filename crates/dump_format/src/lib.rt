//! Core dumps: reading them.
#![tactic(auto)]

mod decode;
mod dump;
mod fault;
mod found;
mod gathered;
mod lists;
mod noted;
mod sections;

pub use decode::decode_dump;
pub use dump::{
    Dump, Frame, Frames, Indices, Instance, Instances, Seens, Segment, Segments, Texts, Values,
};
pub use fault::{DumpFault, DumpPart};
