//! Values of variables: their bytes, their numbers and their texts by their types.
#![tactic(auto)]

mod bits;
mod bytes;
mod discriminant;
mod item;
mod levels;
mod lists;
mod mark;
mod members;
mod numbers;
mod place;
mod rows;
mod scalars;
mod source;
mod suits;
mod texts;
mod values;
mod variants;
mod word;

pub use bits::Bits;
pub use bytes::byte_at;
pub use item::Item;
pub use mark::{Mark, first_mark};
pub use members::{is_static, part_at};
pub use numbers::number_at;
pub use place::Place;
pub use source::{Source, constant_source};
pub use texts::{push_address, push_base, push_enumeration};
pub use values::push_value;
pub use variants::items_of;
