//! Rewrites the bodies of functions: instructions, branches, calls and the way out of a function
//! that unwinds; and makes the bodies of wrappers and helpers.
#![tactic(auto)]

mod blocks;
mod body;
mod branches;
mod calls;
mod exits;
mod helpers;
mod instructions;
mod jumps;
mod left;
mod locals;
mod nodes;
mod passing;
mod plain;
mod points;
mod site;
mod wrappers;

pub use blocks::{close_block, open_block, open_if, open_loop};
pub use body::rewrite_body;
pub use branches::{branch_table, trap};
pub use calls::{TypeNumbers, call_function, call_through_table};
pub use exits::{close_body, open_body};
pub use helpers::helper;
pub use locals::with_added;
pub use nodes::write_nodes;
pub use plain::instruction;
pub use site::Site;
pub use wrappers::wrapper;
