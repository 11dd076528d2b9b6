//! The abstract syntax of WebAssembly modules, as far as they hold integers alone, and (in
//! `specs/`) their trees, their typing, their steps and their runs.
#![tactic(auto)]

mod blocks;
mod equality;
mod host;
mod instruction;
mod module;
mod parts;
mod place;
mod quantity;
mod signature;
mod sizes;
mod start;
mod value;

pub use blocks::BlockKind;
pub use equality::same_code;
pub use host::{CollectorCall, HostCall, Reply, Served, Values, Write, Writes};
pub use instruction::{Basic, Convert, Instr, Jump, Load, Op, Sign, Store, read_op};
pub use int_ops::{ArithTrap, Binary, Compare, Narrow32, Narrow64, Unary};
pub use module::{Module, ModuleParts};
pub use parts::{
    Bodies, Body, Custom, Customs, DataSeg, DataSegs, ElementSeg, ElementSegs, Export, ExportKind,
    Exports, FuncType, FuncTypes, Global, Globals, Heights, Import, Imports, Indices, Labels,
    Limits, LimitsList, LocalGroup, LocalGroups, Ops, ValTypes,
};
pub use place::Place;
pub use quantity::Quantity;
pub use sizes::greater;
pub use start::put_functions;
pub use value::{Seen, ValType, Value};
