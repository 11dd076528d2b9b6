//! Calls that leave a module, and what comes back.

use crate::value::{ValType, Value};
use pm_text::{Bytes, Items, Text};

pub type Values = Items<Value>;

pub type Writes = Items<Write>;

/// A call of an imported function: the index of the import, its name, the arguments in order, and
/// the type of its result.
#[derive(Drop)]
pub struct HostCall {
    pub import: u32,
    pub name: Text,
    pub args: Values,
    pub result: Option<ValType>,
}

/// Bytes that a host writes at an address of the memory.
#[derive(Drop)]
pub struct Write {
    pub at: u32,
    pub bytes: Bytes,
}

/// What a host replies: first its writes are made, in order, and then its value is the result of
/// the call.
#[derive(Drop)]
pub struct Reply {
    pub value: Option<Value>,
    pub writes: Writes,
}

/// A call with its reply.
#[derive(Drop)]
pub struct Served {
    pub call: HostCall,
    pub reply: Reply,
}

/// A call of the collector, to which an instrumented module hands over its frames.
#[derive(Clone, Copy)]
pub enum CollectorCall {
    ValueI32(u32),
    ValueI64(u64),
    Frame {
        kind: u32,
        function: u32,
        offset: u32,
        locals: u32,
    },
}
