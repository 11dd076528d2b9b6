//! The module of a self-test as bytes.

ghost use Rattle.std.specs.Prelude.{◌≡◌, ◌≤◌, IfOk, length};
ghost use Rattle.selftest_command.specs.Selftest.{selftest};
ghost use Rattle.wasm_encode.specs.Encoding.{encoding};
ghost use Rattle.wasm_format_laws.specs.calls.Laws.{DecodesSame};

use crate::module::selftest_module;
use causes::NoMemory;
use std::alloc::Global;
use wasm_encode::encode;

/// The shortest encoding of the module of a self-test, which is decoded as a module with the same
/// code.
pub fn selftest_bytes(alloc: Global, count: u32) -> Result<Vec<u8>, NoMemory>
    requires least { 1 ≤ count }
    requires most { count ≤ 900 }
    ensures exact { IfOk result (λ bytes. bytes.items ≡ encoding (selftest count)) }
    ensures same { IfOk result (λ _. DecodesSame (selftest count) (encoding (selftest count))) }
{
    let made = selftest_module(alloc, count)?;
    let bytes = encode(alloc, &made);
    drop(made);
    bytes
}
