//! What runs of modules want: a host side and a module.

ghost use Rattle.std.specs.Prelude.{true, false, [], None};

use host_devices::{HostAnswer, HostSide};
use linear_memory::Memory;
use std::alloc::Global;
use wasm_decode::decode;
use wasm_syntax::{FuncType, HostCall, Import};
use wasm_validate::{Validated, validate};

/// A host side without replies for these imports.
#[derive(Drop)]
pub struct Silent<'a> {
    pub imports: &'a [Import],
}

impl<'a> HostSide for Silent<'a> {
    ghost origin = { λ s. record {
      imports = s.imports.now;
      names = [];
      logs = λ _. [];
      script = None;
    } };

    ghost calls = { λ _. record { served = []; collected = [] } };

    ghost collecting = { λ _. false };

    ghost serving = { λ _ _ _. true };

    ghost used_up = { λ _ _. true };

    ghost fault_count = { λ _ _. 0 };

    fn serves(&self, _import: &Import, _ftype: &FuncType) -> bool {
        true
    }

    fn collects(&self) -> bool {
        false
    }

    fn call(&mut self, _import: &Import, _call: &HostCall, _memory: Option<&Memory>) -> HostAnswer {
        HostAnswer::NoReply
    }
}

/// The valid module that these bytes spell.
pub fn valid(alloc: Global, bytes: &[u8]) -> Option<Validated> {
    match decode(alloc, bytes) {
        Ok(m) => validate(alloc, m).ok(),
        Err(_) => None,
    }
}
