//! What runs of a module have in common.

ghost use Rattle.std.specs.Prelude.{◌≡◌, length};

use machine_code::Prepared;
use std::alloc::Global;
use wasm_syntax::Module;

/// What the runs of a module have in common: the module, what it was prepared to, and how many
/// frames there may be at most.
#[derive(Drop)]
pub struct Runner<'a, 'b> {
    pub alloc: Global,
    pub source: &'b Module,
    pub prepared: &'b Prepared<'a>,
    pub depth: usize,
}

/// How many functions a module imports.
pub(crate) fn import_count(source: &Module) -> usize
    ensures { result ≡ length source.now.imports }
{
    source.parts().imports.len()
}
