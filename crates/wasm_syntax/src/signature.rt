//! What a function takes and gives.

ghost use Rattle.std.specs.Prelude.{◌≡◌};
ghost use Rattle.wasm_syntax.specs.Machine.{result_of};
ghost use Rattle.wasm_syntax.specs.Module.{same_functype, same_types};

use crate::parts::FuncType;
use crate::value::ValType;

/// Whether two lists of types are the same.
fn same_types(a: &[ValType], b: &[ValType]) -> bool
    ensures { result ≡ same_types a.now b.now }
{
    if a.len() != b.len() {
        return false;
    }
    for i in 0..a.len() {
        if !a[i].is_same(b[i]) {
            return false;
        }
    }
    true
}

impl FuncType {
    /// What a function gives, if anything: it has at most one result (Core 3.2.3).
    pub fn result_type(&self) -> Option<ValType>
        ensures { result ≡ result_of self.now }
    {
        self.results.get(0).copied()
    }

    /// Whether two types are the same by structure (Core 2.3.3).
    pub fn is_same(&self, other: &FuncType) -> bool
        ensures { result ≡ same_functype self.now other.now }
    {
        same_types(self.params.as_slice(), other.params.as_slice())
            && same_types(self.results.as_slice(), other.results.as_slice())
    }
}
