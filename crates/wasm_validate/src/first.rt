//! The first part of a list that is not fine.

ghost use Rattle.std.specs.Prelude.{◌<◌, ◌+◌, ◌^◌, ℕ, length};
ghost use Rattle.wasm_syntax.specs.declared.module.ModuleParts.{ModuleParts as Parts};
ghost use Rattle.wasm_validate.specs.calls.Deciding.{Decides};
ghost use Rattle.wasm_validate.specs.inner.Places.{FirstBad};

use pm_text::Items;
use wasm_syntax::ModuleParts;

/// A part of a module that is judged by itself (Core 3.4).
pub trait Part {
    ghost fine: { Parts → ℕ → Self → Type 0 };

    /// Whether the part is fine in a module, at an index of its list.
    fn is_fine(&self, m: &ModuleParts, at: usize) -> bool
        requires { length m.now.imports + length m.now.functions < 2 ^ 32 }
        ensures { Decides result (fine m.now at self.now) };
}

/// The index of the first part of a list that is not fine.
pub fn first_bad<T: Part>(m: &ModuleParts, parts: &Items<T>) -> Option<u32>
    requires few { length parts.now < 2 ^ 32 }
    requires functions { length m.now.imports + length m.now.functions < 2 ^ 32 }
    ensures { FirstBad parts.now (T.fine m.now) result }
{
    let parts = parts.as_slice();
    let mut i = 0u32;
    while (i as usize) < parts.len() {
        let at = i as usize;
        if !parts[at].is_fine(m, at) {
            return Some(i);
        }
        i += 1;
    }
    None
}
