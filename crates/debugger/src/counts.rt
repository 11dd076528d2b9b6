//! How many locals a frame has.

ghost use Rattle.std.specs.Prelude.{◌≡◌, ◌<◌, ◌^◌, option_copied};
ghost use Rattle.wasm_syntax.specs.Sizes.{WithinLimits, local_count};
ghost use Rattle.debugger.specs.Texts.{frame_locals};

use dump_format::Frame;
use wasm_syntax::{Body, FuncType, ModuleParts};

/// The locals of a function of this type, with its parameters.
fn locals_of(ftype: Option<&FuncType>, body: &Body) -> u32
    requires { local_count (option_copied ftype) body.now < 2 ^ 32 }
    ensures { result ≡ local_count (option_copied ftype.entry) body.now }
{
    body.locals(ftype) as u32
}

/// How many locals the function of a frame has, with its parameters.
#[tactic(auto, using(crate::proofs::Locals::few_of))]
pub fn frame_locals(m: &ModuleParts, frame: &Frame) -> u32
    requires { WithinLimits m.now }
    ensures { result ≡ frame_locals m.now frame.now }
{
    match m.body_of(frame.function) {
        Some(body) => locals_of(m.type_of(frame.function as usize), body),
        None => 0,
    }
}
