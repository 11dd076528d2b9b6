//! Code addresses of frames (WebAssembly DWARF).

ghost use Rattle.std.specs.Prelude.{◌≡◌};
ghost use Rattle.debug_frames.specs.Frames as definitions;

use dump_format::Frame;
use wasm_syntax::ModuleParts;

/// The code address of the entry of a function; 0 where the module does not define it.
fn start_of(m: &ModuleParts, function: u32) -> u32
    ensures { result ≡ definitions.start_of m.now function }
{
    match m.body_of(function) {
        Some(body) => body.start,
        None => 0,
    }
}

/// The code address of a frame: where the code entry of its function begins, and its offset.
pub fn address_of(m: &ModuleParts, frame: &Frame) -> u32
    ensures { result ≡ definitions.address_of m.now frame.now }
{
    start_of(m, frame.function).wrapping_add(frame.offset)
}
