//! A whole dump from its bytes.

ghost use Rattle.std.specs.Prelude.{◌≡◌, ℕ, IfOk};
ghost use Rattle.wasm_syntax.specs.declared.quantity.Quantity.{Quantity};
ghost use Rattle.dump_format.specs.declared.dump.Dump.{Dump};
ghost use Rattle.dump_format.specs.declared.fault.DumpPart.{DumpPart};
ghost use Rattle.dump_format.specs.declared.fault.DumpFault.TheVariants.{Malformed, FloatValue, Several, Limit};
ghost use Rattle.dump_format.specs.calls.Meaning.{Exactly, IsDump, BreaksAt, HasFloatAt, HasSeveral, PassesLimit};
ghost use Rattle.dump_format.specs.calls.Contained.{IsContained, IsLimited};
ghost use Rattle.dump_format.specs.Decode.{dump_from, Answers};
ghost use Rattle.dump_format.specs.inner.Gathering.{dump_gathered};

use crate::dump::Dump;
use crate::fault::DumpFault;
use crate::gathered::Gathered;
use crate::sections::gather;
use std::alloc::Global;
use wasm_bytes::ItemFault;
use wasm_syntax::Quantity;

#[tactic(auto, unfolding(crate::specs::inner::Gathering::dump_gathered))]
fn decode<'a>(alloc: Global, bytes: &'a [u8]) -> Result<Dump<'a>, DumpFault>
    ensures { Answers result (dump_gathered bytes.now) }
{
    let count = bytes.len() as u64;
    if count > Quantity::DumpBytes.limit() {
        return Err(DumpFault::Limit {
            what: Quantity::DumpBytes,
            count,
        });
    }
    let mut gathered = Gathered::new();
    match gather(alloc, &mut gathered, bytes) {
        Ok(()) => gathered.judged(alloc),
        Err(ItemFault::At(at)) => {
            drop(gathered);
            Err(DumpFault::Malformed { at })
        }
        Err(ItemFault::NoMemory) => {
            drop(gathered);
            Err(DumpFault::NoMemory)
        }
    }
}

/// The dump that the bytes spell (tool-conventions Coredump.md).
///
/// # Errors
///
/// In this order: too many bytes; `Malformed`, at the first item without a reading, or at the end
/// where an item or the section `core` is still due; `FloatValue`, at the first float; `Several`,
/// for the first of the parts that stand more than once; a limit of pages, and then of frames.
/// `NoMemory` where memory runs out.
pub fn decode_dump<'a>(alloc: Global, bytes: &'a [u8]) -> Result<Dump<'a>, DumpFault>
    ensures exact { Answers result (dump_from bytes.now) }
    ensures found { (d : Dump) → Exactly result (Ok d) (IsDump bytes.now d) }
    ensures contained { IfOk result IsContained }
    ensures limited { IfOk result IsLimited }
    ensures malformed { (at : ℕ) → Exactly result (Err (Malformed at)) (BreaksAt bytes.now at) }
    ensures float { (at : ℕ) → Exactly result (Err (FloatValue at)) (HasFloatAt bytes.now at) }
    ensures several { (part : DumpPart)
        → Exactly result (Err (Several part)) (HasSeveral bytes.now part) }
    ensures limit { (what : Quantity) (count : ℕ)
        → Exactly result (Err (Limit what count)) (PassesLimit bytes.now what count) }
{
    decode(alloc, bytes)
}
