//! A whole module from its bytes.

ghost use Rattle.std.specs.Prelude.{◌≡◌, ◌<◌, ◌^◌, ℕ, length, Ok, Err, IfOk, IfErr, OnOk};
ghost use Rattle.wasm_syntax.specs.declared.quantity.Quantity.{Quantity as Counted};
ghost use Rattle.wasm_syntax.specs.declared.module.ModuleParts.{ModuleParts as Parts};
ghost use Rattle.wasm_syntax.specs.Sizes.{WithinLimits};
ghost use Rattle.wasm_decode.specs.declared.fault.DecodeFault.TheVariants.{Malformed, Float, ImportKind, Limit};
ghost use Rattle.wasm_decode.specs.Decode.{functions_of, first_other, refusal, judged, module_from, Answers};
ghost use Rattle.wasm_decode.specs.calls.Meaning.{Exactly, IsModuleOf, BreaksAt, HasFloatAt, HasOtherImport};
ghost use Rattle.wasm_decode.specs.calls.Meaning.{PassesLimit};
ghost use Rattle.wasm_decode.specs.inner.Fit.{Fit};

use crate::fault::DecodeFault;
use crate::limits::too_much;
use crate::spelled;
use causes::NoMemory;
use pm_text::Items;
use std::alloc::Global;
use std::mem;
use wasm_bytes::ItemFault;
use wasm_format::{Imported, SpelledModule};
use wasm_syntax::{Imports, Module, ModuleParts, Quantity};

/// The index of the first import that is no function.
fn first_other(imports: &[Imported]) -> Option<u32>
    requires { length imports.now < 2 ^ 32 }
    ensures { result ≡ first_other imports.now }
{
    let mut index = 0;
    for imported in imports {
        if !matches!(imported, Imported::Function(_)) {
            return Some(index);
        }
        index += 1;
    }
    None
}

/// The functions among the imports.
fn functions(alloc: Global, imports: Items<Imported>) -> Result<Imports, NoMemory>
    ensures { IfOk result (λ functions. functions ≡ functions_of imports) }
{
    let mut functions = Vec::new(alloc);
    for imported in imports.into_vec() {
        if let Imported::Function(import) = imported {
            functions.push(import)?;
        }
    }
    Ok(Items::from_vec(functions))
}

/// Why what was spelled is refused.
#[tactic(auto, unfolding(crate::specs::Decode::module_of, crate::specs::Decode::refusal, crate::specs::Decode::too_much))]
fn refusal(spelled: &SpelledModule) -> Option<DecodeFault>
    requires { Fit spelled.now }
    ensures { result ≡ refusal spelled.now }
{
    if let Some(at) = spelled.float {
        return Some(DecodeFault::Float { at });
    }
    if let Some(index) = first_other(spelled.imports.as_slice()) {
        return Some(DecodeFault::ImportKind { index });
    }
    too_much(&spelled.parts)
}

/// Puts the functions among the imports, which are taken out, into the parts, where nothing is
/// refused.
#[tactic(auto, using(crate::proofs::Meanings::kept_is))]
fn judge(alloc: Global, spelled: &mut SpelledModule) -> Result<(), DecodeFault>
    requires { Fit spelled.old }
    ensures kept { OnOk result (judged spelled.old ≡ Ok spelled.new.parts) }
    ensures refused { IfErr result (λ fault. Answers (Err fault) (judged spelled.old)) }
{
    if let Some(fault) = refusal(spelled) {
        return Err(fault);
    }
    let imports = mem::replace(&mut spelled.imports, Items::new(alloc));
    match functions(alloc, imports) {
        Ok(functions) => {
            spelled.parts.imports = functions;
            Ok(())
        }
        Err(NoMemory) => Err(DecodeFault::NoMemory),
    }
}

/// The module that was spelled, or why it is refused. What was spelled is dropped at one place.
#[tactic(auto, using(crate::proofs::Ends::and_answers))]
fn judged(alloc: Global, mut spelled: SpelledModule) -> Result<ModuleParts, DecodeFault>
    requires { Fit spelled }
    ensures { Answers result (judged spelled) }
{
    let judged = judge(alloc, &mut spelled);
    judged.and(Ok(spelled.parts))
}

fn decoded(alloc: Global, bytes: &[u8]) -> Result<Module, DecodeFault>
    ensures { Answers result (module_from bytes.now) }
{
    let count = bytes.len() as u64;
    if count > Quantity::ModuleBytes.limit() {
        return Err(DecodeFault::Limit {
            what: Quantity::ModuleBytes,
            count,
        });
    }
    match spelled(alloc, bytes) {
        Ok(spelled) => match judged(alloc, spelled) {
            Ok(parts) => Ok(Module::new(parts)),
            Err(fault) => Err(fault),
        },
        Err(fault) => match fault {
            ItemFault::At(at) => Err(DecodeFault::Malformed { at }),
            ItemFault::NoMemory => Err(DecodeFault::NoMemory),
        },
    }
}

/// The module that the bytes spell (Core 5).
///
/// # Errors
///
/// In this order: too many bytes; `Malformed`, at the first item without a reading, or at the end
/// where an item or the body of a function is still due; `Float`, at the first float type or float
/// opcode; `ImportKind`, for the first import that is no function; a limit of locals, then of
/// nesting, each by functions, then of tables, then of memories. `NoMemory` where memory runs out.
pub fn decode(alloc: Global, bytes: &[u8]) -> Result<Module, DecodeFault>
    ensures exact { Answers result (module_from bytes.now) }
    ensures found { (m : Parts) → Exactly result (Ok m) (IsModuleOf bytes.now m) }
    ensures limited { IfOk result WithinLimits }
    ensures malformed { (at : ℕ) → Exactly result (Err (Malformed at)) (BreaksAt bytes.now at) }
    ensures float { (at : ℕ) → Exactly result (Err (Float at)) (HasFloatAt bytes.now at) }
    ensures import_kind { (index : ℕ)
        → Exactly result (Err (ImportKind index)) (HasOtherImport bytes.now index) }
    ensures limit { (what : Counted) (count : ℕ)
        → Exactly result (Err (Limit what count)) (PassesLimit bytes.now what count) }
{
    decoded(alloc, bytes)
}
