//! The bodies of helpers: each gives the kind with which a call of a table entry would trap, or 0.

ghost use Rattle.std.specs.Prelude.{◌≡◌, ℕ, map, OnOk};
ghost use Rattle.wasm_syntax.specs.declared.module.ModuleParts.{ModuleParts as Module};
ghost use Rattle.wasm_syntax.specs.declared.instruction.Basic.TheVariants.{LocalGet as LocalGetOf};
ghost use Rattle.wasm_syntax.specs.Tree.{BrTable, stop, basic, jump};
ghost use Rattle.rewrite_bodies.specs.calls.Guards.{entry_label, first_table, helper, says};
ghost use Rattle.rewrite_code.specs.calls.Writing.{EmitsLast};
ghost use Rattle.unwind_rewrite.specs.calls.Bodies.{ClosesWith};

use crate::blocks::open_two;
use causes::NoMemory;
use rewrite_code::CodeWriter;
use wasm_syntax::{Basic, Value};

/// The helper gives a kind.
#[tactic(auto, using(crate::proofs::Bodies::says_kind))]
fn says(writer: &mut CodeWriter, kind: u32) -> Result<(), NoMemory>
    ensures { OnOk result (EmitsLast (says kind) writer.old writer.new) }
{
    writer.const_value(Value::I32(kind))?;
    writer.return_values()
}

/// The end of a block, behind which the helper gives a kind.
#[tactic(auto, using(crate::proofs::Branching::closed_with))]
fn close_says(writer: &mut CodeWriter, kind: u32) -> Result<(), NoMemory>
    ensures { OnOk result (ClosesWith (says kind) writer.old writer.new) }
{
    writer.close()?;
    says(writer, kind)
}

/// The label of the entry, or that of an entry past the end of the table, where so many can be
/// counted.
fn select(writer: &mut CodeWriter, labels: &[u32]) -> Result<(), NoMemory>
    ensures { OnOk result (EmitsLast (basic 0 (LocalGetOf 0) (jump 0 (BrTable labels.now 1) stop))
        writer.old writer.new) }
{
    writer.basic(Basic::LocalGet(0))?;
    if writer.has_room(labels.len()) {
        writer.branch_table(labels, 1)
    } else {
        Err(NoMemory)
    }
}

/// The nodes of the helper of a type, by the label of each entry of the table where an instance
/// starts.
pub fn helper(writer: &mut CodeWriter, labels: &[u32]) -> Result<(), NoMemory>
    ensures { (m : Module) (t : ℕ) → labels.now ≡ map (entry_label m t) (first_table m)
        → OnOk result (EmitsLast (helper m t) writer.old writer.new) }
{
    open_two(writer, None)?;
    open_two(writer, None)?;
    select(writer, labels)?;
    close_says(writer, 0)?;
    close_says(writer, 5)?;
    close_says(writer, 6)?;
    close_says(writer, 7)
}
