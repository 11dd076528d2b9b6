//! The body of a rewritten function around its nodes: a block behind which the function returns, in
//! those of its landings, in a block behind which the frame is handed over.

ghost use Rattle.std.specs.Prelude.{◌≡◌, ◌≤◌, ◌∷◌, [], length, OnOk};
ghost use Rattle.wasm_syntax.specs.Tree.{Nodes, block};
ghost use Rattle.rewrite_bodies.specs.Numbering.{frame_import};
ghost use Rattle.rewrite_bodies.specs.calls.Slots.{kind_at, offset_at};
ghost use Rattle.rewrite_bodies.specs.calls.Pieces.{get, const, i32, call};
ghost use Rattle.rewrite_bodies.specs.calls.Rewrite.{rewrite, zero_result};
ghost use Rattle.rewrite_bodies.specs.calls.Rewrite.{worked_out, exit_code};
ghost use Rattle.rewrite_bodies.specs.calls.Rewrite.{hand_carried, landing_code, laid};
ghost use Rattle.rewrite_code.specs.calls.Writing.{Written, Emits, EmitsLast, Opens};
ghost use Rattle.rewrite_code.specs.calls.KeptDerivations.{derivation};
ghost use Rattle.rewrite_code.specs.calls.KeptLandings.{landing as landing_in};
ghost use Rattle.unwind_rewrite.specs.calls.Bodies.{OpensBody, OpensNested, ClosesNested, LowLandings};

use causes::NoMemory;
use rewrite_code::{CodeWriter, Derivation, FunctionContext, Landing};
use wasm_syntax::{Basic, ValType, Value};

/// A zero, where there is a result.
fn zero_result(writer: &mut CodeWriter, gives: Option<ValType>) -> Result<(), NoMemory>
    ensures { OnOk result (Emits (zero_result gives) writer.old writer.new) }
{
    match gives {
        Some(t) => writer.const_value(t.zero()),
        None => Ok(()),
    }
}

/// How many locals the function has, with its parameters.
fn local_count(context: &FunctionContext<'_, '_>) -> u32
    ensures { result ≡ length context.now.locals }
{
    context.locals().len() as u32
}

/// The end of the frame: the kind, the function, the code offset and the number of its locals.
fn end_frame(context: &FunctionContext<'_, '_>, writer: &mut CodeWriter) -> Result<(), NoMemory>
    ensures { OnOk result (Emits (λ k. get context.now (kind_at context.now)
        (const (i32 context.now.index)
        (get context.now (offset_at context.now)
        (const (i32 (length context.now.locals)) (call (frame_import context.now.source) k)))))
        writer.old writer.new) }
{
    let function = context.index();
    let count = local_count(context);
    context.get(writer, context.kind_at())?;
    writer.const_value(Value::I32(function))?;
    context.get(writer, context.offset_at())?;
    writer.const_value(Value::I32(count))?;
    writer.call(context.map().frame_import())
}

/// A local is worked out of two others.
fn work_out(writer: &mut CodeWriter, found: &Derivation) -> Result<(), NoMemory>
    ensures { OnOk result (Emits (worked_out (derivation found.now ∷ [])) writer.old writer.new) }
{
    writer.basic(Basic::LocalGet(found.left))?;
    writer.basic(Basic::LocalGet(found.right))?;
    writer.basic(found.instruction)?;
    writer.basic(Basic::LocalSet(found.made))
}

/// Locals that need not be kept until the frame is left are worked out, the first one first.
fn work_out_all(context: &FunctionContext<'_, '_>, writer: &mut CodeWriter) -> Result<(), NoMemory>
    ensures { OnOk result (Emits (worked_out context.now.derivations) writer.old writer.new) }
{
    let found = context.derivations();
    for number in 0..found.len() {
        work_out(writer, &found[number])?;
    }
    Ok(())
}

/// Behind the exit block: locals are worked out, the locals and the end of the frame are handed
/// over, the flag is raised, and the function returns.
fn exit(context: &FunctionContext<'_, '_>, writer: &mut CodeWriter) -> Result<(), NoMemory>
    ensures { OnOk result (EmitsLast (exit_code context.now) writer.old writer.new) }
{
    work_out_all(context, writer)?;
    context.hand_locals(writer)?;
    end_frame(context, writer)?;
    writer.const_value(Value::I32(1))?;
    writer.basic(Basic::GlobalSet(context.map().flag()))?;
    zero_result(writer, context.gives())?;
    writer.return_values()
}

/// The operand that came with the branch to a landing.
fn hand_carried(
    context: &FunctionContext<'_, '_>,
    writer: &mut CodeWriter,
    carried: Option<ValType>,
) -> Result<(), NoMemory>
    ensures { OnOk result (Emits (hand_carried context.now carried) writer.old writer.new) }
{
    match carried {
        Some(t) => context.hand_value(writer, t),
        None => Ok(()),
    }
}

/// Behind the block of a landing, in those of so many others: the operands are handed over, and the
/// code goes to the exit.
fn landing(
    context: &FunctionContext<'_, '_>,
    writer: &mut CodeWriter,
    found: &Landing,
    others: u32,
) -> Result<(), NoMemory>
    requires { length found.now.places ≤ context.now.slots }
    ensures { OnOk result (EmitsLast (landing_code context.now others (landing_in found.now))
        writer.old writer.new) }
{
    writer.const_value(Value::I32(found.kind))?;
    context.set(writer, context.kind_at())?;
    context.hand(writer, &found.places)?;
    hand_carried(context, writer, found.carried)?;
    writer.branch(others)
}

/// The beginning of the block of a landing, which gives the operand that comes with the branch.
fn open_landing(writer: &mut CodeWriter, found: &Landing) -> Result<(), NoMemory>
    ensures { OnOk result (Opens (λ inner k. block 0 found.now.carried inner 0 k) writer.old
        writer.new) }
{
    writer.open_block(found.carried)
}

/// The beginning of the blocks of landings, the last one outermost.
fn open_landings(context: &FunctionContext<'_, '_>, writer: &mut CodeWriter) -> Result<(), NoMemory>
    ensures { OnOk result (OpensNested context.now context.now.landings writer.old writer.new) }
{
    let landings = context.landings();
    let mut left = landings.len();
    while left > 0 {
        left -= 1;
        open_landing(writer, &landings[left])?;
    }
    Ok(())
}

/// The ends of the blocks of landings, the first one innermost, each with its code.
fn close_landings(
    context: &FunctionContext<'_, '_>,
    writer: &mut CodeWriter,
) -> Result<(), NoMemory>
    requires { LowLandings context.now }
    ensures { OnOk result (ClosesNested context.now context.now.landings writer.old writer.new) }
{
    let landings = context.landings();
    for number in 0..landings.len() {
        writer.close()?;
        landing(
            context,
            writer,
            &landings[number],
            (landings.len() - 1 - number) as u32,
        )?;
    }
    Ok(())
}

/// The beginning of the body: the length of the memory is read, the exit block, those of the
/// landings in it, and the body's block, which gives what the function does.
pub fn open_body(context: &FunctionContext<'_, '_>, writer: &mut CodeWriter) -> Result<(), NoMemory>
    ensures { OnOk result (OpensBody context.now writer.old writer.new) }
{
    context.measure(writer)?;
    writer.open_block(None)?;
    open_landings(context, writer)?;
    writer.open_block(context.gives())
}

/// The end of the body, behind its nodes.
#[tactic(auto, using(crate::proofs::Landings::body_closed))]
pub fn close_body(
    context: &FunctionContext<'_, '_>,
    writer: &mut CodeWriter,
) -> Result<(), NoMemory>
    requires { LowLandings context.now }
    ensures { (nodes : Nodes) (start inside : Written) → OpensBody context.now start inside
        → EmitsLast (rewrite context.now 1 [] nodes) inside writer.old
        → OnOk result (EmitsLast (laid context.now nodes) start writer.new) }
{
    writer.close()?;
    writer.return_values()?;
    close_landings(context, writer)?;
    writer.close()?;
    exit(context, writer)
}
