//! Basic instructions: the guard, the instruction on the stack, and its result.

ghost use Rattle.std.specs.Prelude.{◌≡◌, ◌+◌, ◌^◌, ◌<◌, ◌≤◌, length, option_map, OnOk};
ghost use Rattle.wasm_syntax.specs.Effect.{takes};
ghost use Rattle.wasm_syntax.specs.Tree.{basic};
ghost use Rattle.rewrite_bodies.specs.calls.Landings.{most_landings};
ghost use Rattle.rewrite_bodies.specs.calls.Slots.{less, result_place};
ghost use Rattle.rewrite_bodies.specs.calls.Pieces.{keep};
ghost use Rattle.rewrite_bodies.specs.calls.Rewrite.{free, grows, lengthened, plain};
ghost use Rattle.rewrite_code.specs.calls.Writing.{Emits};
ghost use Rattle.rewrite_code.specs.calls.Places.{place};

use crate::Site;
use causes::NoMemory;
use guard_insert::guarded;
use rewrite_code::{CodeWriter, FunctionContext, OperandPlace, OperandPlaces};
use wasm_syntax::Basic;

/// Operands under so many that are copies of the local that an instruction writes go to their
/// slots.
fn free(
    context: &FunctionContext<'_, '_>,
    writer: &mut CodeWriter,
    places: &OperandPlaces,
    instruction: Basic,
    taken: usize,
) -> Result<(), NoMemory>
    requires { length places.now ≤ context.now.slots }
    ensures { OnOk result (Emits (free context.now instruction (less taken places.now)) writer.old
        writer.new) }
{
    match instruction {
        Basic::LocalSet(local) => context.spill(writer, Some(local), taken, places),
        Basic::LocalTee(local) => context.spill(writer, Some(local), taken, places),
        _ => Ok(()),
    }
}

/// Behind an instruction that changes the length of the memory.
fn lengthened(
    context: &FunctionContext<'_, '_>,
    writer: &mut CodeWriter,
    instruction: Basic,
) -> Result<(), NoMemory>
    ensures { OnOk result (Emits (lengthened (grows instruction) context.now) writer.old
        writer.new) }
{
    match instruction {
        Basic::MemoryGrow => context.set_length(writer),
        _ => Ok(()),
    }
}

/// The instruction, which takes so many operands and gives this, which is kept or passes.
fn on_operands(
    context: &FunctionContext<'_, '_>,
    writer: &mut CodeWriter,
    places: &OperandPlaces,
    instruction: Basic,
    taken: usize,
    gives: Option<OperandPlace>,
    passing: bool,
) -> Result<(), NoMemory>
    requires { length places.now ≤ context.now.slots }
    ensures { OnOk result (Emits (λ k. free context.now instruction (less taken places.now)
        (basic 0 instruction (lengthened (grows instruction) context.now
        (keep passing context.now (option_map place gives) (less taken places.now) k))))
        writer.old writer.new) }
{
    free(context, writer, places, instruction, taken)?;
    writer.basic(instruction)?;
    lengthened(context, writer, instruction)?;
    let height = places.len().saturating_sub(taken);
    context.keep(writer, passing, gives, height)
}

/// A basic instruction, which takes so many operands and gives this.
pub fn instruction(
    context: &FunctionContext<'_, '_>,
    writer: &mut CodeWriter,
    site: &Site<'_>,
    instruction: Basic,
    taken: usize,
    gives: Option<OperandPlace>,
) -> Result<(), NoMemory>
    requires shallow { site.now.labels + most_landings + 1 < 2 ^ 32 }
    requires room { length site.now.places.now ≤ context.now.slots }
    ensures { takes instruction ≡ taken
        → result_place context.now site.now.places.now instruction ≡ option_map place gives
        → OnOk result (Emits (λ k. plain context.now site.now.labels site.now.places.now
        site.now.offset instruction site.now.passing (λ es. k)) writer.old writer.new) }
{
    guarded(
        context,
        writer,
        site.labels,
        site.places,
        site.offset,
        &instruction,
    )?;
    let places = site.places;
    on_operands(
        context,
        writer,
        places,
        instruction,
        taken,
        gives,
        site.passing,
    )
}
