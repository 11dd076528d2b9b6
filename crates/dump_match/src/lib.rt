//! Whether a dump can be one of a module: nine tests, of which the first that fails is told. Want
//! of memory changes no answer.
#![tactic(auto)]

ghost use Rattle.std.specs.Prelude.{◌<◌, ◌^◌, length};
ghost use Rattle.dump_match.specs.Judged.{Judged};
ghost use Rattle.dump_match.specs.States.{StateJudged};
ghost use Rattle.dump_format.specs.calls.Contained.{IsContained};

mod close;
mod code;
mod frames;
mod kept;
mod matched;
mod mismatch;
mod stand;
mod state;
mod values;
mod whole;

use dump_format::Dump;
use frames::judge_frames;
pub use matched::{Matched, StateMatched};
pub use mismatch::Mismatch;
use state::judge_state_frames;
use std::alloc::Global;
use wasm_validate::Validated;
use whole::judge_whole;

/// Whether a dump can be one of a module (tool-conventions Coredump.md): its one instance, its
/// memory and its globals are those of the module, and each frame stands in live code with locals
/// and operands of the types there, each one but the innermost at a call that can have called the
/// function of the frame before it. Where functions with many groups of locals have frames, it
/// takes memory in proportion to their groups, and without it time in proportion to those of each
/// frame.
///
/// # Errors
///
/// The first test that fails: of the instance, of the memory, and of the globals by their indices;
/// then those of the innermost frame, of the next one and so on.
pub fn matches<'m, 'd, 'b>(
    alloc: Global,
    module_: &'m Validated,
    dump: &'d Dump<'b>,
) -> Result<Matched<'m, 'd, 'b>, Mismatch>
    requires frames { length dump.now.frames < 2 ^ 32 }
    requires globals { length dump.now.globals < 2 ^ 32 }
    requires contained { IsContained dump.now }
    ensures { Judged result module_.now dump.now }
{
    judge_whole(module_.module().parts(), dump)?;
    judge_frames(alloc, module_, dump)?;
    Ok(Matched::new(module_, dump))
}

/// Whether a dump can show a state of a module, at a trap or elsewhere: as `matches`, but the
/// innermost frame may stand at an `else` or `end`, where nothing is asked of its operands.
///
/// # Errors
///
/// The first test that fails, in the order of `matches`.
pub fn matches_state<'m, 'd, 'b>(
    alloc: Global,
    module_: &'m Validated,
    dump: &'d Dump<'b>,
) -> Result<StateMatched<'m, 'd, 'b>, Mismatch>
    requires frames { length dump.now.frames < 2 ^ 32 }
    requires globals { length dump.now.globals < 2 ^ 32 }
    requires contained { IsContained dump.now }
    ensures { StateJudged result module_.now dump.now }
{
    judge_whole(module_.module().parts(), dump)?;
    judge_state_frames(alloc, module_, dump)?;
    Ok(StateMatched::new(module_, dump))
}
