//! The tests of a state: those of a dump, but that its innermost frame may stand at an `else` or
//! `end`.

ghost use Rattle.std.specs.Prelude.{◌<◌, ◌^◌, length};
ghost use Rattle.std.specs.Ordering.{nat_cmp};
ghost use Rattle.std.specs.BTreeMap.{get};
ghost use Rattle.dump_match.specs.inner.Decides.{StateFrameJudged, StateFramesJudged};
ghost use Rattle.dump_match.specs.inner.Kept.{KeepsGroups};

use crate::close::is_at_close;
use crate::frames::{judge_frame, locals_fit};
use crate::kept::{KeptGroups, kept_groups};
use crate::mismatch::Mismatch;
use dump_format::Dump;
use std::alloc::Global;
use wasm_validate::Validated;

/// The tests of the innermost frame. At an `else` or `end` its function is defined, and nothing is
/// asked of its operands.
fn judge_innermost(m: &Validated, kept: &KeptGroups, dump: &Dump<'_>) -> Result<(), Mismatch>
    requires there { 0 < length dump.now.frames }
    requires kept { KeepsGroups m.now (get nat_cmp kept.now) }
    ensures { StateFrameJudged result m.now dump.now 0 }
{
    let frames = dump.frames.as_slice();
    let frame = &frames[0];
    if !is_at_close(m, frame) {
        return judge_frame(m, kept, dump, 0);
    }
    if locals_fit(m.module().parts(), kept, frame) {
        Ok(())
    } else {
        Err(Mismatch::Locals { frame: 0 })
    }
}

/// The tests of a frame.
fn judge_state_frame(
    m: &Validated,
    kept: &KeptGroups,
    dump: &Dump<'_>,
    i: u32,
) -> Result<(), Mismatch>
    requires there { i < length dump.now.frames }
    requires kept { KeepsGroups m.now (get nat_cmp kept.now) }
    ensures { StateFrameJudged result m.now dump.now i }
{
    if i == 0 {
        judge_innermost(m, kept, dump)
    } else {
        judge_frame(m, kept, dump, i)
    }
}

/// The tests of all frames, the innermost first, with the groups that are kept.
fn judge_each_state(m: &Validated, kept: &KeptGroups, dump: &Dump<'_>) -> Result<(), Mismatch>
    requires frames { length dump.now.frames < 2 ^ 32 }
    requires kept { KeepsGroups m.now (get nat_cmp kept.now) }
    ensures { StateFramesJudged result m.now dump.now }
{
    for i in 0..dump.frames.len() {
        judge_state_frame(m, kept, dump, i as u32)?;
    }
    Ok(())
}

/// The tests of all frames, the innermost first.
pub fn judge_state_frames(alloc: Global, m: &Validated, dump: &Dump<'_>) -> Result<(), Mismatch>
    requires { length dump.now.frames < 2 ^ 32 }
    ensures { StateFramesJudged result m.now dump.now }
{
    let kept = kept_groups(alloc, m, dump.frames.as_slice());
    judge_each_state(m, &kept, dump)
}
