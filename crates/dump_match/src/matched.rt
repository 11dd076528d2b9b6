//! A module with a dump of it.

ghost use Rattle.std.specs.Prelude.{◌≡◌, ◌<◌, ◌^◌, length};
ghost use Rattle.dump_format.specs.calls.Contained.{IsContained};
ghost use Rattle.wasm_syntax.specs.Valid.{There};
ghost use Rattle.dump_match.specs.Matching.{Matches};
ghost use Rattle.dump_match.specs.States.{MatchesState, StateOperandCount};

use crate::frames::operand_count;
use dump_format::Dump;
use std::marker::Model;
use wasm_validate::Validated;

/// A module and a dump that can be one of it, which contracts see as the two.
#[derive(Drop)]
pub struct Matched<'m, 'd, 'b> {
    module: &'m Validated,
    dump: &'d Dump<'b>,
}

impl<'m, 'd, 'b> Model for Matched<'m, 'd, 'b> {
    ghost use Rattle.dump_match.specs.Judged.{Match, Kept};

    ghost Value = { Match };

    ghost view = { λ s. record { module_ = s.«module».now; dump = s.dump.now } };

    ghost invariant = { λ s. Kept s.«module».now s.dump.now };
}

/// How many operands the frame of an index shows.
fn frame_operands(m: &Validated, dump: &Dump<'_>, index: u32) -> u32
    requires { index < length dump.now.frames }
    ensures { There dump.now.frames index (λ f. StateOperandCount m.now index f result) }
{
    let frames = dump.frames.as_slice();
    let frame = &frames[index as usize];
    operand_count(m, frame, index)
}

impl<'m, 'd, 'b> Matched<'m, 'd, 'b> {
    /// The two, where they match.
    pub(crate) fn new(module_: &'m Validated, dump: &'d Dump<'b>) -> Self
        requires matches { Matches module_.now dump.now }
        requires frames { length dump.now.frames < 2 ^ 32 }
        requires globals { length dump.now.globals < 2 ^ 32 }
        requires contained { IsContained dump.now }
        ensures module_ { result.module_ ≡ module_.now }
        ensures dump { result.dump ≡ dump.now }
    {
        Matched {
            module: module_,
            dump,
        }
    }
}

/// A module and a dump that can show a state of it, which contracts see as the two.
#[derive(Drop)]
pub struct StateMatched<'m, 'd, 'b> {
    module: &'m Validated,
    dump: &'d Dump<'b>,
}

impl<'m, 'd, 'b> Model for StateMatched<'m, 'd, 'b> {
    ghost use Rattle.dump_match.specs.Judged.{Match};
    ghost use Rattle.dump_match.specs.States.{KeptState};

    ghost Value = { Match };

    ghost view = { λ s. record { module_ = s.«module».now; dump = s.dump.now } };

    ghost invariant = { λ s. KeptState s.«module».now s.dump.now };
}

impl<'m, 'd, 'b> StateMatched<'m, 'd, 'b> {
    /// The two, where they match.
    pub(crate) fn new(module_: &'m Validated, dump: &'d Dump<'b>) -> Self
        requires matches { MatchesState module_.now dump.now }
        requires frames { length dump.now.frames < 2 ^ 32 }
        requires globals { length dump.now.globals < 2 ^ 32 }
        requires contained { IsContained dump.now }
        ensures module_ { result.module_ ≡ module_.now }
        ensures dump { result.dump ≡ dump.now }
    {
        StateMatched {
            module: module_,
            dump,
        }
    }

    /// A dump that can be one of a module can show a state of it.
    pub fn of_dump(matched: Matched<'m, 'd, 'b>) -> Self
        ensures module_ { result.module_ ≡ matched.entry.module_ }
        ensures dump { result.dump ≡ matched.entry.dump }
    {
        StateMatched::new(matched.module, matched.dump)
    }

    /// How many operands a frame shows, by its index from the innermost frame on, also where they
    /// are not recorded. Where the innermost frame stands at an `else` or `end` the module tells
    /// none.
    pub fn operand_count(&self, index: u32) -> u32
        requires { index < length self.now.dump.frames }
        ensures { There self.now.dump.frames index
            (λ f. StateOperandCount self.now.module_ index f result) }
    {
        frame_operands(self.module, self.dump, index)
    }

    /// The module.
    pub fn module(&self) -> &Validated
        ensures value { result.now ≡ self.now.module_ }
        ensures matches { MatchesState result.now self.now.dump }
    {
        self.module
    }

    /// The dump.
    pub fn dump(&self) -> &Dump<'b>
        ensures value { result.now ≡ self.now.dump }
        ensures matches { MatchesState self.now.module_ result.now }
        ensures frames { length result.now.frames < 2 ^ 32 }
        ensures globals { length result.now.globals < 2 ^ 32 }
        ensures contained { IsContained result.now }
    {
        self.dump
    }
}
