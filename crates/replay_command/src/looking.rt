//! Commands of the debugger on the state that is shown.

ghost use Rattle.std.specs.Prelude.{◌≡◌, ◌<◌, ◌^◌, IfOk, OnOk, codes};
ghost use Rattle.debugger.specs.Subject.{Spells};
ghost use Rattle.dump_match.specs.States.{KeptState};
ghost use Rattle.replay.specs.Moves.{OfEach, Replay};
ghost use Rattle.replay_command.specs.ReplayText.{ShowsStep, commands_in};
ghost use Rattle.replay_command.specs.inner.Steps.{BeginsWithLook, IsShorter, LookedThrough, Took, choosing, left_in};

use crate::reading::{begins_with_look, first_command};
use causes::NoMemory;
use debug_command::push_command;
use debugger::{Information, Session};
use dump_format::Dump;
use dump_match::{StateMatched, matches_state};
use pm_text::Text;
use replay::Replayer;
use std::alloc::Global;
use std::marker::Model;
use std::mem;
use trap_image::image;
use wasm_validate::Validated;

/// Looks at states of a module: what its bytes say, which is read at the first look that needs it,
/// and the chosen frame.
#[derive(Drop)]
pub(crate) struct Viewer<'a> {
    source: &'a Validated,
    bytes: &'a [u8],
    known: Option<Information<'a>>,
    chosen: u32,
}

impl<'a> Model for Viewer<'a> {
    ghost use Rattle.std.specs.Prelude.{◌≡◌, IfSome};
    ghost use Rattle.debug_frames.specs.Information.{information};
    ghost use Rattle.debugger.specs.Subject.{Spells};
    ghost use Rattle.replay_command.specs.inner.Steps.{Seat};

    ghost Value = { Seat };

    ghost view = { λ v. record { module_ = v.source.now; bytes = v.bytes.now; chosen = v.chosen } };

    ghost invariant = { λ v. Spells v.bytes.now v.source.now
        × IfSome v.known (λ x. x ≡ information v.bytes.now v.source.now.customs) };
}

/// Adds what the commands before the first move print, and hands out the text that is left from
/// there on.
fn push_looks<'c>(
    out: &mut Text,
    alloc: Global,
    session: &mut Session<'_, '_, '_, '_>,
    commands: &'c str,
) -> Result<Option<&'c str>, NoMemory>
    requires { BeginsWithLook commands.now }
    ensures looked { IfOk result (λ rest. LookedThrough session.old.subject session.old.chosen
        out.old
        (commands_in commands.now) (left_in rest) session.new.chosen out.new) }
    ensures shorter { IfOk result (λ rest. IsShorter rest commands.now) }
    ensures subject { OnOk result (session.new.subject ≡ session.old.subject) }
{
    let mut rest = commands;
    loop {
        let (given, behind) = first_command(rest);
        push_command(out, alloc, session, given)?;
        let Some(behind) = behind else {
            return Ok(None);
        };
        if !begins_with_look(behind) {
            return Ok(Some(behind));
        }
        rest = behind;
    }
}

/// A module with the dump of one of its states.
fn matched<'m, 'd, 'b>(
    alloc: Global,
    source: &'m Validated,
    dump: &'d Dump<'b>,
) -> StateMatched<'m, 'd, 'b>
    requires { KeptState source.now dump.now }
    ensures module_ { result.module_ ≡ source.now }
    ensures dump { result.dump ≡ dump.now }
{
    match matches_state(alloc, source, dump) {
        Ok(matched) => matched,
        Err(_) => unreachable!(),
    }
}

/// The dump of the state that is shown. Each state of a run can be shown by one.
fn shown_dump<'i>(
    alloc: Global,
    source: &Validated,
    replayer: &'i Replayer<'_>,
) -> Result<Dump<'i>, NoMemory>
    requires module_ { source.now ≡ replayer.now.recording.module_ }
    requires depth { replayer.now.recording.depth < 2 ^ 32 }
    ensures kept { IfOk result (KeptState source.now) }
    ensures shows { IfOk result (λ d. OfEach replayer.now.recording (λ p.
        ShowsStep p replayer.now.recording replayer.now.step d)) }
{
    let _parts = source.module().parts();
    image(alloc, replayer.state(), "module")
}

impl<'a> Viewer<'a> {
    /// Nothing is read yet, and frame 0 is chosen. The bytes are those that the module was decoded
    /// from.
    pub(crate) fn new(source: &'a Validated, bytes: &'a [u8]) -> Self
        requires { Spells bytes.now source.now }
        ensures { result ≡ record { module_ = source.now; bytes = bytes.now; chosen = 0 } }
    {
        Viewer {
            source,
            bytes,
            known: None,
            chosen: 0,
        }
    }

    /// The innermost frame is chosen.
    pub(crate) fn choose_innermost(&mut self)
        ensures { self.new ≡ choosing self.old 0 }
    {
        self.chosen = 0;
    }

    /// Adds what the commands before the first move print on the state of this dump, and hands out the
    /// text that is left from there on.
    fn look_at<'c>(
        &mut self,
        out: &mut Text,
        alloc: Global,
        dump: &Dump<'_>,
        commands: &'c str,
    ) -> Result<Option<&'c str>, NoMemory>
        requires kept { KeptState self.old.module_ dump.now }
        requires look { BeginsWithLook commands.now }
        ensures took { (r : Replay) → self.old.module_ ≡ r.recording.module_
            → OfEach r.recording (λ p. ShowsStep p r.recording r.step dump.now)
            → IfOk result (λ rest. Took r self.old out.old (commands_in commands.now)
            (left_in rest) r self.new out.new) }
        ensures shorter { IfOk result (λ rest. IsShorter rest commands.now) }
    {
        let matched = matched(alloc, self.source, dump);
        let known = self.known.take();
        let mut session = Session::on_state(alloc, self.bytes, known, matched, self.chosen)?;
        match push_looks(out, alloc, &mut session, commands) {
            Ok(rest) => {
                self.chosen = session.chosen();
                drop(mem::replace(&mut self.known, session.into_information()));
                Ok(rest)
            }
            Err(NoMemory) => {
                drop(session.into_information());
                Err(NoMemory)
            }
        }
    }

    /// Adds what the commands before the first move print on the state that is shown, and hands out
    /// the text that is left from there on.
    pub(crate) fn look<'c>(
        &mut self,
        out: &mut Text,
        alloc: Global,
        replayer: &Replayer<'_>,
        commands: &'c str,
    ) -> Result<Option<&'c str>, NoMemory>
        requires module_ { self.old.module_ ≡ replayer.now.recording.module_ }
        requires depth { replayer.now.recording.depth < 2 ^ 32 }
        requires look { BeginsWithLook commands.now }
        ensures took { IfOk result (λ rest. Took replayer.now self.old out.old
            (commands_in commands.now)
            (left_in rest) replayer.now self.new out.new) }
        ensures shorter { IfOk result (λ rest. IsShorter rest commands.now) }
    {
        let dump = shown_dump(alloc, self.source, replayer)?;
        let rest = self.look_at(out, alloc, &dump, commands);
        drop(dump);
        rest
    }
}
