//! A session of commands.

ghost use Rattle.std.specs.Prelude.{◌≡◌, ◌<◌, ◌^◌, IfOk, IfSome, None, slice_get, length};
ghost use Rattle.debug_frames.specs.Information.{information};
ghost use Rattle.debugger.specs.Subject.{subject_of, subject_on, Spells};
ghost use Rattle.debugger.specs.Session.{chosen_of, chosen_behind};
ghost use Rattle.debugger.specs.calls.Sitting.{sitting, Answers};

use crate::answers::answer;
use crate::{Command, Information, Subject, read_command};
use causes::NoMemory;
use dump_format::Frame;
use dump_match::{Matched, StateMatched};
use pm_text::Text;
use std::alloc::Global;
use std::marker::Model;

/// A session on a module and a dump that can be one of it. Frame 0 is chosen at first.
#[derive(Drop)]
pub struct Session<'a, 'm, 'd, 'b> {
    subject: Subject<'a, 'm, 'd, 'b>,
    chosen: u32,
}

impl<'a, 'm, 'd, 'b> Model for Session<'a, 'm, 'd, 'b> {
    ghost use Rattle.debugger.specs.calls.Sitting.{Sitting, sitting};

    ghost Value = { Sitting };

    ghost view = { λ s. sitting s.subject s.chosen };
}

/// The frame that is chosen behind a command.
fn chosen_behind(subject: &Subject<'_, '_, '_, '_>, chosen: u32, command: Command) -> u32
    ensures { result ≡ chosen_behind subject.now chosen command }
{
    match command {
        Command::Frame { number } => chosen_of(subject.frames(), chosen, number),
        _ => chosen,
    }
}

/// The frame of a number, where it is there, else the one that was chosen.
fn chosen_of(frames: &[Frame], chosen: u32, number: u64) -> u32
    requires { length frames.now < 2 ^ 32 }
    ensures { result ≡ chosen_of chosen number (slice_get frames.now number) }
{
    if number < frames.len() as u64 {
        number as u32
    } else {
        chosen
    }
}

impl<'a, 'm, 'd, 'b> Session<'a, 'm, 'd, 'b> {
    /// A session on the module that these bytes spell, with what they say where it is known, and a
    /// dump that shows a state of the module. This frame is chosen.
    pub fn on_state(
        alloc: Global,
        bytes: &'a [u8],
        known: Option<Information<'a>>,
        matched: StateMatched<'m, 'd, 'b>,
        chosen: u32,
    ) -> Result<Self, NoMemory>
        requires spells { Spells bytes.now matched.module_ }
        requires known { IfSome known (λ x. x ≡ information bytes.now matched.module_.customs) }
        ensures { IfOk result (λ s. s ≡ sitting (subject_on
            (information bytes.now matched.entry.module_.customs)
            matched.entry.module_ matched.entry.dump) chosen) }
    {
        match Subject::new(alloc, bytes, known, matched) {
            Ok(subject) => Ok(Session { subject, chosen }),
            Err(NoMemory) => Err(NoMemory),
        }
    }

    /// A session on the module that these bytes spell, and a dump that can be one of it. Debugging
    /// information is read once, at the first command that needs it.
    pub fn new(
        alloc: Global,
        bytes: &'a [u8],
        matched: Matched<'m, 'd, 'b>,
    ) -> Result<Self, NoMemory>
        requires { Spells bytes.now matched.module_ }
        ensures { IfOk result (λ s. s ≡ sitting (subject_of bytes.now matched.entry) 0) }
    {
        Session::on_state(alloc, bytes, None, StateMatched::of_dump(matched), 0)
    }

    /// The chosen frame.
    pub fn chosen(&self) -> u32
        ensures { result ≡ self.now.chosen }
    {
        self.chosen
    }

    /// What the bytes of the module say, for another session, where it was read.
    pub fn into_information(self) -> Option<Information<'a>>
        ensures { IfSome result (λ x. x ≡ self.entry.subject.information) }
    {
        self.subject.into_information()
    }

    /// The text that a command prints. Where memory runs out the session is unchanged.
    pub fn command(&mut self, alloc: Global, text: &str) -> Result<Text, NoMemory>
        ensures { Answers self.old text.now result self.new }
    {
        let command = read_command(text);
        let printed = answer(alloc, &mut self.subject, self.chosen, text, command)?;
        self.chosen = chosen_behind(&self.subject, self.chosen, command);
        Ok(printed)
    }
}
