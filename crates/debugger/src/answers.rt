//! The texts that commands print.

ghost use Rattle.std.specs.Prelude.{◌≡◌, ◌++◌, Some, IfOk, OnOk, option_copied, slice_get};
ghost use Rattle.debugger.specs.Session as definitions;
ghost use Rattle.debugger.specs.calls.Parts as parts_there;
ghost use Rattle.debugger.specs.calls.Types.{AreTypes, AreKept};

use crate::asked::{Asked, Spelled};
use crate::known_types::{Kept, KnownTypes};
use crate::view::{Chosen, looks_of, view_of};
use crate::{
    Command, Information, Subject, push_backtrace, push_frame_at, push_globals, push_locals,
    push_memory, push_no_frame, push_operands, push_path, push_variables, second_word,
};
use causes::NoMemory;
use debug_frames::push_unreadable;
use dump_format::Frame;
use pm_text::Text;
use std::alloc::Global;
use var_path::parse_path;

/// The frame of an index.
fn frame_at(frames: &[Frame], index: u32) -> Option<&Frame>
    ensures { option_copied result ≡ slice_get frames.now index }
{
    frames.get(index as usize)
}

#[tactic(auto, unfolding(crate::specs::Session::bad_text))]
fn push_bad(out: &mut Text) -> Result<(), NoMemory>
    ensures { OnOk result (out.new ≡ out.old ++ definitions.bad_text) }
{
    out.push_str("bad command\n")
}

// ---- the variables of the chosen frame

/// Adds the variables that are visible in the chosen frame, behind what could not be read.
#[tactic(auto, unfolding(crate::specs::Session::chosen_variables, crate::specs::Variables::variables_text))]
fn push_variables_by(
    out: &mut Text,
    alloc: Global,
    information: &Information<'_>,
    types: &KnownTypes,
    subject: &Subject<'_, '_, '_, '_>,
    chosen: Chosen,
) -> Result<(), NoMemory>
    requires information { information.now ≡ subject.now.information }
    requires types { AreTypes subject.now.information.units types.now }
    ensures { OnOk result (out.new ≡ out.old
        ++ definitions.chosen_variables subject.now chosen.index chosen.operands) }
{
    push_unreadable(out, information)?;
    let Some(frame) = frame_at(subject.frames(), chosen.index) else {
        return push_no_frame(out, 0);
    };
    let view = view_of(frame, subject.globals(), subject.memory());
    let typed = types.typed(information.units());
    let parts = subject.parts();
    let Ok(looks) = looks_of(alloc, information, parts, frame, chosen, &view, typed) else {
        return Err(NoMemory);
    };
    push_variables(out, alloc, &looks)
}

fn push_chosen_variables<'a>(
    out: &mut Text,
    alloc: Global,
    information: &Information<'a>,
    subject: &mut Subject<'a, '_, '_, '_>,
    chosen: Chosen,
) -> Result<(), NoMemory>
    requires { information.now ≡ subject.old.information }
    ensures text { OnOk result (out.new ≡ out.old
        ++ definitions.chosen_variables subject.old chosen.index chosen.operands) }
    ensures same { subject.new ≡ subject.old }
{
    let Ok(kept) = subject.take_kept(alloc, information) else {
        return Err(NoMemory);
    };
    let pushed = push_variables_by(out, alloc, information, &kept.types, subject, chosen);
    subject.keep(kept);
    pushed
}

// ---- a path in the chosen frame

/// Adds the line of what stands at a path in the chosen frame.
#[tactic(auto, unfolding(crate::specs::Variables::path_text))]
fn push_path_by<'a>(
    out: &mut Text,
    alloc: Global,
    information: &Information<'a>,
    kept: &mut Kept<'a>,
    subject: &Subject<'_, '_, '_, '_>,
    chosen: Chosen,
    spelled: &Spelled<'_>,
) -> Result<(), NoMemory>
    requires information { information.now ≡ subject.now.information }
    requires kept { AreKept subject.now.information.sections subject.now.information.units
        kept.old }
    ensures text { OnOk result (out.new ≡ out.old ++ definitions.chosen_path subject.now
        chosen.index chosen.operands spelled.now.word (Some spelled.now.path)) }
    ensures kept { AreKept subject.now.information.sections subject.now.information.units
        kept.new }
{
    let Some(frame) = frame_at(subject.frames(), chosen.index) else {
        return push_no_frame(out, 0);
    };
    let view = view_of(frame, subject.globals(), subject.memory());
    let typed = kept.types.typed(information.units());
    let parts = subject.parts();
    let Ok(looks) = looks_of(alloc, information, parts, frame, chosen, &view, typed) else {
        return Err(NoMemory);
    };
    push_path(
        out,
        alloc,
        &looks,
        &mut kept.names,
        spelled.word,
        &spelled.path,
    )
}

fn push_chosen_path<'a>(
    out: &mut Text,
    alloc: Global,
    information: &Information<'a>,
    subject: &mut Subject<'a, '_, '_, '_>,
    chosen: Chosen,
    spelled: &Spelled<'_>,
) -> Result<(), NoMemory>
    requires { information.now ≡ subject.old.information }
    ensures text { OnOk result (out.new ≡ out.old ++ definitions.chosen_path subject.old
        chosen.index chosen.operands spelled.now.word (Some spelled.now.path)) }
    ensures same { subject.new ≡ subject.old }
{
    let Ok(mut kept) = subject.take_kept(alloc, information) else {
        return Err(NoMemory);
    };
    let pushed = push_path_by(out, alloc, information, &mut kept, subject, chosen, spelled);
    subject.keep(kept);
    pushed
}

// ---- what is printed by what the bytes of the module say

/// For so few frames to gather the subprograms takes longer than to go through the entries for each.
const FEW: usize = 4;

/// Whether to gather the subprograms pays for what is asked: for all but a few frames, where what the
/// bytes of the module say is read only now.
fn gathering_pays(asked: &Asked<'_>, is_read: bool, frames: usize) -> bool {
    match asked {
        Asked::Backtrace => is_read || frames > FEW,
        Asked::Frame { .. } => is_read,
        _ => true,
    }
}

/// Gathers the subprograms where that pays.
fn gather_where(
    alloc: Global,
    information: &mut Information<'_>,
    pays: bool,
) -> Result<(), NoMemory>
    ensures { information.new ≡ information.old }
{
    if pays {
        information.gather(alloc)
    } else {
        Ok(())
    }
}

/// Adds what is asked of what the bytes of the module say. The subprograms are gathered first if that
/// pays.
fn push_informed_by<'a>(
    out: &mut Text,
    alloc: Global,
    information: &mut Information<'a>,
    pays: bool,
    subject: &mut Subject<'a, '_, '_, '_>,
    chosen: Chosen,
    asked: &Asked<'_>,
) -> Result<(), NoMemory>
    requires { information.old ≡ subject.old.information }
    ensures text { OnOk result (out.new ≡ out.old ++ parts_there.informed_text subject.old
        chosen.index chosen.operands asked.now) }
    ensures same { subject.new ≡ subject.old }
    ensures kept { information.new ≡ information.old }
{
    gather_where(alloc, information, pays)?;
    match asked {
        Asked::Backtrace => push_backtrace(out, alloc, information, subject),
        Asked::Frame { number } => push_frame_at(out, alloc, information, subject, *number),
        Asked::Variables => push_chosen_variables(out, alloc, information, subject, chosen),
        Asked::Value(spelled) => {
            push_chosen_path(out, alloc, information, subject, chosen, spelled)
        }
    }
}

/// Adds what is asked of what the bytes of the module say, which is read where it was not.
fn push_informed(
    out: &mut Text,
    alloc: Global,
    subject: &mut Subject<'_, '_, '_, '_>,
    chosen: Chosen,
    asked: &Asked<'_>,
) -> Result<(), NoMemory>
    ensures text { OnOk result (out.new ≡ out.old ++ parts_there.informed_text subject.old
        chosen.index chosen.operands asked.now) }
    ensures same { subject.new ≡ subject.old }
{
    let pays = gathering_pays(asked, subject.known.is_some(), subject.frames().len());
    let Ok(mut information) = subject.take_information(alloc) else {
        return Err(NoMemory);
    };
    let lent = &mut information;
    let pushed = push_informed_by(out, alloc, lent, pays, subject, chosen, asked);
    subject.keep_information(information);
    pushed
}

fn push_at_word(
    out: &mut Text,
    alloc: Global,
    subject: &mut Subject<'_, '_, '_, '_>,
    chosen: Chosen,
    word: &str,
) -> Result<(), NoMemory>
    ensures text { OnOk result (out.new ≡ out.old
        ++ definitions.word_text subject.old chosen.index chosen.operands word.now) }
    ensures same { subject.new ≡ subject.old }
{
    let Ok(path) = parse_path(alloc, word) else {
        return Err(NoMemory);
    };
    match path {
        Some(path) => {
            let asked = Asked::Value(Spelled { word, path });
            push_informed(out, alloc, subject, chosen, &asked)
        }
        None => push_bad(out),
    }
}

// ---- all commands

/// Adds what a command prints where a frame is chosen, which shows so many operands.
fn push_printed(
    out: &mut Text,
    alloc: Global,
    subject: &mut Subject<'_, '_, '_, '_>,
    chosen: Chosen,
    given: &str,
    command: Command,
) -> Result<(), NoMemory>
    ensures text { OnOk result (out.new ≡ out.old ++ definitions.printed subject.old chosen.index
        chosen.operands given.now command) }
    ensures same { subject.new ≡ subject.old }
{
    match command {
        Command::Backtrace => push_informed(out, alloc, subject, chosen, &Asked::Backtrace),
        Command::Frame { number } => {
            push_informed(out, alloc, subject, chosen, &Asked::Frame { number })
        }
        Command::Variables => push_informed(out, alloc, subject, chosen, &Asked::Variables),
        Command::Print => push_at_word(out, alloc, subject, chosen, second_word(given)),
        Command::Locals => match frame_at(subject.frames(), chosen.index) {
            Some(frame) => push_locals(out, subject, frame),
            None => push_no_frame(out, 0),
        },
        Command::Operands => match frame_at(subject.frames(), chosen.index) {
            Some(frame) => push_operands(out, frame, chosen.operands),
            None => push_no_frame(out, 0),
        },
        Command::Globals => push_globals(out, subject),
        Command::Examine { address, count } => push_memory(out, alloc, subject, address, count),
        Command::Bad => push_bad(out),
    }
}

/// What a command prints.
type Answer = Result<Text, NoMemory>;

/// How many operands the frame of an index shows; none where there is no such frame.
fn shown_at(subject: &Subject<'_, '_, '_, '_>, index: u32) -> u32
    ensures { definitions.Shows subject.now index (slice_get subject.now.frames index) result }
{
    if (index as usize) < subject.frames().len() {
        subject.operand_count(index)
    } else {
        0
    }
}

/// What a command prints where the frame of an index is chosen.
pub fn answer(
    alloc: Global,
    subject: &mut Subject<'_, '_, '_, '_>,
    index: u32,
    given: &str,
    command: Command,
) -> Answer
    ensures prints { IfOk result (definitions.Prints subject.old index given.now command) }
    ensures same { subject.new ≡ subject.old }
{
    let operands = shown_at(subject, index);
    let chosen = Chosen { index, operands };
    let mut out = Text::new(alloc);
    push_printed(&mut out, alloc, subject, chosen, given, command)?;
    Ok(out)
}
