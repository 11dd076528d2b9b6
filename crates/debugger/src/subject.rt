//! What a session looks at.

ghost use Rattle.std.specs.Prelude.{◌≡◌, ◌<◌, ◌≤◌, ◌^◌, IfOk, IfSome, length, option_map};
ghost use Rattle.wasm_syntax.specs.Sizes.{WithinLimits};
ghost use Rattle.wasm_syntax.specs.Valid.{There};
ghost use Rattle.dwarf_info.specs.Sections.{greatest_section};
ghost use Rattle.dump_match.specs.States.{StateOperandCount};
ghost use Rattle.debugger.specs.Recorded as recorded;
ghost use Rattle.debug_frames.specs.Information.{information};
ghost use Rattle.debugger.specs.Subject.{Spells, subject_on};
ghost use Rattle.debugger.specs.calls.Types.{AreKept};

use crate::known_types::{Kept, kept_of};
use crate::{recorded_globals, recorded_memory};
use causes::NoMemory;
use debug_frames::Information;
use dump_format::Frame;
use dump_match::StateMatched;
use linear_memory::Memory;
use pm_text::Items;
use std::alloc::Global;
use std::marker::Model;
use std::mem;
use wasm_syntax::{ModuleParts, Seen};
use wasm_validate::Validated;

/// What the bytes of a module say, which is read when it is first asked for, the module, and a dump
/// that can show a state of it, with the globals and the memory that it records. Contracts see of the
/// dump what it records.
#[derive(Drop)]
pub struct Subject<'a, 'm, 'd, 'b> {
    bytes: &'a [u8],
    pub(crate) known: Option<Information<'a>>,
    // Of its units.
    kept: Option<Kept<'a>>,
    matched: StateMatched<'m, 'd, 'b>,
    globals: Items<Seen>,
    memory: Option<Memory>,
}

impl<'a, 'm, 'd, 'b> Model for Subject<'a, 'm, 'd, 'b> {
    ghost use Rattle.std.specs.Prelude.{◌≡◌, IfSome, option_map};
    ghost use Rattle.debug_frames.specs.Information.{information};
    ghost use Rattle.debugger.specs.Recorded.{recorded_globals, recorded_memory};
    ghost use Rattle.debugger.specs.Subject.{Subject, Spells, subject_on};
    ghost use Rattle.debugger.specs.calls.Types.{AreKept};

    ghost Value = { Subject };

    ghost view = { λ s. subject_on (information s.bytes.now s.matched.module_.customs)
        s.matched.module_ s.matched.dump };

    ghost invariant = { λ s. Spells s.bytes.now s.matched.module_
        × IfSome s.known (λ x. x ≡ information s.bytes.now s.matched.module_.customs)
        × IfSome s.kept (AreKept (information s.bytes.now s.matched.module_.customs).sections
        (information s.bytes.now s.matched.module_.customs).units)
        × (s.globals ≡ recorded_globals s.matched.dump)
        × (option_map (λ m. m.memory) s.memory ≡ recorded_memory s.matched.dump) };
}

/// The globals and the memory that a dump records.
fn recorded_of(
    alloc: Global,
    matched: &StateMatched<'_, '_, '_>,
) -> Result<(Items<Seen>, Option<Memory>), NoMemory>
    ensures globals { IfOk result (λ x. x.0 ≡ recorded.recorded_globals matched.now.dump) }
    ensures memory { IfOk result (λ x. option_map (λ m. m.memory) x.1
        ≡ recorded.recorded_memory matched.now.dump) }
{
    let dump = matched.dump();
    let globals = recorded_globals(alloc, dump)?;
    let memory = recorded_memory(alloc, dump)?;
    Ok((globals, memory))
}

/// What the bytes of a module say, which are those that it was decoded from.
#[tactic(auto, using(wasm_decode::proofs::Short::short_bytes))]
fn information_of<'a>(
    alloc: Global,
    bytes: &'a [u8],
    module_: &Validated,
) -> Result<Information<'a>, NoMemory>
    requires { Spells bytes.now module_.now }
    ensures { IfOk result (λ x. x ≡ information bytes.now module_.now.customs) }
{
    Information::of(alloc, bytes, module_.module())
}

/// Lets go of what the bytes of a module say, where nothing else is held.
fn discard(_known: Option<Information<'_>>) {}

impl<'a, 'm, 'd, 'b> Subject<'a, 'm, 'd, 'b> {
    /// The bytes are those that the module was decoded from; what they say may be known already.
    pub fn new(
        alloc: Global,
        bytes: &'a [u8],
        known: Option<Information<'a>>,
        matched: StateMatched<'m, 'd, 'b>,
    ) -> Result<Self, NoMemory>
        requires spells { Spells bytes.now matched.module_ }
        requires known { IfSome known (λ x. x ≡ information bytes.now matched.module_.customs) }
        ensures { IfOk result (λ s. s ≡ subject_on
            (information bytes.now matched.entry.module_.customs)
            matched.entry.module_ matched.entry.dump) }
    {
        match recorded_of(alloc, &matched) {
            Ok((globals, memory)) => Ok(Subject {
                bytes,
                known,
                kept: None,
                matched,
                globals,
                memory,
            }),
            Err(NoMemory) => {
                discard(known);
                Err(NoMemory)
            }
        }
    }

    /// What the bytes of the module say, which is taken out where it was read before.
    pub(crate) fn take_information(&mut self, alloc: Global) -> Result<Information<'a>, NoMemory>
        ensures value { IfOk result (λ x. x ≡ self.old.information) }
        ensures same { self.new ≡ self.old }
    {
        match self.known.take() {
            Some(information) => Ok(information),
            None => information_of(alloc, self.bytes, self.matched.module()),
        }
    }

    /// Keeps what the bytes of the module say.
    pub(crate) fn keep_information(&mut self, information: Information<'a>)
        requires { information ≡ self.old.information }
        ensures { self.new ≡ self.old }
    {
        discard(mem::replace(&mut self.known, Some(information)));
    }

    /// What is known of types and names of the module, which is taken out where it was found before.
    pub(crate) fn take_kept(
        &mut self,
        alloc: Global,
        information: &Information<'a>,
    ) -> Result<Kept<'a>, NoMemory>
        requires { information.now ≡ self.old.information }
        ensures value { IfOk result (AreKept self.old.information.sections
            self.old.information.units) }
        ensures same { self.new ≡ self.old }
    {
        match self.kept.take() {
            Some(kept) => Ok(kept),
            None => kept_of(alloc, information.units()),
        }
    }

    /// Keeps what is known of types and names of the module.
    pub(crate) fn keep(&mut self, kept: Kept<'a>)
        requires { AreKept self.old.information.sections self.old.information.units kept }
        ensures { self.new ≡ self.old }
    {
        self.kept = Some(kept);
    }

    /// What the bytes of the module say, for another subject, where it was read.
    pub fn into_information(self) -> Option<Information<'a>>
        ensures { IfSome result (λ x. x ≡ self.entry.information) }
    {
        self.known
    }

    pub fn parts(&self) -> &ModuleParts
        ensures value { result.now ≡ self.now.module_ }
        ensures limits { WithinLimits result.now }
    {
        self.matched.module().module().parts()
    }

    /// The recorded frames, the innermost first.
    pub fn frames(&self) -> &[Frame]
        ensures value { result.now ≡ self.now.frames }
        ensures few { length result.now < 2 ^ 32 }
    {
        self.matched.dump().frames.as_slice()
    }

    /// The recorded globals.
    pub fn globals(&self) -> &[Seen]
        ensures { result.now ≡ self.now.globals }
    {
        self.globals.as_slice()
    }

    /// The recorded memory.
    pub fn memory(&self) -> Option<&Memory>
        ensures { option_map (λ m. m.now.memory) result ≡ self.now.memory }
    {
        match &self.memory {
            Some(memory) => Some(memory),
            None => None,
        }
    }

    /// How many operands the frame of an index shows, also where they are not recorded.
    pub fn operand_count(&self, index: u32) -> u32
        requires { index < length self.now.frames }
        ensures { There self.now.frames index
            (λ f. StateOperandCount self.now.module_ index f result) }
    {
        self.matched.operand_count(index)
    }
}
