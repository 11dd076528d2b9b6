//! What is fixed in a function that is rewritten.

ghost use Rattle.std.specs.Prelude.{◌≡◌, ◌+◌, ◌*◌, ◌^◌, ◌<◌, ◌≤◌, length, map, OnOk};
ghost use Rattle.wasm_syntax.specs.Tree.{basic};
ghost use Rattle.wasm_syntax.specs.declared.instruction.Basic.TheVariants.{GlobalGet as GlobalGetOf};
ghost use Rattle.wasm_syntax.specs.declared.instruction.Basic.TheVariants.{LocalTee as LocalTeeOf};
ghost use Rattle.rewrite_bodies.specs.Numbering.{flag_of};
ghost use Rattle.rewrite_bodies.specs.calls.Slots.{slot, kind_at, offset_at, length_at, measured};
ghost use Rattle.rewrite_bodies.specs.calls.Pieces.{get, set};
ghost use Rattle.rewrite_bodies.specs.calls.Rewrite.{hand_value};
ghost use Rattle.rewrite_bodies.specs.calls.Guards.{get_length, length_of, measure, set_length};
ghost use Rattle.rewrite_bodies.specs.calls.Guards.{renew, renew_both, set_both};
ghost use Rattle.rewrite_code.specs.calls.Writing.{Emits};
ghost use Rattle.rewrite_bodies.specs.calls.Landings.{most_landings};
ghost use Rattle.rewrite_bodies.specs.calls.Facts.{among};
ghost use Rattle.rewrite_code.specs.calls.KeptLandings.{landing};
ghost use Rattle.rewrite_code.specs.calls.KeptDerivations.{derivation, each_derivation};
ghost use Rattle.rewrite_code.specs.calls.Contexts.{context, FewLocals};

use crate::CodeWriter;
use crate::derivation::Derivation;
use crate::landing::{Landing, Landings};
use crate::measuring::{renew, set_length};
use crate::offsets::Offsets;
use crate::place::slot;
use causes::NoMemory;
use index_map::IndexMap;
use pm_text::Items;
use std::marker::Model;
use wasm_syntax::{Basic, ValType};

/// The module, the types of a function's locals with its parameters, the number of heights, its
/// index, its result, its landings, the offsets of instructions that need a guard, and the locals
/// that are worked out where it is left.
#[derive(Drop)]
pub struct FunctionContext<'m, 'a> {
    map: &'m IndexMap<'a>,
    locals: Items<ValType>,
    slots: u32,
    index: u32,
    gives: Option<ValType>,
    landings: Landings,
    exposed: Offsets,
    derivations: Items<Derivation>,
}

/// How a function is left: its landings, the offsets of instructions that need a guard, and the
/// locals that are worked out where it is left.
#[derive(Drop)]
pub struct Exits {
    pub landings: Landings,
    pub exposed: Offsets,
    pub derivations: Items<Derivation>,
}

impl<'m, 'a> Model for FunctionContext<'m, 'a> {
    ghost use Rattle.rewrite_bodies.specs.calls.Slots.{Ctx};
    ghost use Rattle.rewrite_code.specs.calls.KeptDerivations.{each_derivation};
    ghost use Rattle.rewrite_code.specs.calls.Contexts.{context, FewLocals};

    ghost Value = { Ctx };

    ghost view = { λ s. context s.map.now s.locals s.slots s.index s.gives s.landings s.exposed
        (each_derivation s.derivations) };

    ghost invariant = { λ s. FewLocals s.locals s.slots };
}

impl<'m, 'a> FunctionContext<'m, 'a> {
    /// The context of a function of a module, whose locals can be numbered with those added.
    pub fn new(
        map: &'m IndexMap<'a>,
        locals: Items<ValType>,
        slots: u32,
        index: u32,
        gives: Option<ValType>,
        exits: Exits,
    ) -> Self
        requires { FewLocals locals slots }
        ensures { result ≡ context map.now locals slots index gives exits.landings exits.exposed
            (each_derivation exits.derivations) }
    {
        let Exits {
            landings,
            exposed,
            derivations,
        } = exits;
        FunctionContext {
            map,
            locals,
            slots,
            index,
            gives,
            landings,
            exposed,
            derivations,
        }
    }

    /// The numbers of the module's rewriting.
    pub fn map(&self) -> &IndexMap<'a>
        ensures { result.now ≡ self.now.source }
    {
        self.map
    }

    /// The types of the locals, with the parameters.
    pub fn locals(&self) -> &[ValType]
        ensures types { result.now ≡ self.now.locals }
        ensures few { FewLocals self.now.locals self.now.slots }
    {
        self.locals.as_slice()
    }

    /// The number of heights.
    pub fn slots(&self) -> u32
        ensures count { result ≡ self.now.slots }
        ensures few { 2 * result + 4 < 2 ^ 32 }
    {
        self.slots
    }

    /// The function's index in its module.
    pub fn index(&self) -> u32
        ensures { result ≡ self.now.index }
    {
        self.index
    }

    /// What the function gives.
    pub fn gives(&self) -> Option<ValType>
        ensures { result ≡ self.now.result }
    {
        self.gives
    }

    /// The landings.
    pub fn landings(&self) -> &[Landing]
        ensures list { map landing result.now ≡ self.now.landings }
        ensures few { length result.now ≤ most_landings }
    {
        self.landings.as_slice()
    }

    /// How many there are.
    pub fn landing_count(&self) -> u32
        ensures count { result ≡ length self.now.landings }
        ensures few { result ≤ most_landings }
    {
        self.landings.count()
    }

    /// The locals that are worked out where the function is left.
    pub fn derivations(&self) -> &[Derivation]
        ensures list { map derivation result.now ≡ self.now.derivations }
    {
        self.derivations.as_slice()
    }

    /// Whether an instruction at this offset needs a guard, if it can trap.
    pub fn is_exposed(&self, offset: u32) -> bool
        ensures { result ≡ among offset self.now.exposed }
    {
        self.exposed.contains(offset)
    }

    /// The place of the slot of a type at a height.
    pub fn slot_at(&self, t: ValType, height: usize) -> u32
        requires { height ≤ self.now.slots }
        ensures numbered { result ≡ slot self.now.slots t height }
        ensures low { result ≤ 2 * self.now.slots + 3 }
    {
        slot(self.slots, t, height as u32)
    }

    /// The place of the kind of a trap.
    pub fn kind_at(&self) -> u32
        ensures { result ≡ kind_at self.now }
    {
        self.slots + 1
    }

    /// The place of the offset of a trap.
    pub fn offset_at(&self) -> u32
        ensures { result ≡ offset_at self.now }
    {
        self.slots + 2
    }

    /// The place of the length of the memory.
    fn length_at(&self) -> u32
        ensures { result ≡ length_at self.now }
    {
        2 * self.slots + 4
    }

    /// Whether the function has a guard, and so keeps the length of the memory.
    fn is_measured(&self) -> bool
        ensures { result ≡ measured self.now }
    {
        self.exposed.is_any()
    }

    /// Reads an added local.
    pub fn get(&self, writer: &mut CodeWriter, x: u32) -> Result<(), NoMemory>
        requires { x ≤ 2 * self.now.slots + 4 }
        ensures { OnOk result (Emits (get self.now x) writer.old writer.new) }
    {
        writer.basic(Basic::LocalGet(self.locals.len() as u32 + x))
    }

    /// Writes an added local.
    pub fn set(&self, writer: &mut CodeWriter, x: u32) -> Result<(), NoMemory>
        requires { x ≤ 2 * self.now.slots + 4 }
        ensures { OnOk result (Emits (set self.now x) writer.old writer.new) }
    {
        writer.basic(Basic::LocalSet(self.locals.len() as u32 + x))
    }

    /// Writes an added local, and leaves the value on the stack.
    pub fn tee(&self, writer: &mut CodeWriter, x: u32) -> Result<(), NoMemory>
        requires { x ≤ 2 * self.now.slots + 4 }
        ensures { OnOk result (Emits (basic 0 (LocalTeeOf (length self.now.locals + x))) writer.old
            writer.new) }
    {
        writer.basic(Basic::LocalTee(self.locals.len() as u32 + x))
    }

    /// Reads the flag that says whether frames are being unwound.
    pub fn get_flag(&self, writer: &mut CodeWriter) -> Result<(), NoMemory>
        ensures { OnOk result (Emits (basic 0 (GlobalGetOf (flag_of self.now.source))) writer.old
            writer.new) }
    {
        writer.basic(Basic::GlobalGet(self.map.flag()))
    }

    /// Reads four bytes less than the length of the memory, as an i64, in a function that keeps it.
    #[tactic(auto, using(crate::proofs::LengthSet::length_read))]
    pub fn get_length(&self, writer: &mut CodeWriter) -> Result<(), NoMemory>
        ensures { OnOk result (Emits (get_length self.now) writer.old writer.new) }
    {
        self.get(writer, self.length_at())
    }

    /// Reads the global that has it.
    fn get_global(&self, writer: &mut CodeWriter) -> Result<(), NoMemory>
        ensures { OnOk result (Emits (basic 0 (GlobalGetOf (length_of self.now.source))) writer.old
            writer.new) }
    {
        writer.basic(Basic::GlobalGet(self.map.length()))
    }

    /// Sets the local of the length from the global, in a function that keeps it.
    pub fn measure(&self, writer: &mut CodeWriter) -> Result<(), NoMemory>
        ensures { OnOk result (Emits (measure (measured self.now) self.now) writer.old writer.new) }
    {
        if self.is_measured() {
            self.get_global(writer)?;
            self.set(writer, self.length_at())
        } else {
            Ok(())
        }
    }

    /// Sets both anew, behind an instruction that changes the length.
    #[tactic(auto, using(crate::proofs::LengthSet::both_set))]
    pub fn set_length(&self, writer: &mut CodeWriter) -> Result<(), NoMemory>
        ensures { OnOk result (Emits (set_both self.now) writer.old writer.new) }
    {
        set_length(self.map, writer)?;
        self.measure(writer)
    }

    /// Sets both anew behind the call of an import: the global where there is a memory.
    #[tactic(auto, using(crate::proofs::LengthSet::both_renewed))]
    pub fn renew(&self, writer: &mut CodeWriter) -> Result<(), NoMemory>
        ensures { OnOk result (Emits (renew_both self.now) writer.old writer.new) }
    {
        renew(self.map, writer)?;
        self.measure(writer)
    }

    /// Hands the value on the stack over.
    pub fn hand_value(&self, writer: &mut CodeWriter, t: ValType) -> Result<(), NoMemory>
        ensures { OnOk result (Emits (hand_value self.now t) writer.old writer.new) }
    {
        writer.call(self.map.value_import(t))
    }
}
