//! Operands go to their slots, and from where they are to the stack.

ghost use Rattle.std.specs.Prelude.{◌≡◌, ◌+◌, ◌≤◌, List, length, option_map, OnOk};
ghost use Rattle.wasm_syntax.specs.declared.instruction.Basic.TheVariants.{LocalGet as LocalGetOf};
ghost use Rattle.wasm_syntax.specs.Tree.{basic};
ghost use Rattle.rewrite_bodies.specs.calls.Slots.{Place as PlaceOf, Spilled as SpilledOf, slot, less};
ghost use Rattle.rewrite_bodies.specs.calls.Pieces.{set, fetch, load, keep_slot, keep, store, reload};
ghost use Rattle.rewrite_bodies.specs.calls.Pieces.{spill_one, spill, drops};
ghost use Rattle.rewrite_code.specs.calls.Writing.{Emits};
ghost use Rattle.rewrite_code.specs.calls.Places.{place, these};

use crate::CodeWriter;
use crate::context::FunctionContext;
use crate::place::{OperandPlace, OperandPlaces, is_meant};
use causes::NoMemory;
use wasm_syntax::{Basic, ValType};

impl<'m, 'a> FunctionContext<'m, 'a> {
    /// The operand at a height is pushed once more.
    pub fn fetch(
        &self,
        writer: &mut CodeWriter,
        operand: OperandPlace,
        height: usize,
    ) -> Result<(), NoMemory>
        requires { height ≤ self.now.slots }
        ensures { OnOk result (Emits (fetch self.now (place operand) height) writer.old
            writer.new) }
    {
        match operand {
            OperandPlace::Spilled(t) => self.get(writer, self.slot_at(t, height)),
            OperandPlace::Known(value) => writer.const_value(value),
            OperandPlace::Copied(_, local) => writer.basic(Basic::LocalGet(local)),
        }
    }

    /// So many topmost operands are pushed, the lowest first, or all where there are not so many.
    pub fn load(
        &self,
        writer: &mut CodeWriter,
        count: usize,
        places: &OperandPlaces,
    ) -> Result<(), NoMemory>
        requires { length places.now ≤ self.now.slots }
        ensures { OnOk result (Emits (load self.now count places.now) writer.old writer.new) }
    {
        let operands = places.as_slice();
        let first = operands.len().saturating_sub(count);
        for height in first..operands.len() {
            self.fetch(writer, operands[height], height)?;
        }
        Ok(())
    }

    /// A result on the stack goes to its slot, over so many operands.
    pub fn store(
        &self,
        writer: &mut CodeWriter,
        gives: Option<ValType>,
        height: usize,
    ) -> Result<(), NoMemory>
        requires { height ≤ self.now.slots }
        ensures { (places : List PlaceOf) → length places ≡ height
            → OnOk result (Emits (store self.now gives places) writer.old writer.new) }
    {
        match gives {
            Some(t) => self.set(writer, self.slot_at(t, height)),
            None => Ok(()),
        }
    }

    /// A result that went to its slot is pushed.
    pub fn reload(
        &self,
        writer: &mut CodeWriter,
        gives: Option<ValType>,
        height: usize,
    ) -> Result<(), NoMemory>
        requires { height ≤ self.now.slots }
        ensures { (places : List PlaceOf) → length places ≡ height
            → OnOk result (Emits (reload self.now gives places) writer.old writer.new) }
    {
        match gives {
            Some(t) => self.get(writer, self.slot_at(t, height)),
            None => Ok(()),
        }
    }

    // A result on the stack is kept in its slot besides, unless it passes.
    fn keep_in_slot(
        &self,
        writer: &mut CodeWriter,
        passing: bool,
        t: ValType,
        height: usize,
    ) -> Result<(), NoMemory>
        requires { height ≤ self.now.slots }
        ensures { (places : List PlaceOf) → length places ≡ height
            → OnOk result (Emits (keep_slot passing self.now t places) writer.old writer.new) }
    {
        if passing {
            Ok(())
        } else {
            self.tee(writer, self.slot_at(t, height))
        }
    }

    /// A result on the stack is kept, over so many operands, where its value is in no other place,
    /// unless it passes: then it is taken before anything is handed over.
    pub fn keep(
        &self,
        writer: &mut CodeWriter,
        passing: bool,
        kept: Option<OperandPlace>,
        height: usize,
    ) -> Result<(), NoMemory>
        requires { height ≤ self.now.slots }
        ensures { (places : List PlaceOf) → length places ≡ height
            → OnOk result (Emits (keep passing self.now (option_map place kept) places)
            writer.old writer.new) }
    {
        match kept {
            Some(OperandPlace::Spilled(t)) => self.keep_in_slot(writer, passing, t, height),
            Some(OperandPlace::Known(_)) => Ok(()),
            Some(OperandPlace::Copied(_, _)) => Ok(()),
            None => Ok(()),
        }
    }

    /// The same of a result of this type, if there is one.
    pub fn keep_result(
        &self,
        writer: &mut CodeWriter,
        passing: bool,
        gives: Option<ValType>,
        height: usize,
    ) -> Result<(), NoMemory>
        requires { height ≤ self.now.slots }
        ensures { (places : List PlaceOf) → length places ≡ height
            → OnOk result (Emits (keep passing self.now (option_map SpilledOf gives) places)
            writer.old writer.new) }
    {
        match gives {
            Some(t) => self.keep_in_slot(writer, passing, t, height),
            None => Ok(()),
        }
    }

    // A local's value goes to the slot of a type at a height.
    fn copy_to_slot(
        &self,
        writer: &mut CodeWriter,
        t: ValType,
        local: u32,
        height: usize,
    ) -> Result<(), NoMemory>
        requires { height ≤ self.now.slots }
        ensures { OnOk result (Emits (λ k. basic 0 (LocalGetOf local)
            (set self.now (slot self.now.slots t height) k)) writer.old writer.new) }
    {
        writer.basic(Basic::LocalGet(local))?;
        self.set(writer, self.slot_at(t, height))
    }

    // An operand at a height goes to its slot where it is a copy of this local, or of any.
    fn spill_one(
        &self,
        writer: &mut CodeWriter,
        meant: Option<u32>,
        operand: OperandPlace,
        height: usize,
    ) -> Result<(), NoMemory>
        requires { height ≤ self.now.slots }
        ensures { OnOk result (Emits (spill_one self.now (these meant) (place operand) height)
            writer.old writer.new) }
    {
        match operand {
            OperandPlace::Copied(t, local) => {
                if is_meant(meant, local) {
                    self.copy_to_slot(writer, t, local, height)
                } else {
                    Ok(())
                }
            }
            OperandPlace::Spilled(_) | OperandPlace::Known(_) => Ok(()),
        }
    }

    /// The operands under so many that are copies of this local, or of any, go to their slots.
    pub fn spill(
        &self,
        writer: &mut CodeWriter,
        meant: Option<u32>,
        count: usize,
        places: &OperandPlaces,
    ) -> Result<(), NoMemory>
        requires { length places.now ≤ self.now.slots }
        ensures { OnOk result (Emits (spill self.now (these meant) (less count places.now))
            writer.old writer.new) }
    {
        let operands = places.as_slice();
        let under = operands.len().saturating_sub(count);
        for height in 0..under {
            self.spill_one(writer, meant, operands[height], height)?;
        }
        Ok(())
    }
}

/// So many operands are dropped.
pub fn drops(writer: &mut CodeWriter, count: usize) -> Result<(), NoMemory>
    ensures { OnOk result (Emits (drops count) writer.old writer.new) }
{
    for _i in 0..count {
        writer.basic(Basic::Drop)?;
    }
    Ok(())
}
