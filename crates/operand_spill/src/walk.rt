//! What is known at an instruction of a body: where the operands are, and which blocks are open.

ghost use Rattle.std.specs.Prelude.{◌≡◌, suc, ◌∷◌, [], List, length, option_map, IfOk, OnOk, MatchOption};
ghost use Rattle.rewrite_bodies.specs.calls.Slots.{Ctx, less, pushed, grown, result_place, freed, after_plain};
ghost use Rattle.wasm_syntax.specs.Effect.{takes};
ghost use Rattle.rewrite_code.specs.calls.Places.{place};
ghost use Rattle.operand_spill.specs.declared.labels.Label.TheVariants.{Body as BodyOf};
ghost use Rattle.operand_spill.specs.declared.labels.OpenBlock.{OpenBlock as OpenBlockOf};
ghost use Rattle.operand_spill.specs.calls.Walking.{with_places, at_start, opening, alternating, closing};

use crate::labels::{Label, OpenBlock};
use causes::NoMemory;
use rewrite_code::{OperandPlace, OperandPlaces};
use std::alloc::Global;
use std::marker::Model;
use wasm_syntax::{Basic, ValType};

/// The places of the operands and the open blocks at a live instruction of a body, which contracts
/// see with the topmost operand and the innermost block first. The outermost block is the body
/// itself.
#[derive(Drop)]
pub struct Walk {
    alloc: Global,
    gives: Option<ValType>,
    places: OperandPlaces,
    opens: Vec<OpenBlock>,
}

impl Model for Walk {
    ghost use Rattle.std.specs.Prelude.{reverse};
    ghost use Rattle.operand_spill.specs.calls.Walking.{Walking, walking};

    ghost Value = { Walking };

    ghost view = { λ s. walking s.gives s.places (reverse s.opens.items) };
}

/// A copy of places.
pub fn copy_of(alloc: Global, places: &OperandPlaces) -> Result<OperandPlaces, NoMemory>
    ensures { IfOk result (λ copy. copy ≡ places.now) }
{
    let mut copy = OperandPlaces::new(alloc);
    let operands = places.as_slice();
    for operand in operands {
        copy.push(*operand)?;
    }
    Ok(copy)
}

impl Walk {
    /// Before the first instruction of a body that gives this, which takes no memory.
    pub fn new(alloc: Global, gives: Option<ValType>) -> Self
        ensures { result ≡ at_start gives }
    {
        Walk {
            alloc,
            gives,
            places: OperandPlaces::new(alloc),
            opens: Vec::new(alloc),
        }
    }

    /// Where the operands are.
    pub fn places(&self) -> &OperandPlaces
        ensures { result.now ≡ self.now.places }
    {
        &self.places
    }

    /// How many labels are open, that of the body among them.
    pub fn depth(&self) -> usize
        ensures { result ≡ suc (length self.now.opens) }
    {
        self.opens.len() + 1
    }

    /// The innermost open label.
    pub fn innermost(&self) -> Label
        ensures block { (block : OpenBlockOf) (others : List OpenBlockOf)
            → self.now.opens ≡ block ∷ others → result ≡ block.label }
        ensures body { self.now.opens ≡ [] → result ≡ BodyOf self.now.gives }
    {
        match self.opens.as_slice().last() {
            Some(block) => block.label,
            None => Label::Body(self.gives),
        }
    }

    /// How many operands lie below the innermost open block.
    pub fn below(&self) -> usize
        ensures { (block : OpenBlockOf) (others : List OpenBlockOf)
            → self.now.opens ≡ block ∷ others → result ≡ length block.saved }
    {
        match self.opens.as_slice().last() {
            Some(block) => block.saved.len(),
            None => 0,
        }
    }

    /// The topmost operand is taken, if there is one.
    pub fn pop(&mut self) -> Option<OperandPlace>
        ensures { MatchOption result ((self.old.places ≡ []) × (self.new ≡ self.old))
            (λ p. self.old ≡ with_places self.new (place p ∷ self.new.places)) }
    {
        self.places.pop()
    }

    // So many topmost operands are taken.
    fn discard(&mut self, taken: usize)
        ensures { self.new ≡ with_places self.old (less taken self.old.places) }
    {
        self.places.discard(taken);
    }

    // Operands that are copies of the local that an instruction writes go to their slots.
    fn free(&mut self, instruction: Basic)
        ensures { self.new ≡ with_places self.old (freed instruction self.old.places) }
    {
        match instruction {
            Basic::LocalSet(local) => self.places.uncopy(Some(local)),
            Basic::LocalTee(local) => self.places.uncopy(Some(local)),
            _ => {}
        }
    }

    // What an instruction gives is the topmost operand, if it gives something.
    fn push_given(&mut self, gives: Option<OperandPlace>) -> Result<(), NoMemory>
        ensures { OnOk result (self.new
            ≡ with_places self.old (pushed (option_map place gives) self.old.places)) }
    {
        match gives {
            Some(operand) => self.places.push(operand),
            None => Ok(()),
        }
    }

    /// A basic instruction, which takes so many operands and gives this.
    #[tactic(auto, using(crate::proofs::Performing::performed))]
    pub fn perform_basic(
        &mut self,
        instruction: Basic,
        taken: usize,
        gives: Option<OperandPlace>,
    ) -> Result<(), NoMemory>
        ensures { (C : Ctx) → takes instruction ≡ taken
            → option_map place gives ≡ result_place C self.old.places instruction
            → OnOk result (self.new
            ≡ with_places self.old (after_plain C self.old.places instruction)) }
    {
        self.discard(taken);
        self.free(instruction);
        self.push_given(gives)
    }

    /// Another instruction behind which the next one is run: it takes so many operands and gives
    /// this.
    pub fn perform(&mut self, taken: usize, gives: Option<ValType>) -> Result<(), NoMemory>
        ensures { OnOk result (self.new
            ≡ with_places self.old (grown gives (less taken self.old.places))) }
    {
        self.places.discard(taken);
        self.places.grow(gives)
    }

    /// The beginning of a block. What lies below it is kept until its end, and holds no copies.
    pub fn open(&mut self, label: Label) -> Result<(), NoMemory>
        ensures { OnOk result (self.new ≡ opening label self.old) }
    {
        self.places.uncopy(None);
        let saved = copy_of(self.alloc, &self.places)?;
        self.opens.push(OpenBlock { label, saved })?;
        Ok(())
    }

    /// `else`: the operands are those from before the first arm.
    pub fn alternate(&mut self) -> Result<(), NoMemory>
        ensures { OnOk result (self.new ≡ alternating self.old) }
    {
        if let Some(innermost) = self.opens.as_slice().last() {
            self.places = copy_of(self.alloc, &innermost.saved)?;
        }
        Ok(())
    }

    /// `end`: the operands are those from before the block, and what it gives.
    pub fn close(&mut self) -> Result<(), NoMemory>
        ensures { OnOk result (self.new ≡ closing self.old) }
    {
        if let Some(OpenBlock { label, saved }) = self.opens.pop() {
            self.places = saved;
            self.places.grow(label.end_gives())
        } else {
            Ok(())
        }
    }
}
