//! What is known of an expression between two operators, and what the next one makes of it.

ghost use Rattle.std.specs.Prelude.{◌≡◌, ◌<◌, [], length};
ghost use Rattle.dwarf_expr.specs.Meaning.{begun_step, added};
ghost use Rattle.dwarf_expr.specs.Meaning as meaning;
ghost use Rattle.dwarf_expr.specs.inner.Steps as steps;
ghost use Rattle.dwarf_expr.specs.inner.Steps.{Leaves, part_behind, given_by, piece_given_by, stepped, closed};
ghost use Rattle.dwarf_expr.specs.inner.Steps.{advanced, completed};

use crate::answer::{Base, Eval, Piece, PieceList, PiecePlace};
use crate::effects::{Event, apply};
use crate::operators::{Begun, Operator, PlacedOperator};
use crate::stack::Stack;
use crate::view::FrameView;
use int_ops::wrap;

/// What the operators of a part so far give (DWARF 4 section 2.6.1).
#[derive(Clone, Copy, PartialEq, Eq)]
pub(crate) enum Part {
    /// There are none.
    Empty,
    /// A value: the last one is stack_value, or the only one is a WebAssembly location.
    Value,
    /// An address.
    Address,
}

impl Part {
    /// Behind one more operator.
    fn behind(self, opcode: u8) -> Part
        ensures { result ≡ part_behind self opcode }
    {
        if opcode == 0x9f || (self == Part::Empty && opcode == 0xed) {
            Part::Value
        } else {
            Part::Address
        }
    }
}

/// Where the event stands.
fn event_at(at: u32, event: Event) -> Eval
    ensures { result ≡ meaning.event_at at event }
{
    match event {
        Event::Bad => Eval::BadExpr { at },
        Event::Missing => Eval::Missing,
        Event::Outside(address) => Eval::Outside(address),
        Event::TooDeep => Eval::TooDeep,
    }
}

/// The operator stands where it may. `is_last`: it is the last one of its part.
fn stands_well(operator: &Operator, is_last: bool) -> bool
    ensures { result ≡ meaning.stands_well operator.now is_last }
{
    match operator {
        Operator::StackValue => is_last,
        _ => true,
    }
}

/// Applies what an opcode begins. `is_last`: it is the last one of its part.
fn step(
    stack: &mut Stack,
    placed: &PlacedOperator,
    is_last: bool,
    view: &FrameView<'_>,
    base: Base,
) -> Result<(), Eval>
    ensures { Leaves result stack.new
        (begun_step view.now base placed.now.at placed.now.opcode placed.now.begun is_last
        stack.old) }
{
    let at = placed.at;
    match placed.begun {
        Begun::Known(operator) => {
            if !stands_well(&operator, is_last) {
                return Err(Eval::BadExpr { at });
            }
            match apply(operator, stack, view, base) {
                Ok(()) => Ok(()),
                Err(event) => Err(event_at(at, event)),
            }
        }
        Begun::Cut => Err(Eval::BadExpr { at }),
        Begun::Foreign => Err(Eval::Unsupported {
            op: placed.opcode,
            at,
        }),
    }
}

/// What a part gives that leaves these entries.
fn given(at: u32, part: Part, stack: &mut Stack) -> Result<PiecePlace, Eval>
    ensures { result ≡ given_by at part stack.old }
{
    match stack.pop() {
        Err(_) => Err(Eval::BadExpr { at }),
        Ok(word) => {
            if part == Part::Value {
                Ok(PiecePlace::Value(word))
            } else {
                Ok(PiecePlace::Address(wrap(word)))
            }
        }
    }
}

/// What a part gives its piece.
fn piece_given(at: u32, part: Part, stack: &mut Stack) -> Result<PiecePlace, Eval>
    ensures { result ≡ piece_given_by at part stack.old }
{
    if part == Part::Empty {
        Ok(PiecePlace::Nothing)
    } else {
        given(at, part, stack)
    }
}

/// Between two operators.
#[derive(Drop)]
pub(crate) struct Progress {
    pieces: PieceList,
    part: Part,
    stack: Stack,
}

impl Progress {
    pub(crate) fn new() -> Self
        ensures { result ≡ steps.progress [] Part.Empty [] }
    {
        Progress {
            pieces: PieceList::new(),
            part: Part::Empty,
            stack: Stack::new(),
        }
    }

    /// Behind an operator that is no piece.
    #[tactic(auto, unfolding(crate::specs::inner::Steps::stepped))]
    fn apply(
        &mut self,
        placed: &PlacedOperator,
        is_last: bool,
        view: &FrameView<'_>,
        base: Base,
    ) -> Result<(), Eval>
        ensures { Leaves result self.new (stepped view.now base placed.now is_last self.old) }
    {
        step(&mut self.stack, placed, is_last, view, base)?;
        self.part = self.part.behind(placed.opcode);
        Ok(())
    }

    /// Behind a piece.
    #[tactic(auto, unfolding(crate::specs::inner::Steps::closed))]
    fn close(&mut self, placed: &PlacedOperator) -> Result<(), Eval>
        ensures { Leaves result self.new (closed placed.now self.old) }
    {
        let at = placed.at;
        let place = piece_given(at, self.part, &mut self.stack)?;
        let Begun::Known(Operator::Piece(size)) = placed.begun else {
            return Err(Eval::BadExpr { at });
        };
        self.pieces.add(placed, Piece { size, place })?;
        self.part = Part::Empty;
        self.stack.clear();
        Ok(())
    }

    /// Behind one more operator. `is_last`: no more operators of its part stand behind it.
    #[tactic(auto, unfolding(crate::specs::inner::Steps::advanced))]
    pub(crate) fn advance(
        &mut self,
        placed: &PlacedOperator,
        is_last: bool,
        view: &FrameView<'_>,
        base: Base,
    ) -> Result<(), Eval>
        ensures { Leaves result self.new (advanced view.now base placed.now is_last self.old) }
    {
        if placed.opcode == 0x93 {
            self.close(placed)
        } else {
            self.apply(placed, is_last, view, base)
        }
    }

    /// At the end of the expression, which is that offset.
    #[tactic(auto, unfolding(crate::specs::inner::Steps::completed))]
    pub(crate) fn complete(self, end: u32) -> Result<Eval, Eval>
        ensures { result ≡ completed end self.pieces self.part self.stack }
    {
        let mut stack = self.stack;
        if self.pieces.is_empty() {
            return match given(end, self.part, &mut stack)? {
                PiecePlace::Value(word) => Ok(Eval::Value(word)),
                PiecePlace::Address(address) => Ok(Eval::Address(address)),
                PiecePlace::Nothing => Ok(Eval::Empty),
            };
        }
        if self.part == Part::Empty {
            Ok(Eval::Pieces(self.pieces))
        } else {
            Err(Eval::BadExpr { at: end })
        }
    }
}
