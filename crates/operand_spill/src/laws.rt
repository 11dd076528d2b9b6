//! Laws of the added locals.

ghost use Rattle.std.specs.Prelude.{◌≡◌, ◌+◌, ◌*◌, ◌<◌, ◌≤◌, length};
ghost use Rattle.operand_spill.specs.calls.Plans.{Planned, AddedLocal, IsAdded, number};

/// No two of the added locals are one, and none is one of the function's own: they stand behind
/// those, and take up all the numbers from there on that are counted.
pub fn slots_are_apart()
    ensures distinct { (plan : Planned) (a b : AddedLocal) → IsAdded plan a → IsAdded plan b
        → number plan a ≡ number plan b → a ≡ b }
    ensures behind { (plan : Planned) (a : AddedLocal) → IsAdded plan a
        → length plan.locals ≤ number plan a }
    ensures counted { (plan : Planned) (a : AddedLocal) → IsAdded plan a
        → number plan a < length plan.locals + (2 * plan.slots + 5) }
{}
