//! Marks in the place of values.

ghost use Rattle.std.specs.Prelude.{◌≡◌};
ghost use Rattle.var_values.specs.Marks as marks;

/// Why a value has no text, in the order in which the causes count.
#[derive(Clone, Copy, Debug, PartialEq, Eq)]
pub enum Mark {
    TypeTooDeep,
    UnsupportedType,
    OptimisedOut,
    NotRecorded,
    OutsideMemory,
    UnsupportedExpression,
    BadExpression,
    ExpressionTooDeep,
    OutsideArray,
}

/// The place of a mark in the order.
fn rank(mark: Mark) -> u32
    ensures { result ≡ marks.rank mark }
{
    match mark {
        Mark::TypeTooDeep => 0,
        Mark::UnsupportedType => 1,
        Mark::OptimisedOut => 2,
        Mark::NotRecorded => 3,
        Mark::OutsideMemory => 4,
        Mark::UnsupportedExpression => 5,
        Mark::BadExpression => 6,
        Mark::ExpressionTooDeep => 7,
        Mark::OutsideArray => 8,
    }
}

/// The one of two marks that counts.
pub fn first_mark(a: Mark, b: Mark) -> Mark
    ensures { result ≡ marks.first_mark a b }
{
    if rank(a) <= rank(b) { a } else { b }
}

impl Mark {
    /// The text in the place of a value.
    #[tactic(auto, unfolding(crate::specs::Marks::mark_text))]
    pub fn text(self) -> &'static str
        ensures { result.now ≡ marks.mark_text self }
    {
        match self {
            Mark::TypeTooDeep => "<type too deep>",
            Mark::UnsupportedType => "<unsupported type>",
            Mark::OptimisedOut => "<optimised out>",
            Mark::NotRecorded => "<not recorded>",
            Mark::OutsideMemory => "<outside memory>",
            Mark::UnsupportedExpression => "<unsupported expression>",
            Mark::BadExpression => "<bad expression>",
            Mark::ExpressionTooDeep => "<expression too deep>",
            Mark::OutsideArray => "<outside array>",
        }
    }
}
