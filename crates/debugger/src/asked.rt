//! What is asked of what the bytes of a module say.

use std::marker::Model;
use var_path::Path;

/// A word, and the path that it spells.
#[derive(Drop)]
pub struct Spelled<'t> {
    pub word: &'t str,
    pub path: Path<'t>,
}

impl<'t> Model for Spelled<'t> {
    ghost use Rattle.debugger.specs.calls.Spelled.{Spelled};

    ghost Value = { Spelled };

    ghost view = { λ s. record { word = s.word.now; path = s.path } };
}

/// What is asked of what the bytes of a module say.
#[derive(Drop)]
pub enum Asked<'t> {
    /// The lines of each frame.
    Backtrace,
    /// The lines of the frame of this number.
    Frame { number: u64 },
    /// The variables that are visible in the chosen frame.
    Variables,
    /// What stands at a path in the chosen frame.
    Value(Spelled<'t>),
}
