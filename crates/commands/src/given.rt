//! A value, or what is answered in its place.

use crate::outcome::Outcome;

/// What a step of a command gives: a value, or the outcome that is answered in its place.
#[derive(Drop)]
pub enum Given<T> {
    Value(T),
    Refused(Outcome),
}
