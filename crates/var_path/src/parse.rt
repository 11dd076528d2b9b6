//! Reading paths.

ghost use Rattle.std.specs.Prelude.{ℕ, ◌≡◌, ◌∷◌, [], ◌++◌, ◌↔◌, Some, reverse, IfOk, OnOk, MatchOption};
ghost use Rattle.var_path.specs.declared.path.Path.{Path as AnyPath};
ghost use Rattle.var_path.specs.Language.{SpellsPath};
ghost use Rattle.var_path.specs.Reading as reading;

use crate::one_step::{begins_name, one_step};
use crate::path::{Path, Step, Steps};
use crate::span::{Front, NameByte, span};
use causes::NoMemory;
use std::alloc::Global;
use wasm_bytes::Run;

/// Appends the steps of the innermost stars that are open.
#[tactic(auto, using(crate::proofs::Open::star_derefs, crate::proofs::Open::star_behind, crate::proofs::Open::other_derefs, crate::proofs::Open::other_behind))]
fn push_derefs<'f, 't>(front: &'f [u8], steps: &mut Steps<'t>) -> Result<&'f [u8], NoMemory>
    ensures steps { OnOk result (steps.new ≡ steps.old ++ reading.derefs (reverse front.now)) }
    ensures unclosed { IfOk result (λ unclosed.
        reverse unclosed.now ≡ reading.behind_stars (reverse front.now)) }
{
    let mut unclosed = front;
    'stars: while let [outer @ .., b'*'] = unclosed {
        steps.push(Step::Deref)?;
        unclosed = outer;
    }
    Ok(unclosed)
}

/// The first byte of a text, and what stands behind it.
fn split_first(text: &[u8]) -> Option<(u8, &[u8])>
    ensures { MatchOption result (text.now ≡ []) (λ x. text.now ≡ x.0 ∷ x.1.now) }
{
    match text {
        [first, behind @ ..] => Some((*first, behind)),
        [] => None,
    }
}

/// What is open without the innermost, if there is one.
#[tactic(auto, using(crate::proofs::Open::last_apart))]
fn without_innermost(unclosed: &[u8]) -> Option<&[u8]>
    ensures { MatchOption result (reverse unclosed.now ≡ [])
        (λ outer. (b : ℕ) × (reverse unclosed.now ≡ b ∷ reverse outer.now)) }
{
    match unclosed {
        [outer @ .., _] => Some(outer),
        [] => None,
    }
}

/// A closing parenthesis: appends the steps of the stars behind the innermost opening one, and
/// gives what is open around that.
fn close<'f, 't>(unclosed: &'f [u8], steps: &mut Steps<'t>) -> Result<Option<&'f [u8]>, NoMemory>
    ensures steps { OnOk result (steps.new ≡ steps.old ++ reading.derefs (reverse unclosed.now)) }
    ensures outer { IfOk result (λ o. MatchOption o
        (reading.behind_stars (reverse unclosed.now) ≡ [])
        (λ outer. (b : ℕ)
        × (reading.behind_stars (reverse unclosed.now) ≡ b ∷ reverse outer.now))) }
{
    let inner = push_derefs(unclosed, steps)?;
    Ok(without_innermost(inner))
}

/// The steps and closing parentheses behind a name. In front of it these stars and parentheses were
/// opened.
fn steps_behind<'t>(
    alloc: Global,
    front: &[u8],
    text: &'t [u8],
) -> Result<Option<Steps<'t>>, NoMemory>
    ensures { IfOk result (λ steps. steps ≡ reading.steps_behind (reverse front.now) text.now) }
{
    let mut steps = Steps::new(alloc);
    let mut unclosed = front;
    let mut left = text;
    'steps: while let Some((first, behind)) = split_first(left) {
        if first == b')' {
            let outer = close(unclosed, &mut steps)?;
            let Some(outer) = outer else {
                return Ok(None);
            };
            unclosed = outer;
            left = behind;
        } else {
            let Some(read) = one_step(first, behind) else {
                return Ok(None);
            };
            left = read.behind.as_slice();
            steps.push(read.step)?;
        }
    }
    let unclosed = push_derefs(unclosed, &mut steps)?;
    if unclosed.is_empty() {
        Ok(Some(steps))
    } else {
        Ok(None)
    }
}

/// The path that is read.
#[tactic(auto, unfolding(crate::specs::Reading::read_path))]
fn read_path<'t>(alloc: Global, text: &'t str) -> Result<Option<Path<'t>>, NoMemory>
    ensures { IfOk result (λ p. p ≡ reading.read_path text.now) }
{
    let (front, rest) = span::<Front>(text.as_bytes());
    if !begins_name(rest) {
        return Ok(None);
    }
    let (name, behind) = span::<NameByte>(rest);
    let steps = steps_behind(alloc, front, behind)?;
    match steps {
        Some(steps) => Ok(Some(Path {
            name: Run::new(name),
            steps,
        })),
        None => Ok(None),
    }
}

/// The path that a text spells, or None where it is no path. Memory is taken for the list of its
/// steps.
pub fn parse_path<'t>(alloc: Global, text: &'t str) -> Result<Option<Path<'t>>, NoMemory>
    ensures read { IfOk result (λ p. p ≡ reading.read_path text.now) }
    ensures spelled { IfOk result (λ p. (q : AnyPath) → (p ≡ Some q) ↔ SpellsPath q text.now) }
{
    let path = read_path(alloc, text)?;
    Ok(path)
}
