//! One step of a path.

ghost use Rattle.std.specs.Prelude.{◌≡◌, ◌≤◌, IfSome};
ghost use Rattle.var_path.specs.Words as words;
ghost use Rattle.var_path.specs.Reading as reading;

use crate::path::{Step, StepRead};
use crate::span::{Bracketed, NameByte, is_letter, span};
use pm_text::read_decimal;
use std::str;
use wasm_bytes::Run;

const GREATEST_INDEX: u64 = 2_147_483_647;

pub fn begins_name(text: &[u8]) -> bool
    ensures { result ≡ reading.begins_name text.now }
{
    match text {
        [first, ..] => is_letter(*first),
        [] => false,
    }
}

/// The number that decimal digits write, up to the greatest index.
#[tactic(auto, using(crate::proofs::Digits::no_digits))]
fn index_value(digits: &[u8]) -> Option<u32>
    ensures { result ≡ words.index_value digits.now }
{
    match str::from_utf8(digits) {
        Ok(digits) => {
            let index = read_decimal(digits)?;
            if index <= GREATEST_INDEX {
                Some(index as u32)
            } else {
                None
            }
        }
        Err(_) => None,
    }
}

fn member(text: &[u8]) -> Option<StepRead<'_>>
    ensures { result ≡ reading.member_step text.now }
{
    if !begins_name(text) {
        return None;
    }
    let (name, behind) = span::<NameByte>(text);
    Some(StepRead {
        step: Step::Member(Run::new(name)),
        behind: Run::new(behind),
    })
}

fn arrow(text: &[u8]) -> Option<StepRead<'_>>
    ensures { result ≡ reading.arrow_step text.now }
{
    let [b'>', text @ ..] = text else {
        return None;
    };
    if !begins_name(text) {
        return None;
    }
    let (name, behind) = span::<NameByte>(text);
    Some(StepRead {
        step: Step::Arrow(Run::new(name)),
        behind: Run::new(behind),
    })
}

fn index(text: &[u8]) -> Option<StepRead<'_>>
    ensures { result ≡ reading.index_step text.now }
{
    let (digits, behind) = span::<Bracketed>(text);
    let [_, behind @ ..] = behind else {
        return None;
    };
    let index = index_value(digits)?;
    Some(StepRead {
        step: Step::Index(index),
        behind: Run::new(behind),
    })
}

/// The step that a byte and the text behind it begin with.
#[tactic(auto, unfolding(crate::specs::Reading::one_step))]
pub fn one_step(first: u8, text: &[u8]) -> Option<StepRead<'_>>
    ensures { result ≡ reading.one_step first text.now }
{
    match first {
        b'.' => member(text),
        b'-' => arrow(text),
        b'[' => index(text),
        _ => None,
    }
}
