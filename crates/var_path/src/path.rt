//! Paths and their steps.

use pm_text::Items;
use wasm_bytes::Run;

/// A step from a value to another one. Names are borrowed from the text.
#[derive(Drop)]
pub enum Step<'t> {
    /// `.name`
    Member(Run<'t>),
    /// `->name`
    Arrow(Run<'t>),
    /// `[n]`
    Index(u32),
    /// `*`
    Deref,
}

pub type Steps<'t> = Items<Step<'t>>;

/// A variable and the steps from it, in the order in which they are taken.
#[derive(Drop)]
pub struct Path<'t> {
    pub name: Run<'t>,
    pub steps: Steps<'t>,
}

/// A step, and what stands behind it in the text.
#[derive(Drop)]
pub struct StepRead<'t> {
    pub step: Step<'t>,
    pub behind: Run<'t>,
}
