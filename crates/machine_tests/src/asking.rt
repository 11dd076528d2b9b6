//! What is asked of modules. One function holds each of them, since they are large.

use crate::modules::valid;
use crate::{instance_tests, resume_tests, start_tests, watch_tests};
use std::alloc::Global;
use wasm_machine::StartFault;
use wasm_validate::Validated;

/// What is asked of a valid module.
#[derive(Drop)]
pub enum Question<'a> {
    /// Whether it starts, or is refused with this fault.
    Starts(Option<StartFault>),
    /// Whether an entry of it is judged so.
    Judges(&'a start_tests::Row<'a>),
    /// Whether a new instance of it keeps its invocation so.
    Keeps(&'a instance_tests::Row<'a>),
    /// Whether an invocation sets its only global.
    Sets,
    /// Whether an invocation that is run in two parts comes to this.
    Resumes(&'a resume_tests::Row<'a>),
    /// Whether the steps of an invocation are counted so.
    Counts(&'a watch_tests::Row<'a>),
}

fn is_so(alloc: Global, source: &Validated, question: &Question<'_>) -> bool {
    match question {
        Question::Starts(fault) => start_tests::starts(alloc, source, *fault),
        Question::Judges(row) => start_tests::judges(alloc, source, row),
        Question::Keeps(row) => instance_tests::keeps_of(alloc, source, row),
        Question::Sets => instance_tests::sets(alloc, source),
        Question::Resumes(row) => resume_tests::resumes(alloc, source, row),
        Question::Counts(row) => watch_tests::counts(alloc, source, row),
    }
}

/// Whether bytes are a valid module of which this is so.
pub fn holds(alloc: Global, bytes: &[u8], question: &Question<'_>) -> bool {
    match valid(alloc, bytes) {
        Some(source) => is_so(alloc, &source, question),
        None => false,
    }
}
