//! Sets of addresses, as spans that stand apart: whether an address is in one of them is found by
//! halving.

ghost use Rattle.std.specs.Prelude.{◌≡◌, ◌≤◌, [], IfOk};
ghost use Rattle.dwarf_scopes.specs.calls.Spans as definitions;

use causes::NoMemory;
use std::alloc::Global;
use std::marker::Model;

/// The addresses from the first to the last, which is in it.
#[derive(Clone, Copy)]
pub struct Span {
    pub first: u32,
    pub last: u32,
}

/// The addresses of spans. Contracts see the spans, which `covers` reads.
#[derive(Drop)]
pub struct Spans {
    // The last one first.
    spans: Vec<Span>,
}

impl Model for Spans {
    ghost use Rattle.std.specs.Prelude.{List};
    ghost use Rattle.dwarf_scopes.specs.declared.spans.Span.{Span};
    ghost use Rattle.dwarf_scopes.specs.calls.Spans.{Descend};

    ghost Value = { List Span };

    ghost view = { λ s. s.spans.items };

    ghost invariant = { λ s. Descend s.spans.items };
}

/// The spans of both, by where they end.
fn merged(alloc: Global, left: &[Span], right: &[Span]) -> Result<Vec<Span>, NoMemory>
    ensures { IfOk result (λ spans. spans.items ≡ definitions.merged left.now right.now) }
{
    let mut spans = Vec::new(alloc);
    let mut i = 0;
    let mut j = 0;
    'both: while i < left.len() && j < right.len() {
        let first = left[i];
        let second = right[j];
        if second.last <= first.last {
            spans.push(first)?;
            i += 1;
        } else {
            spans.push(second)?;
            j += 1;
        }
    }
    spans.extend_from_slice(&left[i..])?;
    spans.extend_from_slice(&right[j..])?;
    Ok(spans)
}

/// A span with one that ends in it or in front of it: both, and what is between.
fn widened(wide: Span, next: Span) -> Span
    ensures { result ≡ definitions.widened wide next }
{
    if next.first < wide.first {
        Span {
            first: next.first,
            last: wide.last,
        }
    } else {
        wide
    }
}

/// Spans by where they end, with those as one that have addresses in common.
fn apart(alloc: Global, spans: &[Span]) -> Result<Vec<Span>, NoMemory>
    ensures { IfOk result (λ out. out.items ≡ definitions.apart spans.now) }
{
    let mut out = Vec::new(alloc);
    let [first, behind @ ..] = spans else {
        return Ok(out);
    };
    let mut wide = *first;
    let mut left = behind;
    'spans: while let [next, more @ ..] = left {
        if next.last < wide.first {
            out.push(wide)?;
            wide = *next;
        } else {
            wide = widened(wide, *next);
        }
        left = more;
    }
    out.push(wide)?;
    Ok(out)
}

/// The spans of both, apart.
fn joined(alloc: Global, left: &[Span], right: &[Span]) -> Result<Vec<Span>, NoMemory>
    requires left { definitions.Descend left.now }
    requires right { definitions.Descend right.now }
    ensures { IfOk result (λ spans. definitions.AreJoined left.now right.now spans.items) }
{
    let both = merged(alloc, left, right)?;
    apart(alloc, both.as_slice())
}

/// Whether an address is in one of these, by halving.
fn is_in(address: u32, spans: &[Span]) -> bool
    requires { definitions.Descend spans.now }
    ensures { result ≡ definitions.covers spans.now address }
{
    let passed = spans.partition_point(|span| address < span.first);
    match spans.get(passed) {
        Some(span) => address <= span.last,
        None => false,
    }
}

impl Spans {
    /// No address.
    pub fn none(alloc: Global) -> Self
        ensures { result ≡ [] }
    {
        Spans {
            spans: Vec::new(alloc),
        }
    }

    /// The addresses of these and of a span.
    pub fn with(&self, alloc: Global, span: Span) -> Result<Self, NoMemory>
        requires { span.first ≤ span.last }
        ensures { IfOk result (definitions.Joins self.now (definitions.only span)) }
    {
        let spans = joined(alloc, self.spans.as_slice(), &[span])?;
        Ok(Spans { spans })
    }

    /// The addresses of these and of others.
    pub fn joined(&self, alloc: Global, other: &Spans) -> Result<Self, NoMemory>
        ensures { IfOk result (definitions.Joins self.now other.now) }
    {
        let spans = joined(alloc, self.spans.as_slice(), other.spans.as_slice())?;
        Ok(Spans { spans })
    }

    /// Whether an address is in one of them.
    pub fn holds(&self, address: u32) -> bool
        ensures { result ≡ definitions.covers self.now address }
    {
        is_in(address, self.spans.as_slice())
    }
}
