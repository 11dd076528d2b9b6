//! Bounds of the addresses that a line program holds.

ghost use Rattle.std.specs.Prelude.{◌≡◌, nat_le, if◌then◌else◌};
ghost use Rattle.dwarf_line.specs.calls.Hulls as definitions;
ghost use Rattle.dwarf_line.specs.inner.Outlines.{held_by};

use crate::rows::is_kept;

/// All addresses that a line program holds are from the first one up to but not including the
/// second.
#[derive(Clone, Copy)]
pub struct Hull {
    pub first: u32,
    pub end: u32,
}

fn lesser(a: u32, b: u32) -> u32
    ensures { result ≡ (if nat_le a b then a else b) }
{
    if a <= b { a } else { b }
}

fn greater(a: u32, b: u32) -> u32
    ensures { result ≡ (if nat_le a b then b else a) }
{
    if a <= b { b } else { a }
}

/// The bounds of no address.
pub(crate) fn no_hull() -> Hull
    ensures { result ≡ definitions.no_hull }
{
    Hull {
        first: 0xffff_ffff,
        end: 0,
    }
}

/// With the addresses from one up to but not including another.
pub(crate) fn widened(hull: Hull, held: Option<(u32, u32)>) -> Hull
    ensures { result ≡ definitions.widened hull held }
{
    match held {
        Some((first, end)) => Hull {
            first: lesser(hull.first, first),
            end: greater(hull.end, end),
        },
        None => hull,
    }
}

/// The addresses that a sequence holds whose first row has this one, if it has rows.
pub(crate) fn held_by(first: Option<u32>, end: u32) -> Option<(u32, u32)>
    ensures { result ≡ held_by first end }
{
    let first = first?;
    if is_kept(first) {
        Some((first, end))
    } else {
        None
    }
}

impl Hull {
    pub fn holds(&self, address: u32) -> bool
        ensures { result ≡ definitions.is_inside self.now address }
    {
        self.first <= address && address < self.end
    }
}
