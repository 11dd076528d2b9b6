//! A section of texts, in which the end of a text is found by halving.

ghost use Rattle.std.specs.Prelude.{◌≡◌, nat_le, find, slice_get, IfOk};
ghost use Rattle.std.specs.List.Sorted.{IsNonDecreasing};
ghost use Rattle.dwarf_bytes.specs.Items.{text_item, read_at};
ghost use Rattle.dwarf_info.specs.inner.Zeros.{zeros_from};

use causes::NoMemory;
use std::alloc::Global;
use std::marker::Model;
use wasm_bytes::Run;

/// A section of texts, which contracts see as its bytes.
#[derive(Drop)]
pub struct Texts<'a> {
    section: &'a [u8],
    // The offsets of its zero bytes, in order.
    zeros: Vec<usize>,
}

impl<'a> Model for Texts<'a> {
    ghost use Rattle.std.specs.Prelude.{◌≡◌, ℕ, List};
    ghost use Rattle.dwarf_info.specs.inner.Zeros.{zeros_from};

    ghost Value = { List ℕ };

    ghost view = { λ t. t.section.now };

    ghost invariant = { λ t. t.zeros.items ≡ zeros_from 0 t.section.now };
}

/// The offsets of the zero bytes of a section.
fn zeros_of(alloc: Global, section: &[u8]) -> Result<Vec<usize>, NoMemory>
    ensures { IfOk result (λ zeros. zeros.items ≡ zeros_from 0 section.now) }
{
    let mut zeros = Vec::new(alloc);
    'bytes: for (at, byte) in section.iter().enumerate() {
        if *byte == 0 {
            zeros.push(at)?;
        }
    }
    Ok(zeros)
}

fn offset_at(offsets: &[usize], index: usize) -> Option<usize>
    ensures { result ≡ slice_get offsets.now index }
{
    offsets.get(index).copied()
}

/// The first of ascending offsets that is not below one.
fn first_from(offsets: &[usize], at: u64) -> Option<usize>
    requires { IsNonDecreasing offsets.now }
    ensures { result ≡ find (nat_le at) offsets.now }
{
    let count = offsets.partition_point(|offset| (*offset as u64) < at);
    offset_at(offsets, count)
}

/// The text at an offset of a section with these zero bytes, where one stands there.
fn text_by<'a>(section: &'a [u8], zeros: &[usize], at: u64) -> Option<Run<'a>>
    requires { zeros.now ≡ zeros_from 0 section.now }
    ensures { result ≡ read_at text_item section.now at }
{
    let end = first_from(zeros, at)?;
    Some(Run::new(&section[at as usize..end]))
}

impl<'a> Texts<'a> {
    /// The texts of a section. It takes linear time.
    pub fn new(alloc: Global, section: &'a [u8]) -> Result<Self, NoMemory>
        ensures { IfOk result (λ texts. texts ≡ section.now) }
    {
        let zeros = zeros_of(alloc, section)?;
        Ok(Texts { section, zeros })
    }

    /// The text at an offset, where one stands there. It takes logarithmic time.
    pub fn at(&self, at: u64) -> Option<Run<'a>>
        ensures { result ≡ read_at text_item self.now at }
    {
        text_by(self.section, self.zeros.as_slice(), at)
    }
}
