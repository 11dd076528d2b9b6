//! What the header of a line program says to its opcodes.

ghost use Rattle.std.specs.Prelude.{◌≡◌, ◌≢◌, true, ◌+◌, ◌-◌, ◌*◌, ℤ, pos, ◌+ℤ◌, ◌∷◌, [], slice_index_or};
ghost use Rattle.std.specs.Prelude.{if◌then◌else◌};
ghost use Rattle.std.specs.Prelude.{OnOk};
ghost use Rattle.wasm_bytes.specs.Place.{Moves};
ghost use Rattle.wasm_bytes.specs.calls.Answers.{Reads};
ghost use Rattle.dwarf_bytes.specs.Format.{read};
ghost use Rattle.dwarf_line.specs.Parameters.{parameters, ranges};
ghost use Rattle.dwarf_line.specs.Rows.{low, address_advance, line_advance};

use dwarf_bytes::byte;
use std::marker::Model;
use wasm_bytes::{Malformed, Reader, Run};

/// What the opcodes need of a header.
#[derive(Drop)]
pub struct Parameters<'a> {
    minimum_instruction_length: u8,
    line_base: i8,
    line_range: u8,
    opcode_base: u8,
    opcode_lengths: Run<'a>,
}

impl<'a> Model for Parameters<'a> {
    ghost use Rattle.std.specs.Prelude.{◌≢◌};
    ghost use Rattle.dwarf_line.specs.Parameters as parts;

    ghost Value = { parts.Parameters };

    ghost view = { λ h. record {
      minimum_instruction_length = h.minimum_instruction_length;
      line_base = h.line_base;
      line_range = h.line_range;
      opcode_base = h.opcode_base;
      opcode_lengths = h.opcode_lengths;
    } };

    ghost invariant = { λ h. h.line_range ≢ 0 };
}

impl<'a> Parameters<'a> {
    /// Those of no program.
    pub(crate) fn unused() -> Self {
        Parameters {
            minimum_instruction_length: 0,
            line_base: 0,
            line_range: 1,
            opcode_base: 1,
            opcode_lengths: Run::new(&[]),
        }
    }

    /// Each opcode says the same by both.
    pub(crate) fn is_same(&self, other: &Parameters<'_>) -> bool
        ensures { result ≡ true → self.now ≡ other.now }
    {
        self.minimum_instruction_length == other.minimum_instruction_length
            && self.line_base == other.line_base
            && self.line_range == other.line_range
            && self.opcode_base == other.opcode_base
            && self.opcode_lengths.as_slice() == other.opcode_lengths.as_slice()
    }

    /// The first special opcode.
    pub fn opcode_base(&self) -> u8
        ensures { result ≡ self.now.opcode_base }
    {
        self.opcode_base
    }

    /// How many operands a standard opcode has by the header, or 0 where the header does not say
    /// it.
    pub fn operand_count(&self, opcode: u8) -> u8
        ensures { result ≡ slice_index_or self.now.opcode_lengths (opcode - 1) 0 }
    {
        let index = usize::from(opcode.saturating_sub(1));
        match self.opcode_lengths.as_slice().get(index) {
            Some(count) => *count,
            None => 0,
        }
    }

    /// So many instructions in bytes, modulo 2^32.
    #[tactic(auto, using(crate::proofs::Numbers::low_product))]
    pub fn length_of(&self, count: u64) -> u32
        ensures { result ≡ low (self.now.minimum_instruction_length * count) }
    {
        let low = count % 0x1_0000_0000;
        (u64::from(self.minimum_instruction_length) * low % 0x1_0000_0000) as u32
    }

    /// By how much a special opcode, counted from the first, advances the address (DWARF 4 section
    /// 6.2.5.1).
    pub fn address_advance(&self, special: u8) -> u32
        ensures { result ≡ address_advance self.now special }
    {
        u32::from(self.minimum_instruction_length) * u32::from(special / self.line_range)
    }

    /// By how much a special opcode, counted from the first, advances the line (DWARF 4 section
    /// 6.2.5.1).
    pub fn line_advance(&self, special: u8) -> i64
        ensures { result ≡ line_advance self.now special }
    {
        i64::from(self.line_base) + i64::from(special % self.line_range)
    }
}

/// From the base of lines up to the lengths of the opcodes (DWARF 4 section 6.2.4, items 7 to 10).
#[tactic(auto, unfolding(dwarf_bytes::specs::Format::read))]
fn read_ranges<'a>(
    minimum_instruction_length: u8,
    reader: &mut Reader<'a>,
) -> Result<Parameters<'a>, Malformed>
    ensures item { Reads result reader.new (read (ranges minimum_instruction_length) reader.old) }
    ensures moves { OnOk result (Moves reader.old reader.new) }
{
    let line_base = byte(reader)?.cast_signed();
    let line_range = byte(reader)?;
    let opcode_base = byte(reader)?;
    if line_range == 0 || opcode_base == 0 {
        return Err(Malformed { at: reader.at() });
    }
    let opcode_lengths = Run::new(reader.run(usize::from(opcode_base - 1))?);
    Ok(Parameters {
        minimum_instruction_length,
        line_base,
        line_range,
        opcode_base,
        opcode_lengths,
    })
}

/// From the minimum length of an instruction up to the lengths of the opcodes (DWARF 4 section
/// 6.2.4, items 4 to 10), with or without the number of operations of an instruction, which is 1.
#[tactic(auto, unfolding(dwarf_bytes::specs::Format::read))]
pub fn read_parameters<'a>(
    has_operations: bool,
    reader: &mut Reader<'a>,
) -> Result<Parameters<'a>, Malformed>
    ensures item { Reads result reader.new
        (read (parameters (if has_operations then 1 ∷ [] else [])) reader.old) }
    ensures moves { OnOk result (Moves reader.old reader.new) }
{
    let minimum_instruction_length = byte(reader)?;
    if has_operations && byte(reader)? != 1 {
        return Err(Malformed { at: reader.at() });
    }
    let _default_is_stmt = byte(reader)?;
    read_ranges(minimum_instruction_length, reader)
}
