//! What the opcodes of a line program make (DWARF 4 sections 6.2.2 and 6.2.5).

ghost use Rattle.std.specs.Prelude.{◌≡◌, ◌+◌, ◌*◌, OnOk};
ghost use Rattle.dwarf_line.specs.Rows.{first_registers, with_address, with_line, appended};
ghost use Rattle.dwarf_line.specs.Rows.{ended, first_matrix, step};
ghost use Rattle.dwarf_line.specs.inner.Running.{running_step};

use crate::lines::{LineFiles, Row, Sequence};
use crate::opcodes::{Opcode, read_opcode};
use crate::parameters::Parameters;
use crate::rows::Rows;
use causes::NoMemory;
use pm_text::Items;
use std::alloc::Global;
use std::mem;
use wasm_bytes::{Gather, ItemFault, Reader};

impl Row {
    fn first() -> Row
        ensures { result ≡ first_registers }
    {
        Row {
            address: 0,
            file: 1,
            line: 1,
            column: 0,
        }
    }

    fn advance_address(&mut self, by: u32)
        ensures { self.new ≡ with_address by self.old }
    {
        self.address = self.address.wrapping_add(by);
    }

    fn advance_line(&mut self, by: i64)
        ensures { self.new ≡ with_line by self.old }
    {
        let line = u64::from(self.line).wrapping_add(by.cast_unsigned());
        self.line = (line % 0x1_0000_0000) as u32;
    }
}

/// What was made so far.
#[derive(Drop)]
pub struct Matrix<'a> {
    pub sequences: Items<Sequence>,
    /// The rows behind the last sequence.
    pub rows: Items<Row>,
    pub registers: Row,
    pub files: LineFiles<'a>,
}

impl<'a> Matrix<'a> {
    /// Nothing was made, and the header names these files.
    pub fn new(alloc: Global, files: LineFiles<'a>) -> Self
        ensures { result ≡ first_matrix files.entry }
    {
        Matrix {
            sequences: Items::new(alloc),
            rows: Items::new(alloc),
            registers: Row::first(),
            files,
        }
    }

    fn append(&mut self) -> Result<(), NoMemory>
        ensures { OnOk result (self.new ≡ appended self.old) }
    {
        self.rows.push(self.registers)
    }

    fn end(&mut self, alloc: Global) -> Result<(), NoMemory>
        ensures { OnOk result (self.new ≡ ended self.old) }
    {
        let rows = mem::replace(&mut self.rows, Items::new(alloc));
        let rows = Rows::new(alloc, rows)?;
        self.sequences.push(Sequence {
            rows,
            end: self.registers.address,
        })?;
        self.registers = Row::first();
        Ok(())
    }

    /// Does what an opcode says.
    #[tactic(auto, using(crate::proofs::Numbers::advanced_by_low), unfolding(crate::specs::Rows::step))]
    fn apply(
        &mut self,
        alloc: Global,
        parameters: &Parameters<'_>,
        opcode: Opcode<'a>,
    ) -> Result<(), NoMemory>
        ensures { OnOk result (self.new ≡ step parameters.now self.old opcode.entry) }
    {
        match opcode {
            Opcode::Special(n) => {
                self.registers
                    .advance_address(parameters.address_advance(n));
                self.registers.advance_line(parameters.line_advance(n));
                return self.append();
            }
            Opcode::Copy => return self.append(),
            Opcode::AdvancePc(n) => self.registers.advance_address(parameters.length_of(n)),
            Opcode::AdvanceLine(by) => self.registers.advance_line(by),
            Opcode::SetFile(n) => self.registers.file = (n % 0x1_0000_0000) as u32,
            Opcode::SetColumn(n) => self.registers.column = (n % 0x1_0000_0000) as u32,
            Opcode::ConstAddPc => {
                let special = 255 - parameters.opcode_base();
                self.registers
                    .advance_address(parameters.address_advance(special));
            }
            Opcode::FixedAdvancePc(n) => self.registers.advance_address(u32::from(n)),
            Opcode::EndSequence => return self.end(alloc),
            Opcode::SetAddress(address) => self.registers.address = address,
            Opcode::DefineFile(file) => return self.files.push(file),
            Opcode::Passed => {}
        }
        Ok(())
    }
}

/// A program that is being read.
#[derive(Drop)]
pub struct Running<'a> {
    pub parameters: Parameters<'a>,
    pub matrix: Matrix<'a>,
}

impl<'a> Gather<Reader<'a>> for Running<'a> {
    ghost step = { running_step };

    fn take(&mut self, alloc: Global, reader: &mut Reader<'a>) -> Result<(), ItemFault> {
        match read_opcode(&self.parameters, reader) {
            Ok(opcode) => match self.matrix.apply(alloc, &self.parameters, opcode) {
                Ok(()) => Ok(()),
                Err(NoMemory) => Err(ItemFault::NoMemory),
            },
            Err(fault) => Err(ItemFault::At(fault.at)),
        }
    }
}
