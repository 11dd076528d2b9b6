//! The same calls over one vector, with loops byte by byte.

ghost use Rattle.std.specs.Prelude.{◌+◌, ◌*◌, ◌≤◌, IsTrue, vec_len};

use causes::NoMemory;
use linear_memory::{Answer, Call, GrowAnswer, StoreFault};
use std::alloc::Global;

#[derive(Drop)]
pub(crate) struct Plain {
    bytes: Vec<u8>,
    max: u64,
}

impl Plain {
    pub(crate) fn new(alloc: Global, pages: u32, max: u32) -> Result<Plain, NoMemory>
        requires { pages ≤ 4096 }
    {
        Ok(Plain {
            bytes: Vec::from_elem(alloc, 0u8, 65536 * pages as usize)?,
            max: max as u64,
        })
    }

    pub(crate) fn run(&mut self, alloc: Global, calls: &[Call]) -> Result<Vec<Answer>, NoMemory> {
        let mut answers = Vec::new(alloc);
        for call in calls {
            let answer = self.make(alloc, call)?;
            answers.push(answer)?;
        }
        Ok(answers)
    }

    fn make(&mut self, alloc: Global, call: &Call) -> Result<Answer, NoMemory> {
        match call {
            Call::Size => Ok(Answer::Size(self.pages())),
            Call::Load { at, width } => Ok(Answer::Loaded(self.load(*at, width.bytes() as u64))),
            Call::Store { at, width, value } => {
                let word = value.to_le_bytes();
                let len = (width.bytes() as usize).min(8);
                Ok(Answer::Stored(self.write(*at, &word[..len])))
            }
            Call::Write { at, bytes } => Ok(Answer::Stored(self.write(*at, bytes))),
            Call::Fill { at, byte, len } => Ok(Answer::Stored(self.fill(*at, *byte, *len))),
            Call::Copy { to, from, len } => Ok(Answer::Stored(self.copy(alloc, *to, *from, *len)?)),
            Call::Grow(count) => Ok(Answer::Grew(self.grow(*count)?)),
            Call::Page(index) => Ok(Answer::Page(self.page(alloc, *index)?)),
            Call::CopyOf => Ok(Answer::Copied),
        }
    }

    fn pages(&self) -> u32 {
        u32::try_from(self.bytes.len() / 65536).unwrap_or(0)
    }

    fn has(&self, at: u64, len: u64) -> bool
        ensures { IsTrue result → at + len ≤ vec_len self.now.bytes }
    {
        let end = self.bytes.len() as u64;
        at <= end && len <= end - at
    }

    fn load(&self, at: u64, width: u64) -> Option<u64> {
        if !self.has(at, width) {
            return None;
        }
        let mut value = 0u64;
        for i in 0..width {
            value = (value << 8) | self.bytes[(at + (width - 1 - i)) as usize] as u64;
        }
        Some(value)
    }

    fn write(&mut self, at: u64, bytes: &[u8]) -> Result<(), StoreFault> {
        if !self.has(at, bytes.len() as u64) {
            return Err(StoreFault::Out);
        }
        let start = at as usize;
        for (place, byte) in self.bytes[start..start + bytes.len()].iter_mut().zip(bytes) {
            *place = *byte;
        }
        Ok(())
    }

    fn fill(&mut self, at: u64, byte: u8, len: u64) -> Result<(), StoreFault> {
        if !self.has(at, len) {
            return Err(StoreFault::Out);
        }
        let start = at as usize;
        for place in self.bytes[start..start + len as usize].iter_mut() {
            *place = byte;
        }
        Ok(())
    }

    fn copy(
        &mut self,
        alloc: Global,
        to: u64,
        from: u64,
        len: u64,
    ) -> Result<Result<(), StoreFault>, NoMemory> {
        if !self.has(to, len) || !self.has(from, len) {
            return Ok(Err(StoreFault::Out));
        }
        let start = from as usize;
        let part = Vec::from_slice(alloc, &self.bytes[start..start + len as usize])?;
        Ok(self.write(to, &part))
    }

    fn grow(&mut self, count: u32) -> Result<GrowAnswer, NoMemory> {
        let before = self.pages();
        let after = before as u64 + count as u64;
        if after > self.max || after > 4096 {
            return Ok(GrowAnswer::TooMany);
        }
        self.bytes.resize(65536 * after as usize, 0)?;
        Ok(GrowAnswer::Grown(before))
    }

    fn page(&self, alloc: Global, index: u32) -> Result<Option<Vec<u8>>, NoMemory> {
        let at = 65536 * index as u64;
        if !self.has(at, 65536) {
            return Ok(None);
        }
        let start = at as usize;
        Ok(Some(Vec::from_slice(alloc, &self.bytes[start..start + 65536])?))
    }
}
