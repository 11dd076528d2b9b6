//! The frames of sections.

ghost use Rattle.std.specs.Prelude.{◌≡◌, ℕ, ◌≤◌, ◌↔◌, length};
ghost use Rattle.wasm_bytes.specs.calls.Sections.{section_of, IsSectionAt, NoSectionAt};
ghost use Rattle.wasm_bytes.specs.calls.Answers.{place_of_error};
ghost use Rattle.wasm_bytes.specs.declared.sections.SectionFrame.{SectionFrame};

use crate::faults::Malformed;
use crate::reader::Reader;

/// A section without its contents. Offsets are in bytes from the first byte of the input.
#[derive(Clone, Copy, PartialEq, Eq)]
pub struct SectionFrame {
    /// From 0, for a custom section, to 11.
    pub id: u8,
    /// Where the contents begin.
    pub at: usize,
    /// The offset behind the contents.
    pub end: usize,
}

#[tactic(auto, unfolding(crate::specs::Reading::byte_item, crate::specs::Reading::one_of_item, crate::specs::Reading::block_item, crate::specs::calls::Sections::section_frame_item, crate::specs::calls::Sections::section_of))]
fn frame_at(bytes: &[u8], at: usize) -> Result<SectionFrame, Malformed>
    requires { at ≤ length bytes.now }
    ensures { place_of_error result ≡ section_of bytes.now at }
{
    let mut reader = Reader::starting_at(bytes, at);
    let id = reader.byte()?;
    if id > 11 {
        return Err(Malformed { at });
    }
    let contents = reader.open()?;
    Ok(SectionFrame {
        id,
        at: contents.at(),
        end: contents.end_at(),
    })
}

fn placed(bytes: &[u8], at: usize) -> Result<SectionFrame, usize>
    requires { at ≤ length bytes.now }
    ensures { result ≡ section_of bytes.now at }
{
    match frame_at(bytes, at) {
        Ok(frame) => Ok(frame),
        Err(e) => Err(e.at),
    }
}

/// The frame of the section at an offset (Core 5.5.2). The error is the offset of the id or of the
/// size, where that has no reading.
pub fn section_at(bytes: &[u8], at: usize) -> Result<SectionFrame, usize>
    requires { at ≤ length bytes.now }
    ensures exact { result ≡ section_of bytes.now at }
    ensures found { (s : SectionFrame) → (result ≡ Ok s) ↔ IsSectionAt bytes.now at s }
    ensures broken { (o : ℕ) → (result ≡ Err o) ↔ NoSectionAt bytes.now at o }
{
    placed(bytes, at)
}
