//! The sections, prepared for the reading of many entries.

ghost use Rattle.std.specs.Prelude.{◌≡◌, IfOk};
ghost use Rattle.dwarf_info.specs.Values.{text_at};

use crate::form::TextSection;
use crate::sections::Sections5;
use crate::texts::Texts;
use causes::NoMemory;
use std::alloc::Global;
use std::marker::Model;
use wasm_bytes::Run;

/// The sections, in which the ends of texts were looked for once. Contracts see them as the
/// sections.
#[derive(Drop)]
pub struct PreparedSections<'a> {
    sections: Sections5<'a>,
    str: Texts<'a>,
    line_str: Texts<'a>,
}

impl<'a> Model for PreparedSections<'a> {
    ghost use Rattle.std.specs.Prelude.{◌≡◌};
    ghost use Rattle.dwarf_info.specs.Sections.{SectionBytes5};

    ghost Value = { SectionBytes5 };

    ghost view = { λ p. p.sections };

    ghost invariant = { λ p. (p.str ≡ p.sections.base.str) × (p.line_str ≡ p.sections.line_str) };
}

impl<'a> PreparedSections<'a> {
    /// The same sections. It takes linear time.
    pub fn new(alloc: Global, sections: &Sections5<'a>) -> Result<Self, NoMemory>
        ensures { IfOk result (λ prepared. prepared ≡ sections.now) }
    {
        match Texts::new(alloc, sections.base().str) {
            Ok(str) => match Texts::new(alloc, sections.line_str) {
                Ok(line_str) => Ok(PreparedSections {
                    sections: sections.borrowed(),
                    str,
                    line_str,
                }),
                Err(NoMemory) => Err(NoMemory),
            },
            Err(NoMemory) => Err(NoMemory),
        }
    }

    /// The sections.
    pub fn sections(&self) -> &Sections5<'a>
        ensures { result.now ≡ self.now }
    {
        &self.sections
    }

    /// The text at an offset of a section of texts, where one stands there. It takes logarithmic
    /// time.
    pub fn text_at(&self, section: TextSection, at: u64) -> Option<Run<'a>>
        ensures { result ≡ text_at self.now section at }
    {
        match section {
            TextSection::Str => self.str.at(at),
            TextSection::LineStr => self.line_str.at(at),
        }
    }
}
