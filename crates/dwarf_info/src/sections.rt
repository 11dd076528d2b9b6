//! The sections that hold debugging information.

ghost use Rattle.std.specs.Prelude.{◌≡◌};
ghost use Rattle.wasm_bytes.specs.Laws.{IsBytes};
ghost use Rattle.dwarf_info.specs.Sections.{without5};

use std::marker::Model;

/// The contents of the custom sections of these names, behind `.debug_`; an absent one is empty.
#[derive(Drop)]
pub struct Sections<'a> {
    pub info: &'a [u8],
    pub abbrev: &'a [u8],
    pub line: &'a [u8],
    pub str: &'a [u8],
    pub loc: &'a [u8],
    pub ranges: &'a [u8],
}

impl<'a> Model for Sections<'a> {
    ghost use Rattle.dwarf_info.specs.Sections.{SectionBytes};

    ghost Value = { SectionBytes };

    ghost view = { λ s. record {
      info = s.info.now;
      abbreviations = s.«abbrev».now;
      line = s.line.now;
      str = s.str.now;
      loc = s.loc.now;
      ranges = s.ranges.now;
    } };
}

/// The same with the sections that version 5 adds.
#[derive(Drop)]
pub struct Sections5<'a> {
    pub base: Sections<'a>,
    pub line_str: &'a [u8],
    pub str_offsets: &'a [u8],
    pub addr: &'a [u8],
    pub loclists: &'a [u8],
    pub rnglists: &'a [u8],
}

impl<'a> Model for Sections5<'a> {
    ghost use Rattle.dwarf_info.specs.Sections.{SectionBytes5};

    ghost Value = { SectionBytes5 };

    ghost view = { λ s. record {
      base = s.base;
      line_str = s.line_str.now;
      str_offsets = s.str_offsets.now;
      addr = s.addr.now;
      loclists = s.loclists.now;
      rnglists = s.rnglists.now;
    } };
}

/// A section, whose elements are bytes.
fn section<'a>(bytes: &'a [u8]) -> &'a [u8]
    ensures same { result.now ≡ bytes.now }
    ensures bytes { IsBytes bytes.now }
{
    bytes
}

impl<'a> Sections<'a> {
    /// The same sections once more.
    fn borrowed(&self) -> Self
        ensures { result ≡ self.now }
    {
        Sections {
            info: self.info,
            abbrev: self.abbrev,
            line: self.line,
            str: self.str,
            loc: self.loc,
            ranges: self.ranges,
        }
    }
}

impl<'a> Sections5<'a> {
    /// The sections that version 5 adds are absent.
    pub fn without5(base: &Sections<'a>) -> Self
        ensures is { result ≡ without5 base.now }
        ensures bytes { IsBytes base.now.info × IsBytes base.now.abbreviations }
    {
        Sections5 {
            base: Sections {
                info: section(base.info),
                abbrev: section(base.abbrev),
                line: base.line,
                str: base.str,
                loc: base.loc,
                ranges: base.ranges,
            },
            line_str: &[],
            str_offsets: &[],
            addr: &[],
            loclists: &[],
            rnglists: &[],
        }
    }

    /// Those that version 4 has.
    pub(crate) fn base(&self) -> &Sections<'a>
        ensures { result.now ≡ self.now.base }
    {
        &self.base
    }

    /// `.debug_abbrev`
    pub(crate) fn abbreviations(&self) -> &'a [u8]
        ensures { result.now ≡ self.now.base.abbreviations }
    {
        self.base().abbrev
    }

    /// The same sections once more.
    pub fn borrowed(&self) -> Self
        ensures { result ≡ self.now }
    {
        Sections5 {
            base: self.base.borrowed(),
            line_str: self.line_str,
            str_offsets: self.str_offsets,
            addr: self.addr,
            loclists: self.loclists,
            rnglists: self.rnglists,
        }
    }
}
