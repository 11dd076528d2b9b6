//! The custom sections that hold debugging information (WebAssembly DWARF).

ghost use Rattle.std.specs.Prelude.{◌≡◌, ◌≤◌, length};
ghost use Rattle.dwarf_info.specs.Sections.{IsReadable, IsReadable5, greatest_section};
ghost use Rattle.debug_frames.specs.Sections as definitions;

use dwarf_info::{Sections, Sections5};
use wasm_syntax::Custom;

/// What stands in a custom section behind its name.
fn contents<'a>(bytes: &'a [u8], custom: &Custom) -> &'a [u8]
    ensures is { result.now ≡ definitions.contents bytes.now custom.now }
    ensures within { length result.now ≤ length bytes.now }
{
    let at = custom.at as usize;
    let len = custom.len as usize;
    if bytes.len() < at {
        return &[];
    }
    let rest = &bytes[at..];
    if rest.len() <= len {
        rest
    } else {
        &rest[..len]
    }
}

/// The first custom section of a name, or nothing.
fn section_named<'a>(bytes: &'a [u8], customs: &[Custom], name: &str) -> &'a [u8]
    ensures is { result.now ≡ definitions.section_named bytes.now customs.now name.now }
    ensures within { length result.now ≤ length bytes.now }
{
    for custom in customs {
        if custom.name.as_str() == name {
            return contents(bytes, custom);
        }
    }
    &[]
}

#[tactic(auto, unfolding(crate::specs::Sections::sections4))]
fn sections4<'a>(bytes: &'a [u8], customs: &[Custom]) -> Sections<'a>
    requires { length bytes.now ≤ greatest_section }
    ensures is { result ≡ definitions.sections4 bytes.now customs.now }
    ensures readable { IsReadable result }
{
    Sections {
        info: section_named(bytes, customs, ".debug_info"),
        abbrev: section_named(bytes, customs, ".debug_abbrev"),
        line: section_named(bytes, customs, ".debug_line"),
        str: section_named(bytes, customs, ".debug_str"),
        loc: section_named(bytes, customs, ".debug_loc"),
        ranges: section_named(bytes, customs, ".debug_ranges"),
    }
}

/// The sections of debugging information of a module that these bytes spell.
#[tactic(auto, unfolding(crate::specs::Sections::sections_of))]
pub fn sections_of<'a>(bytes: &'a [u8], customs: &[Custom]) -> Sections5<'a>
    requires { length bytes.now ≤ greatest_section }
    ensures is { result ≡ definitions.sections_of bytes.now customs.now }
    ensures readable { IsReadable5 result }
{
    Sections5 {
        base: sections4(bytes, customs),
        line_str: section_named(bytes, customs, ".debug_line_str"),
        str_offsets: section_named(bytes, customs, ".debug_str_offsets"),
        addr: section_named(bytes, customs, ".debug_addr"),
        loclists: section_named(bytes, customs, ".debug_loclists"),
        rnglists: section_named(bytes, customs, ".debug_rnglists"),
    }
}
