//! Laws of the abbreviations and units of DWARF.

ghost use Rattle.std.specs.Prelude.{◌≡◌, ◌<◌, ◌↔◌, ℕ, List, length, get_or, filter, ◌==◌, Some, None};
ghost use Rattle.wasm_bytes.specs.Laws.{IsBytes};
ghost use Rattle.dwarf_bytes.specs.calls.Spelled.{StandsAt};
ghost use Rattle.dwarf_abbrev.specs.declared.abbrev.Abbrev.{Abbrev};
ghost use Rattle.dwarf_abbrev.specs.Reading.{abbrevs_at};
ghost use Rattle.dwarf_abbrev.specs.calls.Grammar.{abbrevs};
ghost use Rattle.dwarf_info.specs.declared.entry.UnitAnswer.{UnitAnswer};
ghost use Rattle.dwarf_info.specs.Sections.{SectionBytes, SectionBytes5};
ghost use Rattle.dwarf_info.specs.calls.Trees.{Siblings, Tree, written_at, written};
ghost use Rattle.dwarf_info.specs.Units.{offsets_of};
ghost use Rattle.dwarf_info.specs.calls.Grammar4.{IsUnits4};
ghost use Rattle.dwarf5_info.specs.calls.Grammar5.{IsUnits5};
ghost use Rattle.dwarf_laws.specs.calls.Inside.{insides, nodes, siblings_at};

/// A table of abbreviations is read at an offset exactly where the section spells it there (DWARF 4
/// section 7.5.3), and none is read exactly where it spells none.
pub fn tables_as_spelled()
    ensures read { (section : List ℕ) (at : ℕ) (table : List Abbrev) → IsBytes section
        → (abbrevs_at section at ≡ Some table) ↔ StandsAt abbrevs table section at }
    ensures unread { (section : List ℕ) (at : ℕ) → IsBytes section
        → (abbrevs_at section at ≡ None) ↔
        ((table : List Abbrev) → StandsAt abbrevs table section at → ⊥) }
{}

/// The sections spell one list of units (DWARF 4 section 7.5), whatever their bytes.
pub fn one_reading()
    ensures some { (s : SectionBytes) → IsBytes s.abbreviations → IsBytes s.info
        → (units : List UnitAnswer) × IsUnits4 s units }
    ensures one { (s : SectionBytes) (us vs : List UnitAnswer) → IsBytes s.abbreviations
        → IsBytes s.info → IsUnits4 s us → IsUnits4 s vs → us ≡ vs }
{}

/// The same of units of versions 4 and 5 (DWARF 5 section 7.5).
pub fn one_reading5()
    ensures some { (s : SectionBytes5) → IsBytes s.base.abbreviations → IsBytes s.base.info
        → (units : List UnitAnswer) × IsUnits5 s units }
    ensures one { (s : SectionBytes5) (us vs : List UnitAnswer) → IsBytes s.base.abbreviations
        → IsBytes s.base.info → IsUnits5 s us → IsUnits5 s vs → us ≡ vs }
{}

/// The offsets of entries stand inside the section and ascend, so that at most one entry stands at
/// each.
pub fn entries_apart()
    ensures inside { (s : SectionBytes) (units : List UnitAnswer) (i : ℕ) → IsUnits4 s units
        → i < length (offsets_of units) → get_or (offsets_of units) i 0 < length s.info }
    ensures apart { (s : SectionBytes) (units : List UnitAnswer) (i j : ℕ) → IsUnits4 s units
        → i < j → j < length (offsets_of units)
        → get_or (offsets_of units) i 0 < get_or (offsets_of units) j 0 }
{}

/// The same of units of versions 4 and 5.
pub fn entries_apart5()
    ensures inside { (s : SectionBytes5) (units : List UnitAnswer) (i : ℕ) → IsUnits5 s units
        → i < length (offsets_of units) → get_or (offsets_of units) i 0 < length s.base.info }
    ensures apart { (s : SectionBytes5) (units : List UnitAnswer) (i j : ℕ) → IsUnits5 s units
        → i < j → j < length (offsets_of units)
        → get_or (offsets_of units) i 0 < get_or (offsets_of units) j 0 }
{}

/// In the list that a tree writes out, the entries behind one that are deeper, up to the first that
/// is not, are its children, written out. Among them those that are one deeper are its own
/// children.
pub fn entries_in_entries()
    ensures written { (t : Tree) → insides (written t) ≡ nodes t }
    ensures children { (depth : ℕ) (children : Siblings)
        → filter (λ e. e.depth == depth) (written_at depth children) ≡ siblings_at depth children }
{}
