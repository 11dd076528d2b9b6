//! The numbers of a rewritten module.

ghost use Rattle.std.specs.Prelude.{◌≡◌, ℕ, suc, ◌+◌, ◌<◌, true, length, map, slice_get, Some, IfOk};
ghost use Rattle.wasm_syntax.specs.declared.module.ModuleParts.{ModuleParts as Parts};
ghost use Rattle.wasm_syntax.specs.Module.{Program, IsProgram, function_types};
ghost use Rattle.wasm_syntax.specs.Valid.{Valid};
ghost use Rattle.wasm_format_laws.specs.calls.Sized.{Sized};
ghost use Rattle.wasm_syntax.specs.Run.{table_min};
ghost use Rattle.rewrite_bodies.specs.Numbering.{doubles, element_functions, flag_of, frame_import, helped};
ghost use Rattle.rewrite_bodies.specs.Numbering.{helper_base, is_in, mapped, place_in, shown, value_import, wrapped};
ghost use Rattle.rewrite_bodies.specs.Numbering.{wrapper_base};
ghost use Rattle.rewrite_bodies.specs.calls.Guards.{length_of};
ghost use Rattle.rewrite_modules.specs.calls.Instrument.{new_exports, new_start};
ghost use Rattle.rewrite_modules.specs.Weight.{types_used};
ghost use Rattle.index_map.specs.calls.Wrapper.{HasWrapper, wrapper_of};
ghost use Rattle.index_map.specs.inner.Kept.{CanBeNumbered};

use crate::shown::{TableFunctions, doubles, push_table, table_functions};
use crate::used::used_types;
use crate::wrapped::{indices, of_exports, push_start};
use causes::NoMemory;
use pm_text::Items;
use std::alloc::Global;
use std::marker::Model;
use wasm_syntax::{Module, ModuleParts, ValType};

/// Where functions, the added globals, helpers and what a host sees of the table stand in the rewriting of a
/// module. Contracts see it as the module.
#[derive(Drop)]
pub struct IndexMap<'a> {
    parts: &'a ModuleParts,
    /// How many exports have a wrapper.
    exported: usize,
    /// How many functions have one beside those of the table: of exports, and the start function.
    named: usize,
    /// Whether the table is doubled, for a host.
    doubled: bool,
    wrapped: Items<u32>,
    exports: Items<u32>,
    helped: Items<u32>,
    /// For each type of the module, how many of the types with a helper stand behind it; None where
    /// it has none.
    places: Items<Option<usize>>,
    table: TableFunctions,
}

impl<'a> Model for IndexMap<'a> {
    ghost use Rattle.wasm_syntax.specs.declared.module.ModuleParts.{ModuleParts as Numbered};
    ghost use Rattle.index_map.specs.inner.Kept.{IsMap};

    ghost Value = { Numbered };

    ghost view = { λ s. s.parts.now };

    ghost invariant = { λ s. IsMap s.parts.now s.exported s.named s.doubled s.wrapped s.exports
        s.helped s.table.functions s.places s.table.places };
}

/// The place of a number among `count` ones, by the list of how many stand behind each.
fn place_of(places: &Items<Option<usize>>, count: usize, t: u32) -> usize
    requires { (k : ℕ) → slice_get places.now t ≡ Some (Some k) → k < count }
    ensures { (k : ℕ) → slice_get places.now t ≡ Some (Some k) → result + suc k ≡ count }
{
    match places.get(t as usize).copied() {
        Some(Some(k)) => count - 1 - k,
        _ => 0,
    }
}

/// The numbers of a module's rewriting.
fn number<'a>(alloc: Global, parts: &'a ModuleParts) -> Result<IndexMap<'a>, NoMemory>
    requires { CanBeNumbered parts.now }
    ensures { IfOk result (λ map. map ≡ parts.now) }
{
    let mut wrapped = of_exports(alloc, parts)?;
    let exported = wrapped.as_slice().len();
    push_start(&mut wrapped, parts)?;
    let named = wrapped.as_slice().len();
    let table = table_functions(alloc, parts)?;
    let doubled = doubles(parts, table.functions.as_slice());
    push_table(&mut wrapped, doubled, table.functions.as_slice())?;
    let exports = indices(
        alloc,
        parts,
        parts.imports.len() + (3 + parts.functions.len()),
    )?;
    let used = used_types(alloc, parts)?;
    Ok(IndexMap {
        parts,
        exported,
        named,
        doubled,
        wrapped: Items::from_vec(wrapped),
        exports: Items::from_vec(exports),
        helped: used.types,
        places: used.places,
        table,
    })
}

impl<'a> IndexMap<'a> {
    /// The numbers of the rewriting of a valid module, whose lengths are those of a spelling.
    pub fn new(alloc: Global, source: &'a Module) -> Result<IndexMap<'a>, NoMemory>
        requires valid { Valid source.now }
        requires sized { Sized source.now }
        ensures { IfOk result (λ map. map ≡ source.now) }
    {
        number(alloc, source.parts())
    }

    /// The module.
    pub fn source(&self) -> &'a ModuleParts
        ensures { result.now ≡ self.now }
    {
        self.parts
    }

    /// The index of a function of the module.
    pub fn function(&self, f: u32) -> u32
        requires { f < length (function_types self.now) }
        ensures { result ≡ mapped self.now f }
    {
        if (f as usize) < self.parts.imports.len() {
            f
        } else {
            3 + f
        }
    }

    /// The import that takes a value of a type.
    pub fn value_import(&self, t: ValType) -> u32
        ensures { result ≡ value_import self.now t }
    {
        let imports = self.parts.imports.len() as u32;
        match t {
            ValType::I32 => imports,
            ValType::I64 => imports + 1,
        }
    }

    /// The import that ends a frame.
    pub fn frame_import(&self) -> u32
        ensures { result ≡ frame_import self.now }
    {
        self.parts.imports.len() as u32 + 2
    }

    /// The global that says whether frames are being unwound.
    pub fn flag(&self) -> u32
        ensures { result ≡ flag_of self.now }
    {
        self.parts.globals.len() as u32
    }

    /// The global behind it, which has the length of the memory in bytes.
    pub fn length(&self) -> u32
        ensures { result ≡ length_of self.now }
    {
        self.parts.globals.len() as u32 + 1
    }

    /// Whether the table is twice as long, for a host that sees it: its first half is for the host,
    /// with a wrapper for each function that the module defines, and its second half has the
    /// entries of the module.
    pub fn doubles(&self) -> bool
        ensures { result ≡ doubles self.now }
    {
        self.doubled
    }

    /// The least size of the module's own table, in elements; 0 where there is none.
    pub fn table_size(&self) -> u32
        ensures { result ≡ table_min self.now.tables }
    {
        self.parts.table_min()
    }

    /// What a host sees in place of a function of the table: its wrapper, where the module defines
    /// it.
    pub fn shown(&self, f: u32) -> u32
        requires doubled { doubles self.now ≡ true }
        requires there { is_in f (element_functions self.now) ≡ true }
        ensures { result ≡ shown self.now f }
    {
        if (f as usize) < self.parts.imports.len() {
            f
        } else {
            let count = self.table.functions.len();
            self.wrapper_base() + (self.named + place_of(&self.table.places, count, f)) as u32
        }
    }

    /// The functions that have a wrapper: one for each export of a function that the module
    /// defines; the start function, where the module defines it; and the functions of the table
    /// that the module defines, each once, where the table is doubled.
    pub fn wrapped(&self) -> &[u32]
        ensures { result.now ≡ wrapped self.now }
    {
        self.wrapped.as_slice()
    }

    /// The index of each export: that of its wrapper, where it has one.
    pub fn exports(&self) -> &[u32]
        ensures { result.now ≡ map (λ e. e.index) (new_exports self.now 0 self.now.exports) }
    {
        self.exports.as_slice()
    }

    /// The index of the wrapper of an export of a function that the module defines.
    pub fn wrapper(&self, export: u32) -> u32
        requires { HasWrapper self.now export }
        ensures { result ≡ wrapper_of self.now export }
    {
        self.exports()[export as usize]
    }

    /// The index of the first wrapper.
    pub fn wrapper_base(&self) -> u32
        ensures { result ≡ wrapper_base self.now }
    {
        self.parts.imports.len() as u32 + (3 + self.parts.functions.len() as u32)
    }

    /// The types that have a helper: those that a `call_indirect` uses, each once.
    pub fn helped(&self) -> &[u32]
        ensures flat { result.now ≡ types_used self.now }
        ensures trees { (p : Program) → IsProgram p → p.module_ ≡ self.now → result.now ≡ helped p }
    {
        self.helped.as_slice()
    }

    /// The index of the first helper.
    pub fn helper_base(&self) -> u32
        ensures { result ≡ helper_base self.now }
    {
        self.wrapper_base() + self.wrapped.len() as u32
    }

    /// The helper of a type that a `call_indirect` uses.
    pub fn helper(&self, ftype: u32) -> u32
        requires { is_in ftype (types_used self.now) ≡ true }
        ensures flat { result ≡ helper_base self.now + place_in ftype (types_used self.now) }
        ensures trees { (p : Program) → IsProgram p → p.module_ ≡ self.now
            → result ≡ helper_base self.now + place_in ftype (helped p) }
    {
        self.helper_base() + place_of(&self.places, self.helped.len(), ftype) as u32
    }

    /// The start function of the rewritten module.
    pub fn start(&self) -> Option<u32>
        ensures { result ≡ new_start self.now self.now.start }
    {
        match self.parts.start {
            Some(f) => {
                if (f as usize) < self.parts.imports.len() {
                    Some(f)
                } else {
                    Some(self.wrapper_base() + self.exported as u32)
                }
            }
            None => None,
        }
    }
}
