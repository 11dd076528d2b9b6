//! Modules (Core 2.5).

ghost use Rattle.std.specs.Prelude.{◌≡◌, option_copied, slice_get};
ghost use Rattle.wasm_syntax.specs.Module.{IsModule, type_at, function_types};
ghost use Rattle.wasm_syntax.specs.Valid.{body_of};

use crate::parts::{
    Bodies, Body, Customs, DataSegs, ElementSegs, Exports, FuncType, FuncTypes, Globals, Imports,
    Indices, LimitsList,
};
use std::marker::Model;

/// The lists of a module, each in index order.
#[derive(Drop)]
pub struct ModuleParts {
    pub types: FuncTypes,
    pub imports: Imports,
    /// The type indices of the functions that the module defines.
    pub functions: Indices,
    pub tables: LimitsList,
    pub memories: LimitsList,
    pub globals: Globals,
    pub exports: Exports,
    pub start: Option<u32>,
    pub elements: ElementSegs,
    pub segments: DataSegs,
    pub bodies: Bodies,
    pub customs: Customs,
    /// The length of the module in bytes, without its custom sections.
    pub plain_bytes: u32,
}

impl ModuleParts {
    /// The type of a function, where the imported functions come first (Core 2.5.1). None where
    /// there is no such function, or where its type index is out of range.
    pub fn type_of(&self, function: usize) -> Option<&FuncType>
        ensures { option_copied result ≡ type_at self.now function }
    {
        self.types.get(self.type_index(function)? as usize)
    }

    /// The type index of a function, where the imported functions come first.
    fn type_index(&self, function: usize) -> Option<u32>
        ensures { result ≡ slice_get (function_types self.now) function }
    {
        let imported = self.imports.len();
        if function < imported {
            return self.imports.get(function).map(|import| import.ftype);
        }
        self.functions.get(function - imported).copied()
    }

    /// The body of a function, where the module defines it (Core 2.5.1).
    pub fn body_of(&self, function: u32) -> Option<&Body>
        ensures { option_copied result ≡ body_of self.now function }
    {
        let imported = self.imports.len();
        let f = function as usize;
        if f < imported {
            None
        } else {
            self.bodies.get(f - imported)
        }
    }
}

/// A module, which contracts see as its parts. It has as many bodies as functions, and each body
/// writes out a tree.
#[derive(Drop)]
pub struct Module {
    parts: ModuleParts,
}

impl Model for Module {
    ghost use Rattle.wasm_syntax.specs.declared.module.ModuleParts.{ModuleParts as Parts};
    ghost use Rattle.wasm_syntax.specs.Module.{IsModule as Whole};

    ghost Value = { Parts };

    ghost view = { λ m. m.parts };

    ghost invariant = { λ m. Whole m.parts };
}

impl Module {
    pub fn new(parts: ModuleParts) -> Self
        requires { IsModule parts }
        ensures { result ≡ parts }
    {
        Module { parts }
    }

    pub fn parts(&self) -> &ModuleParts
        ensures value { result.now ≡ self.now }
        ensures whole { IsModule result.now }
    {
        &self.parts
    }

    pub fn into_parts(self) -> ModuleParts
        ensures value { result ≡ self }
        ensures whole { IsModule result }
    {
        self.parts
    }
}
