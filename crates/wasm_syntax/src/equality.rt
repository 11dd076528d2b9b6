//! When two modules are the same but for places.

ghost use Rattle.std.specs.Prelude.{◌≡◌, ◌↔◌, IsTrue, map};
ghost use Rattle.wasm_syntax.specs.SameCode.{op_code, body_code, global_code, element_code, segment_code, code_alone};

use crate::instruction::{Basic, Instr, Jump, Load, Op, Store};
use crate::module::{Module, ModuleParts};
use crate::parts::{
    Body, DataSeg, ElementSeg, Export, FuncType, Global, Import, Limits, LocalGroup,
};
use crate::value::{ValType, Value};
use pm_text::{Items, Text};

/// Parts of a module that may differ in places and still be the same code.
trait Code {
    ghost code: { Self → Self };

    fn same(&self, other: &Self) -> bool
        ensures { IsTrue result ↔ (code self.now ≡ code other.now) };
}

impl Code for u8 {
    ghost code = { λ x. x };

    fn same(&self, other: &Self) -> bool {
        *self == *other
    }
}

impl Code for u32 {
    ghost code = { λ x. x };

    fn same(&self, other: &Self) -> bool {
        *self == *other
    }
}

impl Code for ValType {
    ghost code = { λ x. x };

    fn same(&self, other: &Self) -> bool {
        *self == *other
    }
}

impl Code for Limits {
    ghost code = { λ x. x };

    fn same(&self, other: &Self) -> bool {
        *self == *other
    }
}

impl Code for LocalGroup {
    ghost code = { λ x. x };

    fn same(&self, other: &Self) -> bool {
        *self == *other
    }
}

impl Code for Jump {
    ghost code = { λ x. x };

    fn same(&self, other: &Self) -> bool {
        *self == *other
    }
}

impl Code for Load {
    ghost code = { λ x. x };

    fn same(&self, other: &Self) -> bool {
        *self == *other
    }
}

impl Code for Store {
    ghost code = { λ x. x };

    fn same(&self, other: &Self) -> bool {
        *self == *other
    }
}

impl Code for Value {
    ghost code = { λ x. x };

    fn same(&self, other: &Self) -> bool {
        *self == *other
    }
}

/// Whether a value has the form of this pattern, and this holds of its parts.
macro_rules! has {
    ($value:expr, $form:pat => $holds:expr) => {
        match $value {
            $form => $holds,
            _ => false,
        }
    };
}

impl Code for Basic {
    ghost code = { λ x. x };

    fn same(&self, other: &Self) -> bool {
        match self {
            Basic::Nop => has!(other, Basic::Nop => true),
            Basic::Drop => has!(other, Basic::Drop => true),
            Basic::Select => has!(other, Basic::Select => true),
            Basic::LocalGet(x) => has!(other, Basic::LocalGet(y) => *x == *y),
            Basic::LocalSet(x) => has!(other, Basic::LocalSet(y) => *x == *y),
            Basic::LocalTee(x) => has!(other, Basic::LocalTee(y) => *x == *y),
            Basic::GlobalGet(x) => has!(other, Basic::GlobalGet(y) => *x == *y),
            Basic::GlobalSet(x) => has!(other, Basic::GlobalSet(y) => *x == *y),
            Basic::Load(l, a, o) =>
                has!(other, Basic::Load(m, b, p) => *l == *m && *a == *b && *o == *p),
            Basic::Store(l, a, o) =>
                has!(other, Basic::Store(m, b, p) => *l == *m && *a == *b && *o == *p),
            Basic::MemorySize => has!(other, Basic::MemorySize => true),
            Basic::MemoryGrow => has!(other, Basic::MemoryGrow => true),
            Basic::MemoryCopy => has!(other, Basic::MemoryCopy => true),
            Basic::MemoryFill => has!(other, Basic::MemoryFill => true),
            Basic::Const(v) => has!(other, Basic::Const(w) => *v == *w),
            Basic::Eqz(t) => has!(other, Basic::Eqz(u) => *t == *u),
            Basic::Unary(t, f) => has!(other, Basic::Unary(u, g) => *t == *u && *f == *g),
            Basic::Compare(t, f) => has!(other, Basic::Compare(u, g) => *t == *u && *f == *g),
            Basic::Binary(t, f) => has!(other, Basic::Binary(u, g) => *t == *u && *f == *g),
            Basic::Convert(f) => has!(other, Basic::Convert(g) => *f == *g),
            Basic::Extend32(k) => has!(other, Basic::Extend32(n) => *k == *n),
            Basic::Extend64(k) => has!(other, Basic::Extend64(n) => *k == *n),
        }
    }
}

impl Code for Instr {
    ghost code = { λ x. x };

    fn same(&self, other: &Self) -> bool {
        match self {
            Instr::Basic(i) => has!(other, Instr::Basic(j) => i.same(j)),
            Instr::Jump(i) => has!(other, Instr::Jump(j) => i.same(j)),
            Instr::Block(t) => has!(other, Instr::Block(u) => *t == *u),
            Instr::Loop(t) => has!(other, Instr::Loop(u) => *t == *u),
            Instr::If(t) => has!(other, Instr::If(u) => *t == *u),
            Instr::Else => has!(other, Instr::Else => true),
            Instr::End => has!(other, Instr::End => true),
        }
    }
}

impl Instr {
    /// Whether two instructions are the same.
    pub fn is_same(&self, other: &Instr) -> bool
        ensures { IsTrue result ↔ (self.now ≡ other.now) }
    {
        self.same(other)
    }
}

impl Code for Op {
    ghost code = { op_code };

    fn same(&self, other: &Self) -> bool {
        self.code.same(&other.code)
    }
}

impl<T: Code> Code for Items<T> {
    ghost code = { map T.code };

    fn same(&self, other: &Self) -> bool {
        let (a, b) = (self.as_slice(), other.as_slice());
        if a.len() != b.len() {
            return false;
        }
        for i in 0..a.len() {
            if !a[i].same(&b[i]) {
                return false;
            }
        }
        true
    }
}

impl Code for Text {
    ghost code = { λ x. x };

    fn same(&self, other: &Self) -> bool {
        self.as_str() == other.as_str()
    }
}

/// Whether two lists of types are equal.
#[tactic(auto, using(crate::proofs::Differ::map_same))]
fn same_types(a: &Items<ValType>, b: &Items<ValType>) -> bool
    ensures { IsTrue result ↔ (a.now ≡ b.now) }
{
    a.same(b)
}

/// Whether two lists of indices are equal.
#[tactic(auto, using(crate::proofs::Differ::map_same))]
fn same_numbers(a: &Items<u32>, b: &Items<u32>) -> bool
    ensures { IsTrue result ↔ (a.now ≡ b.now) }
{
    a.same(b)
}

/// Whether two lists of bytes are equal.
#[tactic(auto, using(crate::proofs::Differ::map_same))]
fn same_bytes(a: &Items<u8>, b: &Items<u8>) -> bool
    ensures { IsTrue result ↔ (a.now ≡ b.now) }
{
    a.same(b)
}

/// Whether two lists of groups are equal.
#[tactic(auto, using(crate::proofs::Differ::map_same))]
fn same_groups(a: &Items<LocalGroup>, b: &Items<LocalGroup>) -> bool
    ensures { IsTrue result ↔ (a.now ≡ b.now) }
{
    a.same(b)
}

impl Code for FuncType {
    ghost code = { λ x. x };

    fn same(&self, other: &Self) -> bool {
        same_types(&self.params, &other.params) && same_types(&self.results, &other.results)
    }
}

impl Code for Import {
    ghost code = { λ x. x };

    fn same(&self, other: &Self) -> bool {
        self.module.same(&other.module) && self.name.same(&other.name) && self.ftype == other.ftype
    }
}

impl Code for Export {
    ghost code = { λ x. x };

    fn same(&self, other: &Self) -> bool {
        self.name.same(&other.name) && self.kind == other.kind && self.index == other.index
    }
}

impl Code for Body {
    ghost code = { body_code };

    fn same(&self, other: &Self) -> bool {
        same_groups(&self.groups, &other.groups)
            && self.ops.same(&other.ops)
            && same_numbers(&self.targets, &other.targets)
    }
}

impl Code for Global {
    ghost code = { global_code };

    fn same(&self, other: &Self) -> bool {
        self.vtype == other.vtype && self.mutable == other.mutable && self.init.same(&other.init)
    }
}

impl Code for ElementSeg {
    ghost code = { element_code };

    fn same(&self, other: &Self) -> bool {
        self.table == other.table
            && self.offset.same(&other.offset)
            && same_numbers(&self.functions, &other.functions)
    }
}

impl Code for DataSeg {
    ghost code = { segment_code };

    fn same(&self, other: &Self) -> bool {
        self.memory == other.memory
            && self.offset.same(&other.offset)
            && same_bytes(&self.bytes, &other.bytes)
    }
}

/// Whether two lists of function types are equal.
#[tactic(auto, using(crate::proofs::Differ::map_same))]
fn same_func_types(a: &Items<FuncType>, b: &Items<FuncType>) -> bool
    ensures { IsTrue result ↔ (a.now ≡ b.now) }
{
    a.same(b)
}

/// Whether two lists of imports are equal.
#[tactic(auto, using(crate::proofs::Differ::map_same))]
fn same_imports(a: &Items<Import>, b: &Items<Import>) -> bool
    ensures { IsTrue result ↔ (a.now ≡ b.now) }
{
    a.same(b)
}

/// Whether two lists of limits are equal.
#[tactic(auto, using(crate::proofs::Differ::map_same))]
fn same_limits(a: &Items<Limits>, b: &Items<Limits>) -> bool
    ensures { IsTrue result ↔ (a.now ≡ b.now) }
{
    a.same(b)
}

/// Whether two lists of exports are equal.
#[tactic(auto, using(crate::proofs::Differ::map_same))]
fn same_exports(a: &Items<Export>, b: &Items<Export>) -> bool
    ensures { IsTrue result ↔ (a.now ≡ b.now) }
{
    a.same(b)
}

/// Whether two modules have the same functions and types.
fn same_functions(a: &ModuleParts, b: &ModuleParts) -> bool
    ensures { IsTrue result ↔ ((a.now.types ≡ b.now.types) × (a.now.imports ≡ b.now.imports)
        × (a.now.functions ≡ b.now.functions)) }
{
    same_func_types(&a.types, &b.types)
        && same_imports(&a.imports, &b.imports)
        && same_numbers(&a.functions, &b.functions)
}

/// Whether two modules have the same tables, memories, exports and start function.
fn same_outside(a: &ModuleParts, b: &ModuleParts) -> bool
    ensures { IsTrue result ↔ ((a.now.tables ≡ b.now.tables) × (a.now.memories ≡ b.now.memories)
        × (a.now.exports ≡ b.now.exports) × (a.now.start ≡ b.now.start)) }
{
    same_limits(&a.tables, &b.tables)
        && same_limits(&a.memories, &b.memories)
        && same_exports(&a.exports, &b.exports)
        && a.start == b.start
}

/// Whether the bodies and expressions of two modules are the same code.
fn same_bodies(a: &ModuleParts, b: &ModuleParts) -> bool
    ensures { IsTrue result ↔ ((map global_code a.now.globals ≡ map global_code b.now.globals)
        × (map element_code a.now.elements ≡ map element_code b.now.elements)
        × (map segment_code a.now.segments ≡ map segment_code b.now.segments)
        × (map body_code a.now.bodies ≡ map body_code b.now.bodies)) }
{
    a.globals.same(&b.globals)
        && a.elements.same(&b.elements)
        && a.segments.same(&b.segments)
        && a.bodies.same(&b.bodies)
}

/// Whether two modules are the same code: equal but for the places and lengths of instructions, the
/// places of bodies, custom sections and lengths in bytes.
pub fn same_code(a: &Module, b: &Module) -> bool
    ensures { IsTrue result ↔ (code_alone a.now ≡ code_alone b.now) }
{
    let (a, b) = (a.parts(), b.parts());
    same_functions(a, b) && same_outside(a, b) && same_bodies(a, b)
}
