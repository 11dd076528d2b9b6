//! Modules byte by byte, with offsets that were worked out by hand from the binary format.

ghost use Rattle.std.specs.Prelude.{◌≡◌, ◌∷◌, [], IfOk};
ghost use Rattle.format_tests.specs.inner.Samples.{divides, exported, narrow, division};

use causes::NoMemory;
use pm_text::{Items, Text};
use std::alloc::Global;
use wasm_decode::{DecodeFault, decode, function_names};
use wasm_encode::encode;
use wasm_syntax::{
    Basic, Binary, Body, Export, ExportKind, FuncType, Instr, Module, ModuleParts, Op, Quantity,
    ValType, same_code,
};

/// A module whose one function, `div`, divides one parameter by the other.
const DIVISION: [u8; 41] = [
    0x00, 0x61, 0x73, 0x6D, 0x01, 0x00, 0x00, 0x00, 0x01, 0x07, 0x01, 0x60, 0x02, 0x7F, 0x7F, 0x01,
    0x7F, 0x03, 0x02, 0x01, 0x00, 0x07, 0x07, 0x01, 0x03, 0x64, 0x69, 0x76, 0x00, 0x00, 0x0A, 0x09,
    0x01, 0x07, 0x00, 0x20, 0x00, 0x20, 0x01, 0x6D, 0x0B,
];

/// The same, and a name section, which names the function `q`.
const NAMED: [u8; 54] = [
    0x00, 0x61, 0x73, 0x6D, 0x01, 0x00, 0x00, 0x00, 0x01, 0x07, 0x01, 0x60, 0x02, 0x7F, 0x7F, 0x01,
    0x7F, 0x03, 0x02, 0x01, 0x00, 0x07, 0x07, 0x01, 0x03, 0x64, 0x69, 0x76, 0x00, 0x00, 0x0A, 0x09,
    0x01, 0x07, 0x00, 0x20, 0x00, 0x20, 0x01, 0x6D, 0x0B, 0x00, 0x0B, 0x04, 0x6E, 0x61, 0x6D, 0x65,
    0x01, 0x04, 0x01, 0x00, 0x01, 0x71,
];

/// A section of no functions, with a size and a count of five bytes each, whose last one says more
/// than 32 bits hold.
const TOO_LONG: [u8; 19] = [
    0x00, 0x61, 0x73, 0x6D, 0x01, 0x00, 0x00, 0x00, 0x03, 0x85, 0x80, 0x80, 0x80, 0x00, 0x80, 0x80,
    0x80, 0x80, 0x10,
];

/// A function type whose parameter is a float.
const FLOAT_TYPE: [u8; 15] = [
    0x00, 0x61, 0x73, 0x6D, 0x01, 0x00, 0x00, 0x00, 0x01, 0x05, 0x01, 0x60, 0x01, 0x7D, 0x00,
];

/// An import of a memory.
const MEMORY_IMPORT: [u8; 18] = [
    0x00, 0x61, 0x73, 0x6D, 0x01, 0x00, 0x00, 0x00, 0x02, 0x08, 0x01, 0x01, 0x6D, 0x01, 0x6E, 0x02,
    0x00, 0x01,
];

/// A memory of 4,097 pages at least.
const LARGE_MEMORY: [u8; 14] = [
    0x00, 0x61, 0x73, 0x6D, 0x01, 0x00, 0x00, 0x00, 0x05, 0x04, 0x01, 0x00, 0x81, 0x20,
];

/// Whether the third instruction of the first body is the division.
fn has_division(parts: &ModuleParts) -> bool {
    match parts.bodies.get(0) {
        Some(body) => match body.ops.get(2) {
            Some(op) => is_division_at(op, 5),
            None => false,
        },
        None => false,
    }
}

fn is_division_at(op: &Op, at: u32) -> bool {
    op.at == at
        && op.len == 1
        && matches!(
            op.code,
            Instr::Basic(Basic::Binary(ValType::I32, Binary::DivS))
        )
}

/// Whether the first function has this name.
fn has_name(alloc: Global, bytes: &[u8], module: &Module, name: &str) -> bool {
    if bytes.len() > 100 {
        return false;
    }
    match function_names(alloc, bytes, module) {
        Ok(names) => names.get(0) == Some(name),
        Err(_) => false,
    }
}

/// What is asked of the bytes of a module.
#[derive(Drop)]
enum Asked<'a> {
    /// Whether the third instruction is the division.
    Division,
    /// Whether the first function has this name.
    Name(&'a str),
    /// Whether it is this module, but for places.
    Same(&'a Module),
    /// Whether it is refused so.
    Refused(DecodeFault),
}

fn answers(alloc: Global, bytes: &[u8], module: &Module, asked: &Asked<'_>) -> bool {
    match asked {
        Asked::Division => has_division(module.parts()),
        Asked::Name(name) => has_name(alloc, bytes, module, name),
        Asked::Same(other) => same_code(other, module),
        Asked::Refused(_) => false,
    }
}

fn is_so(alloc: Global, bytes: &[u8], asked: &Asked<'_>) -> bool {
    match decode(alloc, bytes) {
        Ok(module) => answers(alloc, bytes, &module, asked),
        Err(found) => matches!(asked, Asked::Refused(fault) if found == *fault),
    }
}

fn breaks_at(alloc: Global, bytes: &[u8], at: usize) -> bool {
    is_so(alloc, bytes, &Asked::Refused(DecodeFault::Malformed { at }))
}

const LIMIT: DecodeFault = DecodeFault::Limit {
    what: Quantity::Memory,
    count: 4_097,
};

const IMPORT: DecodeFault = DecodeFault::ImportKind { index: 0 };

#[test]
fn modules_are_read(rt: HostRuntime) {
    let alloc = rt.alloc();
    assert!(rt; is_so(alloc, &DIVISION, &Asked::Division));
    assert!(rt; is_so(alloc, &NAMED, &Asked::Name("q")));
    // a size past the end
    assert!(rt; breaks_at(alloc, &DIVISION[..40], 31));
    assert!(rt; breaks_at(alloc, &TOO_LONG, 14));
    assert!(rt;
        is_so(
            alloc,
            &FLOAT_TYPE,
            &Asked::Refused(DecodeFault::Float { at: 13 })
        )
    );
    assert!(rt; is_so(alloc, &MEMORY_IMPORT, &Asked::Refused(IMPORT)));
    assert!(rt; is_so(alloc, &LARGE_MEMORY, &Asked::Refused(LIMIT)));
}

fn one<T: Drop>(alloc: Global, item: T) -> Result<Items<T>, NoMemory>
    ensures { IfOk result (λ items. items ≡ item ∷ []) }
{
    let mut items = Items::new(alloc);
    items.push(item)?;
    Ok(items)
}

fn op(at: u32, code: Instr) -> Op
    ensures { result ≡ record { at = at; len = 1; code = code } }
{
    Op { at, len: 1, code }
}

fn bodies(alloc: Global) -> Result<Items<Body>, NoMemory>
    ensures { IfOk result (λ items. items ≡ divides ∷ []) }
{
    let ops = [
        op(1, Instr::Basic(Basic::LocalGet(0))),
        op(3, Instr::Basic(Basic::LocalGet(1))),
        op(5, Instr::Basic(Basic::Binary(ValType::I32, Binary::DivS))),
        op(6, Instr::End),
    ];
    let ops = Items::from_slice(alloc, &ops)?;
    let code = Body {
        groups: Items::new(alloc),
        ops,
        targets: Items::new(alloc),
        start: 0,
    };
    one(alloc, code)
}

fn exports(alloc: Global) -> Result<Items<Export>, NoMemory>
    ensures { IfOk result (λ items. items ≡ exported ∷ []) }
{
    let name = Text::from_str(alloc, "div")?;
    let export = Export {
        name,
        kind: ExportKind::Function,
        index: 0,
    };
    one(alloc, export)
}

fn types(alloc: Global) -> Result<Items<FuncType>, NoMemory>
    ensures { IfOk result (λ items. items ≡ narrow ∷ []) }
{
    let params = Items::from_slice(alloc, &[ValType::I32, ValType::I32])?;
    let results = Items::from_slice(alloc, &[ValType::I32])?;
    one(alloc, FuncType { params, results })
}

fn division(alloc: Global) -> Result<ModuleParts, NoMemory>
    ensures { IfOk result (λ m. m ≡ division) }
{
    let types = types(alloc)?;
    let functions = Items::from_slice(alloc, &[0])?;
    let exports = exports(alloc)?;
    let bodies = bodies(alloc)?;
    Ok(ModuleParts {
        types,
        imports: Items::new(alloc),
        functions,
        tables: Items::new(alloc),
        memories: Items::new(alloc),
        globals: Items::new(alloc),
        exports,
        start: None,
        elements: Items::new(alloc),
        segments: Items::new(alloc),
        bodies,
        customs: Items::new(alloc),
        plain_bytes: 0,
    })
}

fn division_module(alloc: Global) -> Result<Module, NoMemory>
    ensures { IfOk result (λ m. m ≡ division) }
{
    let parts = division(alloc)?;
    Ok(Module::new(parts))
}

/// Whether the bytes of the division are written, and the module is read from them again.
fn is_written(alloc: Global, source: &Module) -> bool
    requires { source.now ≡ division }
{
    match encode(alloc, source) {
        Ok(bytes) => {
            bytes.as_slice() == DIVISION.as_slice() && is_so(alloc, &bytes, &Asked::Same(source))
        }
        Err(_) => false,
    }
}

fn division_is_written(alloc: Global) -> bool {
    match division_module(alloc) {
        Ok(module) => is_written(alloc, &module),
        Err(_) => false,
    }
}

#[test]
fn what_is_written_is_read_again(rt: HostRuntime) {
    assert!(rt; division_is_written(rt.alloc()));
}
