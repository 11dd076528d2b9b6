//! Whether an entry may be invoked (Core 4.5.5).

ghost use Rattle.std.specs.Prelude.{◌≡◌, ◌<◌, ◌^◌, length, Some, IfOk};
ghost use Rattle.wasm_syntax.specs.Module.{function_export, same_types};
ghost use Rattle.wasm_syntax.specs.Numbers.{types};
ghost use Rattle.wasm_machine.specs.calls.Entries.{is_served, first_unserved, entry_fault};
ghost use Rattle.wasm_machine.specs.calls.Answers.{fault_in};
ghost use Rattle.wasm_machine.specs.inner.Callees.{is_entry, takes_arguments};

use host_devices::HostSide;
use wasm_syntax::{Export, ExportKind, Import, Module, ModuleParts, ValType, Value};
use wasm_validate::Validated;

/// Why an entry may not be invoked: no function is exported under its name; or the arguments are
/// not as many as its parameters, or not of their types; or the host side does not serve the import
/// of this index, the first such one.
#[derive(Clone, Copy, PartialEq, Eq)]
pub enum EntryFault {
    NoExport,
    BadArguments,
    Unserved { import: u32 },
}

/// Whether a function is exported under this name.
fn exports_function(export: &Export, entry: &str) -> bool
    ensures { result ≡ is_entry export.now entry.now }
{
    match export.kind {
        ExportKind::Function => export.name.as_str() == entry,
        ExportKind::Table | ExportKind::Memory | ExportKind::Global => false,
    }
}

/// The index of the function that is exported under a name.
fn entry_function(m: &ModuleParts, entry: &str) -> Option<u32>
    ensures { result ≡ function_export m.now entry.now }
{
    let exports = m.exports.as_slice();
    for export in exports {
        if exports_function(export, entry) {
            return Some(export.index);
        }
    }
    None
}

/// Whether values are as many as these types, and of these types.
fn have_types(params: &[ValType], args: &[Value]) -> bool
    ensures { result ≡ same_types params.now (types args.now) }
{
    if params.len() != args.len() {
        return false;
    }
    for i in 0..params.len() {
        if !params[i].is_same(args[i].type_of()) {
            return false;
        }
    }
    true
}

/// Whether a function takes these arguments.
fn takes(m: &ModuleParts, function: u32, args: &[Value]) -> bool
    ensures { result ≡ takes_arguments m.now function args.now }
{
    match m.type_of(function as usize) {
        Some(signature) => have_types(signature.params.as_slice(), args),
        None => false,
    }
}

/// Whether a host side serves an import with the type that the module gives it.
fn is_served<H: HostSide>(m: &ModuleParts, import: &Import, hosts: &H) -> bool
    ensures { result ≡ is_served (H.serving hosts.now) m.now import.now }
{
    match m.types.get(import.ftype as usize) {
        Some(ftype) => hosts.serves(import, ftype),
        None => false,
    }
}

/// The index of the first import that a host side does not serve.
fn first_unserved<H: HostSide>(m: &ModuleParts, hosts: &H) -> Option<u32>
    requires { length m.now.imports < 2 ^ 32 }
    ensures { result ≡ first_unserved (H.serving hosts.now) m.now }
{
    let mut index = 0;
    for import in m.imports.as_slice() {
        if !is_served(m, import, hosts) {
            return Some(index);
        }
        index += 1;
    }
    None
}

/// The function that an entry names, or why it may not be invoked.
pub(crate) fn callee<H: HostSide>(
    source: &Module,
    entry: &str,
    args: &[Value],
    hosts: &H,
) -> Result<u32, EntryFault>
    requires { length source.now.imports < 2 ^ 32 }
    ensures fault { fault_in result
        ≡ entry_fault (H.serving hosts.now) source.now entry.now args.now }
    ensures callee { IfOk result (λ f. function_export source.now entry.now ≡ Some f) }
{
    let m = source.parts();
    let Some(function) = entry_function(m, entry) else {
        return Err(EntryFault::NoExport);
    };
    if !takes(m, function, args) {
        return Err(EntryFault::BadArguments);
    }
    match first_unserved(m, hosts) {
        Some(import) => Err(EntryFault::Unserved { import }),
        None => Ok(function),
    }
}

/// Why an entry may not be invoked on these arguments with this host side, if it may not. It takes
/// no memory.
pub fn entry_fault<H: HostSide>(
    source: &Validated,
    entry: &str,
    args: &[Value],
    hosts: &H,
) -> Option<EntryFault>
    ensures { result ≡ entry_fault (H.serving hosts.now) source.now entry.now args.now }
{
    match callee(source.module(), entry, args, hosts) {
        Ok(_) => None,
        Err(fault) => Some(fault),
    }
}
