//! The imports of the collector: `value_i32(i32)`, `value_i64(i64)` and `frame(i32, i32, i32, i32)`
//! of module `coredump`, without results.

ghost use Rattle.std.specs.Prelude.{◌≡◌};
ghost use Rattle.wasm_syntax.specs.Host.{on_i32, on_i64, on_frame, collector_name};
ghost use Rattle.host_collector.specs.Collecting.{takes_i32, takes_i64, takes_frame, has_params, is_collected, is_told};

use wasm_syntax::{CollectorCall, FuncType, Import, ValType, Value};

/// Whether an import is of the collector's module.
pub(crate) fn is_told(import: &Import) -> bool
    ensures { result ≡ is_told import.now }
{
    import.module.as_str() == "coredump"
}

fn takes_i32(params: &[ValType]) -> bool
    ensures { result ≡ takes_i32 params.now }
{
    matches!(params, [ValType::I32])
}

fn takes_i64(params: &[ValType]) -> bool
    ensures { result ≡ takes_i64 params.now }
{
    matches!(params, [ValType::I64])
}

fn takes_frame(params: &[ValType]) -> bool
    ensures { result ≡ takes_frame params.now }
{
    matches!(
        params,
        [ValType::I32, ValType::I32, ValType::I32, ValType::I32]
    )
}

fn has_params(name: &str, params: &[ValType]) -> bool
    ensures { result ≡ has_params name.now params.now }
{
    if name == "value_i32" {
        takes_i32(params)
    } else if name == "value_i64" {
        takes_i64(params)
    } else if name == "frame" {
        takes_frame(params)
    } else {
        false
    }
}

/// Whether an import of the collector's module is one of the collector's, by its name and its type.
pub(crate) fn is_collected(import: &Import, ftype: &FuncType) -> bool
    ensures { result ≡ is_collected import.now ftype.now }
{
    has_params(import.name.as_str(), ftype.params.as_slice()) && ftype.results.is_empty()
}

fn on_i32(args: &[Value]) -> Option<CollectorCall>
    ensures { result ≡ on_i32 args.now }
{
    match args {
        [Value::I32(bits)] => Some(CollectorCall::ValueI32(*bits)),
        _ => None,
    }
}

fn on_i64(args: &[Value]) -> Option<CollectorCall>
    ensures { result ≡ on_i64 args.now }
{
    match args {
        [Value::I64(bits)] => Some(CollectorCall::ValueI64(*bits)),
        _ => None,
    }
}

fn on_frame(args: &[Value]) -> Option<CollectorCall>
    ensures { result ≡ on_frame args.now }
{
    match args {
        [
            Value::I32(kind),
            Value::I32(function),
            Value::I32(offset),
            Value::I32(locals),
        ] => {
            Some(CollectorCall::Frame {
                kind: *kind,
                function: *function,
                offset: *offset,
                locals: *locals,
            })
        }
        _ => None,
    }
}

/// The call that an import of this name is on these arguments.
pub(crate) fn collector_call(name: &str, args: &[Value]) -> Option<CollectorCall>
    ensures { result ≡ collector_name name.now args.now }
{
    if name == "value_i32" {
        on_i32(args)
    } else if name == "value_i64" {
        on_i64(args)
    } else if name == "frame" {
        on_frame(args)
    } else {
        None
    }
}
