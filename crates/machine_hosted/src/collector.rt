//! Which calls are calls of the collector.

ghost use Rattle.std.specs.Prelude.{◌≡◌, is_some, None, if◌then◌else◌};
ghost use Rattle.wasm_syntax.specs.Host.{on_i32, on_i64, on_frame, collector_name, collector_call, if_none};

use wasm_syntax::{Import, ValType, Value};

fn takes_i32(args: &[Value]) -> bool
    ensures { result ≡ is_some (on_i32 args.now) }
{
    matches!(args, [Value::I32(_)])
}

fn takes_i64(args: &[Value]) -> bool
    ensures { result ≡ is_some (on_i64 args.now) }
{
    matches!(args, [Value::I64(_)])
}

fn takes_frame(args: &[Value]) -> bool
    ensures { result ≡ is_some (on_frame args.now) }
{
    matches!(
        args,
        [Value::I32(_), Value::I32(_), Value::I32(_), Value::I32(_)]
    )
}

fn takes_by_name(name: &str, args: &[Value]) -> bool
    ensures { result ≡ is_some (collector_name name.now args.now) }
{
    if name == "value_i32" {
        takes_i32(args)
    } else if name == "value_i64" {
        takes_i64(args)
    } else if name == "frame" {
        takes_frame(args)
    } else {
        false
    }
}

fn takes(import: &Import, args: &[Value]) -> bool
    ensures { result ≡ is_some (collector_call import.now args.now) }
{
    if import.module.as_str() == "coredump" {
        takes_by_name(import.name.as_str(), args)
    } else {
        false
    }
}

/// Whether a call of an import, with a result of this type, is one of the collector, where these
/// are collected.
pub(crate) fn is_told(
    collects: bool,
    import: &Import,
    result_type: Option<ValType>,
    args: &[Value],
) -> bool
    ensures { result ≡ is_some (if collects then if_none result_type
        (collector_call import.now args.now) else None) }
{
    collects && result_type.is_none() && takes(import, args)
}
