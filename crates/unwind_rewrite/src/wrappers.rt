//! The bodies of wrappers.

ghost use Rattle.std.specs.Prelude.{◌≡◌, ◌<◌, length, OnOk};
ghost use Rattle.wasm_syntax.specs.Module.{function_types};
ghost use Rattle.wasm_syntax.specs.declared.instruction.Basic.TheVariants.{GlobalGet as GlobalGetOf};
ghost use Rattle.wasm_syntax.specs.declared.instruction.Basic.TheVariants.{GlobalSet as GlobalSetOf};
ghost use Rattle.wasm_syntax.specs.Tree.{Unreachable, stop, basic, jump};
ghost use Rattle.rewrite_bodies.specs.Numbering.{value_import, frame_import, global_types};
ghost use Rattle.rewrite_bodies.specs.calls.Pieces.{const, i32, call};
ghost use Rattle.rewrite_modules.specs.calls.Wrappers.{get_all, tell_globals, lower_flag, after_wrapped};
ghost use Rattle.rewrite_modules.specs.calls.Wrappers.{wrapper_nodes};
ghost use Rattle.rewrite_code.specs.calls.Writing.{Emits, EmitsLast};

use causes::NoMemory;
use index_map::IndexMap;
use rewrite_code::{CodeWriter, renew};
use wasm_syntax::{Basic, Global, ValType, Value};

/// The flag, which has this index, is set to a number.
fn set_flag(writer: &mut CodeWriter, flag: u32, number: u32) -> Result<(), NoMemory>
    ensures { OnOk result (Emits (λ k. const (i32 number)
        (basic 0 (GlobalSetOf flag) k)) writer.old writer.new) }
{
    writer.const_value(Value::I32(number))?;
    writer.basic(Basic::GlobalSet(flag))
}

/// So many parameters.
fn get_all(writer: &mut CodeWriter, count: u32) -> Result<(), NoMemory>
    ensures { OnOk result (Emits (get_all 0 count) writer.old writer.new) }
{
    for x in 0..count {
        writer.basic(Basic::LocalGet(x))?;
    }
    Ok(())
}

/// A global with this number is handed over.
fn tell_global(
    map: &IndexMap<'_>,
    writer: &mut CodeWriter,
    index: u32,
    t: ValType,
) -> Result<(), NoMemory>
    ensures { OnOk result (Emits (λ k. basic 0 (GlobalGetOf index)
        (call (value_import map.now t) k)) writer.old writer.new) }
{
    writer.basic(Basic::GlobalGet(index))?;
    writer.call(map.value_import(t))
}

/// All globals of the module, the first one first.
fn tell_globals(
    map: &IndexMap<'_>,
    writer: &mut CodeWriter,
    globals: &[Global],
) -> Result<(), NoMemory>
    requires { globals.now ≡ map.now.globals }
    ensures { OnOk result (Emits (tell_globals map.now 0 (global_types map.now)) writer.old
        writer.new) }
{
    let count = map.flag();
    for x in 0..count {
        tell_global(map, writer, x, globals[x as usize].vtype)?;
    }
    Ok(())
}

/// The end of the dump: its kind, function and offset say that it is one, and it counts the
/// globals. The trap behind it leaves the flag down, since a host may go on with the instance.
fn end_dump(map: &IndexMap<'_>, writer: &mut CodeWriter) -> Result<(), NoMemory>
    ensures { OnOk result (EmitsLast
        (const (i32 255) (const (i32 0)
        (const (i32 0) (const (i32 (length map.now.globals))
        (call (frame_import map.now) (lower_flag map.now (jump 0 Unreachable stop))))))) writer.old
        writer.new) }
{
    // The flag stands behind the globals, so its index is their number.
    let flag = map.flag();
    writer.const_value(Value::I32(255))?;
    writer.const_value(Value::I32(0))?;
    writer.const_value(Value::I32(0))?;
    writer.const_value(Value::I32(flag))?;
    writer.call(map.frame_import())?;
    set_flag(writer, flag, 0)?;
    writer.unreachable()
}

/// Where the flag is up behind the call, the globals are handed over, and the dump is ended.
fn after_wrapped(
    map: &IndexMap<'_>,
    writer: &mut CodeWriter,
    globals: &[Global],
) -> Result<(), NoMemory>
    requires { globals.now ≡ map.now.globals }
    ensures { OnOk result (EmitsLast (after_wrapped map.now) writer.old writer.new) }
{
    writer.basic(Basic::GlobalGet(map.flag()))?;
    writer.open_if(None)?;
    tell_globals(map, writer, globals)?;
    end_dump(map, writer)?;
    writer.close()
}

/// The nodes of the wrapper of a function with so many parameters, in a module with these globals.
pub fn wrapper(
    map: &IndexMap<'_>,
    writer: &mut CodeWriter,
    globals: &[Global],
    function: u32,
    parameters: u32,
) -> Result<(), NoMemory>
    requires globals { globals.now ≡ map.now.globals }
    requires there { function < length (function_types map.now) }
    ensures { OnOk result (EmitsLast (wrapper_nodes map.now function parameters) writer.old
        writer.new) }
{
    set_flag(writer, map.flag(), 0)?;
    renew(map, writer)?;
    get_all(writer, parameters)?;
    writer.call(map.function(function))?;
    after_wrapped(map, writer, globals)
}
