//! Whether what a dump shows of values can be values of some types.

ghost use Rattle.std.specs.Prelude.{◌≡◌, ◌++◌, length, replicate, IsTrue, ◌↔◌};
ghost use Rattle.wasm_syntax.specs.Module.{declared_locals};
ghost use Rattle.dump_match.specs.Values.{has_type as has_type_there, have_types as have_types_there, can_be};

use wasm_syntax::{LocalGroup, Seen, ValType};

/// Whether a value is missing, or of a type.
pub fn has_type(t: ValType, value: Seen) -> bool
    ensures { result ≡ has_type_there t value }
{
    match value {
        Seen::Missing => true,
        Seen::I32(_) => t.is_same(ValType::I32),
        Seen::I64(_) => t.is_same(ValType::I64),
    }
}

/// Whether values are as many as these types, and of these types.
fn have_types(types: &[ValType], values: &[Seen]) -> bool
    ensures { result ≡ have_types_there types.now values.now }
{
    if types.len() != values.len() {
        return false;
    }
    for i in 0..types.len() {
        if !has_type(types[i], values[i]) {
            return false;
        }
    }
    true
}

/// Whether all values are of one type.
fn all_have_type(t: ValType, values: &[Seen]) -> bool
    ensures { result ≡ have_types_there (replicate (length values.now) t) values.now }
{
    for i in 0..values.len() {
        if !has_type(t, values[i]) {
            return false;
        }
    }
    true
}

/// Whether values are as many as the locals of these groups, and of their types.
fn have_declared_types(groups: &[LocalGroup], values: &[Seen]) -> bool
    ensures { result ≡ have_types_there (declared_locals groups.now) values.now }
{
    let mut rest = values;
    for group in groups {
        let count = group.count as usize;
        if rest.len() < count {
            return false;
        }
        let (own, behind) = rest.split_at(count);
        if !all_have_type(group.vtype, own) {
            return false;
        }
        rest = behind;
    }
    rest.is_empty()
}

/// Whether recorded values can be the locals of a function with these parameters and groups.
pub fn can_be_locals(params: &[ValType], groups: &[LocalGroup], values: &[Seen]) -> bool
    ensures { result ≡ can_be (params.now ++ declared_locals groups.now) values.now }
{
    if values.is_empty() {
        return true;
    }
    if values.len() < params.len() {
        return false;
    }
    let (given, declared) = values.split_at(params.len());
    have_types(params, given) && have_declared_types(groups, declared)
}
