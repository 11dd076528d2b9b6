//! Visible variables (DWARF 4 sections 3.3, 3.4 and 4.1).

ghost use Rattle.std.specs.Prelude.{◌≡◌, IfOk};
ghost use Rattle.var_eval.specs.calls.Variables as definitions;

use causes::NoMemory;
use dwarf_entries::{Standing, name_or_empty};
use dwarf_info::{Sections5, Units};
use dwarf_scopes::variables_at;
use pm_text::Items;
use std::alloc::Global;
use wasm_bytes::Run;

/// A variable or a formal parameter.
#[derive(Drop)]
pub struct Variable<'a> {
    /// Empty where it has none.
    pub name: Run<'a>,
    /// The offset of its entry in the section.
    pub entry: u32,
}

/// Variables, those of outer scopes first.
pub type Variables<'a> = Items<Variable<'a>>;

fn variable_of<'r, 'a>(units: &'r Units<'a>, standing: &Standing<'r, 'a>) -> Variable<'a>
    ensures { result ≡ definitions.variable_of units.now standing.now }
{
    let name = name_or_empty(units, &standing.entry().attributes);
    Variable {
        name: Run::new(name),
        entry: standing.entry().at,
    }
}

/// The variables that are visible at an address, those of outer scopes first.
#[tactic(auto, unfolding(crate::specs::calls::Variables::visible))]
pub fn visible<'r, 'a>(
    alloc: Global,
    sections: &Sections5<'a>,
    units: &'r Units<'a>,
    address: u32,
) -> Result<Variables<'a>, NoMemory>
    ensures { IfOk result (λ all. all ≡ definitions.visible sections.now units.now address) }
{
    let Ok(standing) = variables_at(alloc, sections, units.as_slice(), address) else {
        return Err(NoMemory);
    };
    let mut variables = Items::new(alloc);
    for variable in standing.as_slice() {
        let Ok(()) = variables.push(variable_of(units, variable)) else {
            return Err(NoMemory);
        };
    }
    Ok(variables)
}
