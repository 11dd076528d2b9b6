//! Globals, segments and the bodies of functions (Core 5.5.9, 5.5.12 to 5.5.14).

ghost use Rattle.std.specs.Prelude.{◌≡◌, OnOk};
ghost use Rattle.wasm_bytes.specs.Place.{Moves};
ghost use Rattle.wasm_bytes.specs.Reading.{sized_run_item};
ghost use Rattle.wasm_bytes.specs.calls.Answers.{Gives};
ghost use Rattle.wasm_format.specs.Expressions.{code_item};
ghost use Rattle.wasm_format.specs.Sections.{global_item, element_item, segment_item, bodies_item};
ghost use Rattle.wasm_decode.specs.calls.Steps.{code_step, bodies_steps};

use crate::expression::{constant, expression};
use crate::form::{global_type, locals};
use crate::input::Input;
use pm_text::Items;
use std::alloc::Global;
use wasm_bytes::{Gather, ItemFault, Malformed, Noted, Noting, Run, gather_count};
use wasm_syntax::{Bodies, Body, DataSeg, ElementSeg, Global as GlobalPart};

/// A global (Core 5.5.9).
impl<'a> Noting<Input<'a>> for GlobalPart {
    type Value = GlobalPart;

    ghost item = { global_item };

    #[tactic(auto, unfolding(wasm_format::specs::Sections::global_item))]
    fn read(alloc: Global, input: &mut Input<'a>) -> Result<Noted<GlobalPart>, ItemFault> {
        let (vtype, mutable) = global_type(input)?;
        let init = constant(alloc, input)?;
        Ok(Noted {
            value: GlobalPart {
                vtype: vtype.value,
                mutable,
                init: init.value,
            },
            float: vtype.float.or(init.float),
        })
    }
}

/// An element segment (Core 5.5.12).
impl<'a> Noting<Input<'a>> for ElementSeg {
    type Value = ElementSeg;

    ghost item = { element_item };

    #[tactic(auto, unfolding(wasm_format::specs::Sections::element_item))]
    fn read(alloc: Global, input: &mut Input<'a>) -> Result<Noted<ElementSeg>, ItemFault> {
        let table = input.u32()?;
        let offset = constant(alloc, input)?;
        match input.item::<Items<u32>>(alloc) {
            Ok(functions) => Ok(Noted {
                value: ElementSeg {
                    table,
                    offset: offset.value,
                    functions,
                },
                float: offset.float,
            }),
            Err(fault) => {
                drop(offset);
                Err(fault)
            }
        }
    }
}

/// A copy of the bytes behind a size.
fn copied<'a>(alloc: Global, input: &mut Input<'a>) -> Result<Items<u8>, ItemFault>
    ensures item { Gives result input.new (sized_run_item input.old) }
    ensures moves { OnOk result (Moves input.old input.new) }
{
    let run = input.item::<Run<'a>>(alloc)?;
    Ok(Items::from_slice(alloc, run.as_slice())?)
}

/// A data segment (Core 5.5.14), whose bytes are copied once.
impl<'a> Noting<Input<'a>> for DataSeg {
    type Value = DataSeg;

    ghost item = { segment_item };

    #[tactic(auto, unfolding(wasm_format::specs::Sections::segment_item))]
    fn read(alloc: Global, input: &mut Input<'a>) -> Result<Noted<DataSeg>, ItemFault> {
        let memory = input.u32()?;
        let offset = constant(alloc, input)?;
        match copied(alloc, input) {
            Ok(bytes) => Ok(Noted {
                value: DataSeg {
                    memory,
                    offset: offset.value,
                    bytes,
                },
                float: offset.float,
            }),
            Err(fault) => {
                drop(offset);
                Err(fault)
            }
        }
    }
}

/// A code entry (Core 5.5.13) in a section whose contents begin at this offset.
#[tactic(auto, unfolding(wasm_format::specs::Expressions::code_item))]
fn code(alloc: Global, origin: u32, input: &mut Input<'_>) -> Result<Noted<Body>, ItemFault>
    ensures item { Gives result input.new (code_item origin input.old) }
    ensures moves { OnOk result (Moves input.old input.new) }
{
    let mut inner = input.open()?;
    let start = inner.at();
    let locals = locals(alloc, &mut inner)?;
    let expression = match expression(alloc, start, &mut inner) {
        Ok(expression) => expression,
        Err(fault) => {
            drop(locals);
            return Err(fault);
        }
    };
    match inner.end() {
        Ok(()) => Ok(Noted {
            value: Body {
                groups: locals.groups,
                ops: expression.ops,
                targets: expression.targets,
                start: start.saturating_sub(origin),
            },
            float: locals.float.or(expression.float),
        }),
        Err(Malformed { at }) => {
            drop(locals);
            drop(expression);
            Err(ItemFault::At(at))
        }
    }
}

/// Bodies in a section whose contents begin at an offset.
#[derive(Drop)]
pub struct CodeEntries {
    /// In bytes from the first byte of the input.
    pub origin: u32,
    pub bodies: Noted<Bodies>,
}

impl<'a> Gather<Input<'a>> for CodeEntries {
    ghost step = { code_step };

    #[tactic(auto, unfolding(crate::specs::calls::Steps::code_step))]
    fn take(&mut self, alloc: Global, input: &mut Input<'a>) -> Result<(), ItemFault> {
        let body = code(alloc, self.origin, input)?;
        self.bodies.value.push(body.value)?;
        self.bodies.float = self.bodies.float.or(body.float);
        Ok(())
    }
}

#[tactic(auto, unfolding(crate::specs::calls::Steps::bodies_steps))]
fn entries(alloc: Global, due: usize, input: &mut Input<'_>) -> Result<Noted<Bodies>, ItemFault>
    ensures item { Gives result input.new (bodies_steps due input.old) }
    ensures moves { OnOk result (Moves input.old input.new) }
{
    let origin = input.at();
    let count = input.u32()?;
    if count as usize != due {
        return Err(ItemFault::At(origin as usize));
    }
    let mut entries = CodeEntries {
        origin,
        bodies: Noted {
            value: Items::new(alloc),
            float: None,
        },
    };
    match gather_count(alloc, count, &mut entries, input) {
        Ok(()) => Ok(entries.bodies),
        Err(fault) => {
            drop(entries);
            Err(fault)
        }
    }
}

/// The contents of the code section, where so many bodies are due.
pub fn bodies(alloc: Global, due: usize, input: &mut Input<'_>) -> Result<Noted<Bodies>, ItemFault>
    ensures item { Gives result input.new (bodies_item due input.old) }
    ensures moves { OnOk result (Moves input.old input.new) }
{
    entries(alloc, due, input)
}
