//! The frames and the globals that calls hand over.

ghost use Rattle.std.specs.Prelude.{◌≡◌, IfOk, OnOk};
ghost use Rattle.host_collector.specs.inner.Gathering.{nothing, with_call, with_entry, with_value, gathered};

use causes::NoMemory;
use dump_format::{Frames, Values};
use dump_write::recorded_frame;
use pm_text::Items;
use std::alloc::Global;
use wasm_syntax::{CollectorCall, Value};

/// The frames of the entries that are closed, innermost first, and the values since.
#[derive(Drop)]
pub(crate) struct Gathered {
    pub frames: Frames,
    pub values: Values,
}

impl Gathered {
    fn add_value(&mut self, value: Value) -> Result<(), NoMemory>
        ensures { OnOk result (self.new ≡ with_value value self.old) }
    {
        self.values.push(value)
    }

    /// Closes an entry: the last values are its locals, the others its operands.
    fn close_entry(
        &mut self,
        alloc: Global,
        function: u32,
        offset: u32,
        locals: u32,
    ) -> Result<(), NoMemory>
        ensures { OnOk result (self.new ≡ with_entry function offset locals self.old) }
    {
        let values = self.values.as_slice();
        let (operands, locals) = values.split_at(values.len().saturating_sub(locals as usize));
        let frame = recorded_frame(alloc, function, offset, locals, operands)?;
        self.frames.push(frame)?;
        self.values.truncate(0);
        Ok(())
    }

    /// The last call, of kind 255, closes no entry: the values before it are the globals.
    fn add_call(&mut self, alloc: Global, call: CollectorCall) -> Result<(), NoMemory>
        ensures { OnOk result (self.new ≡ with_call call self.old) }
    {
        match call {
            CollectorCall::ValueI32(bits) => self.add_value(Value::I32(bits)),
            CollectorCall::ValueI64(bits) => self.add_value(Value::I64(bits)),
            CollectorCall::Frame { kind: 255, .. } => Ok(()),
            CollectorCall::Frame {
                function,
                offset,
                locals,
                ..
            } => self.close_entry(alloc, function, offset, locals),
        }
    }
}

/// What calls hand over.
pub(crate) fn gather(alloc: Global, calls: &[CollectorCall]) -> Result<Gathered, NoMemory>
    ensures { IfOk result (λ g. g ≡ gathered nothing calls.now) }
{
    let mut gathered = Gathered {
        frames: Items::new(alloc),
        values: Items::new(alloc),
    };
    for call in calls {
        gathered.add_call(alloc, *call)?;
    }
    Ok(gathered)
}
