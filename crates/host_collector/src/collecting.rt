//! The host side that collects.

ghost use Rattle.std.specs.Prelude.{◌≡◌, ◌≤◌, [], ℕ, List, true, Some, slice_get};
ghost use Rattle.wasm_syntax.specs.declared.parts.FuncType.{FuncType as TypeValue};
ghost use Rattle.wasm_syntax.specs.declared.parts.Import.{Import as ImportValue};
ghost use Rattle.host_devices.specs.calls.HostSides.{Answers, HasCause, IsExhausted, IsOfType, KeepsUse, told};
ghost use Rattle.host_collector.specs.Collecting.{calls_of, is_told, is_used_up, serves};
ghost use Rattle.host_collector.specs.inner.Keeping.{Keeps};

use crate::imports::{collector_call, is_collected, is_told};
use host_devices::{HostAnswer, HostSide, empty_reply};
use linear_memory::Memory;
use pm_text::Items;
use std::alloc::Global;
use std::marker::Model;
use wasm_syntax::{CollectorCall, FuncType, HostCall, Import};

/// A host side that collects the calls of the collector's imports, and leaves all other imports to
/// another host side, which it never asks for one of module `coredump`.
///
/// Contracts see the other host side and the calls that were collected.
#[derive(Drop)]
pub struct Collecting<H> {
    alloc: Global,
    inner: H,
    calls: Items<CollectorCall>,
}

impl<H> Model for Collecting<H> {
    ghost use Rattle.host_collector.specs.Collecting.{CollectingState};

    ghost Value = { CollectingState H };

    ghost view = { λ c. record { inner = c.inner; calls = c.calls } };
}

impl<H> Collecting<H> {
    /// A host side that has collected nothing. It takes no memory.
    pub fn new(alloc: Global, inner: H) -> Self
        ensures { result ≡ record { inner = inner; calls = [] } }
    {
        Collecting {
            alloc,
            inner,
            calls: Items::new(alloc),
        }
    }

    /// The other host side, as it is.
    pub fn inner(&self) -> &H
        ensures { result.now ≡ self.now.inner }
    {
        &self.inner
    }

    /// The other host side, given back.
    pub fn into_inner(self) -> H
        ensures { result ≡ self.inner }
    {
        self.inner
    }

    /// The calls that were collected, in order.
    pub fn calls(&self) -> &[CollectorCall]
        ensures { result.now ≡ self.now.calls }
    {
        self.calls.as_slice()
    }

    pub(crate) fn alloc(&self) -> Global {
        self.alloc
    }

    /// Keeps a call.
    fn collect(&mut self, call: CollectorCall) -> HostAnswer
        ensures inner { self.new.inner ≡ self.old.inner }
        ensures kept { Keeps call result self.old.calls self.new.calls }
    {
        match self.calls.push(call) {
            Ok(()) => HostAnswer::Replied(empty_reply(self.alloc)),
            Err(_) => HostAnswer::NoMemory,
        }
    }
}

impl<H: HostSide> HostSide for Collecting<H> {
    ghost origin = { λ c. H.origin c.inner };

    ghost calls = { λ c. calls_of H.calls c };

    ghost collecting = { λ _. true };

    ghost serving = { λ c i t. serves H.serving c i t };

    ghost used_up = { λ c i. is_used_up H.used_up c i };

    ghost fault_count = { λ c name. H.fault_count c.inner name };

    fn serves(&self, import: &Import, ftype: &FuncType) -> bool {
        if is_told(import) {
            is_collected(import, ftype)
        } else {
            self.inner.serves(import, ftype)
        }
    }

    fn collects(&self) -> bool {
        true
    }

    fn call(&mut self, import: &Import, call: &HostCall, memory: Option<&Memory>) -> HostAnswer
        requires there { slice_get (H.origin self.old.inner).imports call.now.import
            ≡ Some import.now }
        requires served { (ftype : TypeValue) × (serves H.serving self.old import.now ftype ≡ true)
            × IsOfType ftype call.now }
        ensures calls { Answers (told true import.now call.now) call.now result
            (calls_of H.calls self.old) (calls_of H.calls self.new) }
        ensures untouched { is_told import.now ≡ true → self.new.inner ≡ self.old.inner }
        ensures exhausted { IsExhausted (is_used_up H.used_up self.old import.now) result }
        ensures used { KeepsUse result (is_used_up H.used_up self.old)
            (is_used_up H.used_up self.new) }
        ensures cause { HasCause import.now result (H.fault_count self.old.inner)
            (H.fault_count self.new.inner) }
        ensures later { (name : List ℕ)
            → H.fault_count self.old.inner name ≤ H.fault_count self.new.inner name }
        ensures serving { (i : ImportValue) (t : TypeValue)
            → serves H.serving self.new i t ≡ serves H.serving self.old i t }
        ensures origin { H.origin self.new.inner ≡ H.origin self.old.inner }
    {
        if !is_told(import) {
            return self.inner.call(import, call, memory);
        }
        match collector_call(import.name.as_str(), call.args.as_slice()) {
            Some(told) => self.collect(told),
            None => unreachable!(),
        }
    }
}
