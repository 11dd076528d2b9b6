//! What is run.

ghost use Rattle.std.specs.Prelude.{◌≡◌, ◌≤◌, [], length};
ghost use Rattle.wasm_syntax.specs.Module.{IsModule};

use host_set::ScriptHosts;
use std::alloc::Global;
use std::marker::Model;
use wasm_syntax::{Reply, Value};
use wasm_validate::Validated;

/// An invocation of a module, with the replies that its host gave.
#[derive(Drop)]
pub struct Recorded<'a> {
    pub source: &'a Validated,
    /// The name of an exported function.
    pub entry: &'a str,
    pub args: &'a [Value],
    /// They serve all imports, in order.
    pub replies: &'a [Reply],
    /// How many frames there may be at once.
    pub depth: u32,
    /// How many steps may be made.
    pub fuel: u64,
}

impl<'a> Model for Recorded<'a> {
    ghost use Rattle.replay.specs.Replays.{Recording};

    ghost Value = { Recording };

    ghost view = { λ r. record {
      module_ = r.source.now;
      entry = r.entry.now;
      args = r.args.now;
      replies = r.replies.now;
      depth = r.depth;
      fuel = r.fuel;
    } };
}

impl<'a> Recorded<'a> {
    pub(crate) fn source(&self) -> &'a Validated
        ensures { result.now ≡ self.now.module_ }
    {
        self.source
    }

    pub(crate) fn entry(&self) -> &'a str
        ensures { result.now ≡ self.now.entry }
    {
        self.entry
    }

    pub(crate) fn args(&self) -> &'a [Value]
        ensures { result.now ≡ self.now.args }
    {
        self.args
    }

    /// How many frames there may be at once.
    pub(crate) fn depth(&self) -> u32
        ensures { result ≡ self.now.depth }
    {
        self.depth
    }

    /// How many steps may be made.
    pub(crate) fn fuel(&self) -> u64
        ensures { result ≡ self.now.fuel }
    {
        self.fuel
    }

    /// A host side that gives the replies from one of them on.
    pub(crate) fn hosts(&self, alloc: Global, first: u64) -> ScriptHosts<'a, 'a>
        requires { first ≤ length self.now.replies }
        ensures value { result ≡ record {
          imports = self.now.module_.imports;
          replies = self.now.replies;
          first = first;
          calls = [];
        } }
        ensures whole { IsModule self.now.module_ }
    {
        let imports = self.source.module().parts().imports.as_slice();
        ScriptHosts::new(alloc, imports, self.replies, first)
    }
}
