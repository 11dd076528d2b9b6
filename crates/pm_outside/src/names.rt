//! Names of files that were created.

ghost use Rattle.std.specs.Prelude.{◌≡◌, [], take, length, Contains, OnOk, OnErr};
ghost use Rattle.std.specs.List.{list_any};
ghost use Rattle.std.specs.Str.{bytes_eq};
ghost use Rattle.std.specs.String.{string_bytes};
ghost use Rattle.pm_outside.specs.Created.{with_name};

use causes::NoMemory;
use std::alloc::Global;
use std::marker::Model;

/// Names, each of which stands once.
#[derive(Drop)]
pub(crate) struct Names {
    alloc: Global,
    names: Vec<String>,
}

impl Model for Names {
    ghost use Rattle.std.specs.Prelude.{ℕ, List, map};
    ghost use Rattle.std.specs.String.{string_bytes};

    ghost Value = { List (List ℕ) };

    ghost view = { λ n. map string_bytes n.names.items };
}

fn is_among(names: &[String], name: &str) -> bool
    ensures { result ≡ list_any (λ other. bytes_eq name.now (string_bytes other)) names.now }
{
    names.iter().any(|other| name == other.as_str())
}

impl Names {
    pub(crate) fn new(alloc: Global) -> Self
        ensures { result ≡ [] }
    {
        Names {
            alloc,
            names: Vec::new(alloc),
        }
    }

    pub(crate) fn len(&self) -> usize
        ensures { result ≡ length self.now }
    {
        self.names.len()
    }

    /// Adds a name, unless it stands there.
    pub(crate) fn add(&mut self, name: &str) -> Result<(), NoMemory>
        ensures added { OnOk result (self.new ≡ with_name self.old name.now) }
        ensures there { OnOk result (Contains self.new name.now) }
        ensures refused { OnErr result (self.new ≡ self.old) }
    {
        if !is_among(&self.names, name) {
            let name = String::from_str(self.alloc, name)?;
            self.names.push(name)?;
        }
        Ok(())
    }

    /// Drops all names behind the first `count`.
    pub(crate) fn truncate(&mut self, count: usize)
        ensures { self.new ≡ take count self.old }
    {
        self.names.truncate(count);
    }
}
