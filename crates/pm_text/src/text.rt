//! A text.

ghost use Rattle.std.specs.Prelude.{◌≡◌, ◌==◌, ◌++◌, [], length, take, nat_eq, IsOk, OnOk, OnErr, IfOk};
ghost use Rattle.std.specs.Cmp.{partial_equiv_from_equiv};
ghost use Rattle.std.specs.Cmp.Lexicographic.{pointwise, nat_list_eq_equiv};
ghost use Rattle.std.specs.Fmt.{signed_decimal, debug_str};
ghost use Rattle.std.specs.Str.{IsUtf8};
ghost use Rattle.std.specs.String.{string_bytes};
ghost use Rattle.std.specs.String.Boundary.{IsSplitPoint};
ghost use Rattle.pm_text.specs.Hex.{hex_padded};
ghost use Rattle.pm_text.specs.Names.{plain, quoted};

use crate::{hex, names};
use causes::NoMemory;
use itoa::Buffer;
use std::alloc::{AllocError, Global};
use std::fmt;
use std::marker::Model;

/// A text, which contracts see as its bytes.
#[derive(Drop)]
pub struct Text {
    string: String,
}

impl Model for Text {
    ghost use Rattle.std.specs.Prelude.{ℕ, List};
    ghost use Rattle.std.specs.String.{string_bytes};

    ghost Value = { List ℕ };

    ghost view = { λ t. string_bytes t.string };
}

/// Takes a string back to its old length, in bytes, where the writing behind it failed.
fn settled(
    string: &mut String,
    old_len: usize,
    written: Result<(), AllocError>,
) -> Result<(), NoMemory>
    requires { IsSplitPoint (string_bytes string.old) old_len }
    ensures ok { OnOk result (IsOk written × (string_bytes string.new ≡ string_bytes string.old)) }
    ensures err { OnErr result (string_bytes string.new ≡ take old_len (string_bytes string.old)) }
{
    if written.is_ok() {
        return Ok(());
    }
    string.truncate(old_len);
    Err(NoMemory)
}

impl Text {
    /// The empty text, which takes no memory.
    pub fn new(alloc: Global) -> Self
        ensures { result ≡ [] }
    {
        Text {
            string: String::new(alloc),
        }
    }

    /// A copy of a text.
    pub fn from_str(alloc: Global, s: &str) -> Result<Self, NoMemory>
        ensures { IfOk result (λ t. t ≡ s.now) }
    {
        Ok(Text {
            string: String::from_str(alloc, s)?,
        })
    }

    /// The text in a string, which is moved and not copied.
    pub fn from_string(string: String) -> Self
        ensures { result ≡ string_bytes string }
    {
        Text { string }
    }

    /// The string itself.
    pub fn into_string(self) -> String
        ensures { string_bytes result ≡ self }
    {
        self.string
    }

    pub fn as_str(&self) -> &str
        ensures value { result.now ≡ self.now }
        ensures utf8 { IsUtf8 self.now }
    {
        self.string.as_str()
    }

    pub fn as_bytes(&self) -> &[u8]
        ensures { result.now ≡ self.now }
    {
        self.string.as_bytes()
    }

    /// The length in bytes.
    pub fn len(&self) -> usize
        ensures { result ≡ length self.now }
    {
        self.string.len()
    }

    pub fn is_empty(&self) -> bool
        ensures { result ≡ (length self.now == 0) }
    {
        self.string.is_empty()
    }

    /// Adds a text at the end.
    pub fn push_str(&mut self, s: &str) -> Result<(), NoMemory>
        ensures ok { OnOk result (self.new ≡ self.old ++ s.now) }
        ensures err { OnErr result (self.new ≡ self.old) }
    {
        self.string.push_str(s)?;
        Ok(())
    }

    /// Adds a number in decimal digits, with a `-` in front of one below 0.
    pub fn push_decimal(&mut self, v: i128) -> Result<(), NoMemory>
        ensures ok { OnOk result (self.new ≡ self.old ++ signed_decimal v) }
        ensures err { OnErr result (self.new ≡ self.old) }
    {
        self.push_str(Buffer::new().format(v))
    }

    /// Adds a number in lower-case hexadecimal digits, with zeros in front up to `digits` digits. A
    /// number that has more digits is written whole.
    pub fn push_hex(&mut self, v: u64, digits: u32) -> Result<(), NoMemory>
        ensures ok { OnOk result (self.new ≡ self.old ++ hex_padded digits v) }
        ensures err { OnErr result (self.new ≡ self.old) }
    {
        let old_len = self.string.len();
        let written = hex::write_padded(&mut self.string, v, digits);
        settled(&mut self.string, old_len, written)
    }

    /// Adds a name between quotation marks. `"` and `\` have a `\` before them, and a byte below
    /// 0x20 or 0x7F is `\` and two lower-case hexadecimal digits. In a name that is not UTF-8 each
    /// byte from 0x80 on is written so too.
    pub fn push_quoted(&mut self, s: &[u8]) -> Result<(), NoMemory>
        ensures ok { OnOk result (self.new ≡ self.old ++ quoted s.now) }
        ensures err { OnErr result (self.new ≡ self.old) }
    {
        let old_len = self.string.len();
        let written = names::write_quoted(&mut self.string, s);
        settled(&mut self.string, old_len, written)
    }

    /// Adds a name without marks, in which `"` stands as it is. All else is as in `push_quoted`.
    pub fn push_plain(&mut self, s: &[u8]) -> Result<(), NoMemory>
        ensures ok { OnOk result (self.new ≡ self.old ++ plain s.now) }
        ensures err { OnErr result (self.new ≡ self.old) }
    {
        let old_len = self.string.len();
        let written = names::write_plain(&mut self.string, s);
        settled(&mut self.string, old_len, written)
    }
}

impl PartialEq for Text {
    ghost eq = { λ x y. pointwise nat_eq x y };

    ghost laws = { partial_equiv_from_equiv nat_list_eq_equiv };

    fn eq(&self, other: &Self) -> bool {
        self.as_str() == other.as_str()
    }
}

impl Eq for Text {
    ghost laws = { nat_list_eq_equiv };
}

impl fmt::Debug for Text {
    ghost debug_output = { λ t. debug_str t };

    fn fmt<W: fmt::Write>(&self, f: &mut fmt::Formatter<W>) -> fmt::Result {
        fmt::Debug::fmt(&self.as_str(), f)
    }
}
