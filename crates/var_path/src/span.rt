//! The bytes in front of a text that are of one kind.

ghost use Rattle.std.specs.Prelude.{ℕ, Bool, ◌≡◌, not, ◌==◌};
ghost use Rattle.var_path.specs.Words as words;

/// A kind of bytes.
pub trait ByteKind {
    ghost holds: { ℕ → Bool };

    fn holds(byte: u8) -> bool
        ensures { result ≡ holds byte };
}

/// `*` and `(`.
pub struct Front;

impl ByteKind for Front {
    ghost holds = { words.is_front };

    fn holds(byte: u8) -> bool {
        byte == b'*' || byte == b'('
    }
}

/// Bytes of names.
pub struct NameByte;

impl ByteKind for NameByte {
    ghost holds = { words.is_name_byte };

    fn holds(byte: u8) -> bool {
        is_letter(byte) || byte.is_ascii_digit()
    }
}

/// Bytes in brackets.
pub struct Bracketed;

impl ByteKind for Bracketed {
    ghost holds = { words.is_bracketed };

    fn holds(byte: u8) -> bool {
        byte != b']'
    }
}

pub fn is_letter(byte: u8) -> bool
    ensures { result ≡ words.is_letter byte }
{
    matches!(byte, b'A'..=b'Z' | b'a'..=b'z' | b'_')
}

/// The bytes in front that are of a kind, and what stands behind them.
pub fn span<K: ByteKind>(text: &[u8]) -> (&[u8], &[u8])
    ensures front { result.0.now ≡ words.in_front K.holds text.now }
    ensures behind { result.1.now ≡ words.behind K.holds text.now }
{
    for (count, byte) in text.iter().enumerate() {
        if !K::holds(*byte) {
            return text.split_at(count);
        }
    }
    text.split_at(text.len())
}
