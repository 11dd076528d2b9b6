//! Bytes in parts between separators.

ghost use Rattle.std.specs.Prelude.{◌≡◌, ◌==◌, ◌∷◌, ◌+◌, ◌^◌, ◌<◌, ◌≤◌, length, position, IfSome};
ghost use Rattle.std.specs.List.{slice_split};
ghost use Rattle.host_replies.specs.inner.Parts.{parts_behind};

/// The offset of the first byte of this value.
pub fn offset_of(bytes: &[u8], separator: u8) -> Option<usize>
    ensures offset { result ≡ position (λ b. b == separator) bytes.now }
    ensures fits { length bytes.now < 2 ^ 64 }
{
    bytes.iter().position(|b| *b == separator)
}

/// The first part, and what stands behind the separator after it, where there is one.
pub fn first_part(bytes: &[u8], separator: u8) -> (&[u8], Option<&[u8]>)
    ensures parts { slice_split (λ b. b == separator) bytes.now
        ≡ result.0.now ∷ parts_behind separator result.1 }
    ensures inside { length result.0.now ≤ length bytes.now }
    ensures shorter { IfSome result.1 (λ rest. length rest.now + 1 ≤ length bytes.now) }
    ensures fits { length bytes.now < 2 ^ 64 }
{
    match offset_of(bytes, separator) {
        Some(at) => {
            let (part, behind) = bytes.split_at(at);
            (part, Some(&behind[1..]))
        }
        None => (bytes, None),
    }
}
