//! Numbers as little-endian bytes.

ghost use Rattle.std.specs.Prelude.{◌≡◌, ◌+◌, ◌^◌, ◌<◌, ◌≤◌, length, replicate};
ghost use Rattle.linear_memory.specs.Memory.{from_bytes, to_bytes, window, splice};
ghost use Rattle.linear_memory.specs.calls.Paged.{IsWidth};

#[inline(always)]
pub(crate) fn read_word(bytes: &[u8], at: usize, width: usize) -> u64
    requires width { IsWidth width }
    requires inside { at + width ≤ length bytes.now }
    ensures value { result ≡ from_bytes (window bytes.now at width) }
    ensures fits { result < 256 ^ width }
{
    match width {
        1 => bytes[at] as u64,
        2 => u16::from_le_bytes([bytes[at], bytes[at + 1]]) as u64,
        4 => u32::from_le_bytes([bytes[at], bytes[at + 1], bytes[at + 2], bytes[at + 3]]) as u64,
        _ => u64::from_le_bytes([
            bytes[at],
            bytes[at + 1],
            bytes[at + 2],
            bytes[at + 3],
            bytes[at + 4],
            bytes[at + 5],
            bytes[at + 6],
            bytes[at + 7],
        ]),
    }
}

// Overwrites the bytes from `at` on.
#[inline(always)]
pub(crate) fn put(bytes: &mut [u8], at: usize, part: &[u8])
    requires { at + length part.now ≤ length bytes.old }
    ensures { bytes.new ≡ splice bytes.old at part.now }
{
    bytes[at..at + part.len()].copy_from_slice(part)
}

#[tactic(auto, using(crate::proofs::LowBytes::word_bytes))]
#[inline(always)]
pub(crate) fn write_word(bytes: &mut [u8], at: usize, width: usize, value: u64)
    requires width { IsWidth width }
    requires inside { at + width ≤ length bytes.old }
    ensures { bytes.new ≡ splice bytes.old at (to_bytes width value) }
{
    let word = value.to_le_bytes();
    match width {
        1 => put(bytes, at, &word[..1]),
        2 => put(bytes, at, &word[..2]),
        4 => put(bytes, at, &word[..4]),
        _ => put(bytes, at, &word),
    }
}

// Sets the `len` bytes from `at` on.
pub(crate) fn put_equal(bytes: &mut [u8], at: usize, byte: u8, len: usize)
    requires { at + len ≤ length bytes.old }
    ensures { bytes.new ≡ splice bytes.old at (replicate len byte) }
{
    bytes[at..at + len].fill(byte)
}
