//! The numbers of a self-test.

ghost use Rattle.std.specs.Prelude.{◌≡◌};
ghost use Rattle.selftest_command.specs.Selftest.{next as next_number, odd as with_low_bit};

/// The number behind another one.
pub fn next(r: u32) -> u32
    ensures { result ≡ next_number r }
{
    r.wrapping_mul(1_103_515_245).wrapping_add(12_345)
}

/// A number with its lowest bit set.
pub fn odd(r: u32) -> u32
    ensures { result ≡ with_low_bit r }
{
    r / 2 * 2 + 1
}
