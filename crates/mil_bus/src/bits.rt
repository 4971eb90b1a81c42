//! Bits of a mask.
ghost use Rattle.std.specs.Int.{bit_at};
ghost use Rattle.std.specs.Prelude.{◌≡◌, ℕ, ◌<◌, ◌≤◌, false};

/// The place of the lowest bit that is set in a mask, from a place on; 32 or more where there is none.
#[inline]
pub fn next_set(mask: u32, from: usize) -> usize
    requires { from ≤ 32 }
    ensures from { from ≤ result }
    ensures none_between { (k : ℕ) → from ≤ k → k < result → k < 32 → bit_at mask k ≡ 0 }
    ensures there { result < 32 → bit_at mask result ≡ 1 }
{
    from + (u64::from(mask) >> from).trailing_zeros() as usize
}

/// The mask with one bit more, where that is on.
#[inline]
pub fn with_bit(mask: u32, place: usize, on: bool) -> u32
    requires { place < 32 }
    ensures kept { (k : ℕ) → bit_at result k ≡ 0 → bit_at mask k ≡ 0 }
    ensures there { bit_at result place ≡ 0 → on ≡ false }
{
    if on { mask | 1 << place } else { mask }
}
