// Sums, differences and powers that answer for every number, so that no caller has to show that they fit; and a copy to the front of a slice.
#![tactic(auto)]

ghost use Rattle.std.specs.Prelude.{◌≡◌, ◌+◌, ◌-◌, ◌≤◌, ◌<◌, ◌^◌, length, min, take};
ghost use Rattle.basics.specs.Counts.{capped, power_in};
ghost use Rattle.basics.specs.Lists.{filled};

// The largest number of 64 bits, at which counts stop.
pub const LARGEST: usize = usize::MAX;

// The smaller of `a` and `b`.
pub fn least(a: usize, b: usize) -> usize
    ensures { result ≡ min a b }
{
    a.min(b)
}

// `a` minus `b`; 0 where `b` is larger.
pub fn less(a: usize, b: usize) -> usize
    ensures { result ≡ a - b }
{
    a.saturating_sub(b)
}

// `at` plus `more`, which stops at the largest number of 64 bits.
pub fn later(at: usize, more: usize) -> usize
    ensures { result ≡ capped (at + more) }
{
    at.saturating_add(more)
}

// 2 to the power of `n`; 0 where that takes more than 64 bits. `checked_shl` takes a `u32`, so `n` would have to be tested all the same.
#[tactic(auto, unfolding(crate::specs::Counts::power_in))]
pub fn power(n: usize) -> u64
    ensures is { result ≡ power_in n }
    ensures fits { n < 64 → result ≡ 2 ^ n }
{
    if n < 64 { 1 << n } else { 0 }
}

// Copies `from` to the front of `to`, as much of it as has room there; what is behind stays as it was.
pub fn copy_front<T: Copy>(from: &[T], to: &mut [T])
    ensures is { to.new ≡ filled (take (length to.old) from.now) to.old }
    ensures whole { length from.now ≤ length to.old → to.new ≡ filled from.now to.old }
{
    let count = from.len().min(to.len());
    to[..count].copy_from_slice(&from[..count]);
}
