// A check sum of numbers: in 32 bits, times the prime of FNV, and the next number added.
// Inner: every function.
#![tactic(auto)]

ghost use Rattle.std.specs.Prelude.{◌≡◌};
ghost use Rattle.checksum.specs.Sum.{mixed, sum_of};

use word::{Number, add32, mul32};

#[tactic(auto, unfolding(crate::specs::Sum::mixed))]
fn mixed(h: i32, x: i32) -> i32
    ensures { result ≡ mixed h x }
{
    add32(mul32(h, 16777619), x)
}

// The sum h, with all of a slice added.
pub fn sum<T: Number>(h: i32, numbers: &[T]) -> i32
    ensures { result ≡ sum_of T.number h numbers.now }
{
    numbers.iter().fold(h, |s, x| mixed(s, x.number()))
}
