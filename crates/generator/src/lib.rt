// The draws of silk_rand, leaps over them, and draws scaled into a range.
// Inner: every function but leap_of, undoing and leaps.
#![tactic(auto)]

ghost use Rattle.std.specs.Prelude.{◌≡◌, cond, ◌-◌, ◌%◌, eqb, pos, ◌+ℤ◌, length, map};
ghost use Rattle.std.specs.Int.{Width, w8, w16, w32};
ghost use Rattle.std.proofs.Common.{SFits};
ghost use Rattle.generator.specs.Draws.{drawn, unsigned};
ghost use Rattle.generator.specs.Scaled.{scaled, pick, picks};
ghost use Rattle.generator.specs.Leaps.{landed, joined, no_draw, one_draw, leap_of, undoing};
ghost use Rattle.generator.specs.Claims.{LeapDraws, LeapsAdd, LeapUndone, LeapPeriod};

use macros::silk_rand;
use word::{Number, add32, bits32, mul32, wide};

// A map from x to factor x + term, in 32 bits.
#[derive(Clone, Copy)]
pub struct Leap {
    pub factor: i32,
    pub term: i32,
}

#[tactic(auto, using(macros::proofs::Kept::words, word::proofs::Words::wrap_add_l), unfolding(crate::specs::Leaps::landed))]
pub fn landed(f: Leap, x: i32) -> i32
    ensures { result ≡ landed f x }
{
    add32(mul32(f.factor, x), f.term)
}

// One leap, then another.
#[tactic(auto, using(macros::proofs::Kept::words, word::proofs::Words::wrap_add_l), unfolding(crate::specs::Leaps::joined))]
pub fn joined(f: Leap, g: Leap) -> Leap
    ensures { result ≡ joined f g }
{
    let factor = mul32(g.factor, f.factor);
    let term = add32(mul32(g.factor, f.term), g.term);
    Leap { factor, term }
}

#[tactic(auto, unfolding(crate::specs::Leaps::no_draw))]
fn no_draw() -> Leap
    ensures { result ≡ no_draw }
{
    Leap { factor: 1, term: 0 }
}

#[tactic(auto, unfolding(crate::specs::Leaps::one_draw))]
fn one_draw() -> Leap
    ensures { result ≡ one_draw }
{
    Leap {
        factor: 196314165,
        term: 907633515,
    }
}

// A leap with another behind it, if the count of what is left is odd.
fn joined_if_odd(all: Leap, power: Leap, left: u64) -> Leap
    ensures { result ≡ cond (eqb (left % 2) 1) (joined all power) all }
{
    if left % 2 == 1 {
        joined(all, power)
    } else {
        all
    }
}

// A number of draws as one leap.
pub fn leap_of(draws: u64) -> Leap
    ensures { result ≡ leap_of draws }
{
    let mut all = no_draw();
    let mut power = one_draw();
    let mut left = draws;
    // Not `successors` under `take(64)`: the turns also carry two leaps, and that 64 are enough would have to be shown.
    while left > 0 {
        all = joined_if_odd(all, power, left);
        power = joined(power, power);
        left = left / 2;
    }
    all
}

// How many draws undo these.
#[tactic(auto, unfolding(crate::specs::Leaps::undoing))]
pub fn undoing(draws: u64) -> u64
    ensures { result ≡ undoing draws }
{
    4294967296 - draws % 4294967296
}

// The generator after a number of draws, in one leap.
#[tactic(auto, using(crate::proofs::Joining::leap_drawn))]
pub fn drawn(seed: i32, draws: u64) -> i32
    ensures { result ≡ drawn seed draws }
{
    landed(leap_of(draws), seed)
}

// A value of the generator, scaled into count values from low on.
#[tactic(auto, using(crate::proofs::Scales::share_lt, crate::proofs::Scales::sum_fits), unfolding(crate::specs::Scaled::scaled))]
fn scaled(low: i32, count: u32, x: i32) -> i64
    ensures { result ≡ scaled low count (unsigned x) }
{
    let share = u64::from(bits32(x)) * u64::from(count) / 4294967296;
    wide(low) + (share as i64)
}

// A signed number of a width, which a draw fits if both ends of its range do. Not TryFrom, which can fail: that the number fits is asked here.
pub trait Narrow: Number + Default {
    ghost width: { Width };

    fn narrowed(x: i64) -> Self
        requires { SFits width x }
        ensures { Self.number result ≡ x };
}

impl Narrow for i8 {
    ghost width = { w8 };

    fn narrowed(x: i64) -> i8 {
        x as i8
    }
}

impl Narrow for i16 {
    ghost width = { w16 };

    fn narrowed(x: i64) -> i16 {
        x as i16
    }
}

impl Narrow for i32 {
    ghost width = { w32 };

    fn narrowed(x: i64) -> i32 {
        x as i32
    }
}

// Draw at of a seed, scaled; the range is two numbers, since a struct with the fact in a ghost field would be made at each draw.
pub fn pick<T: Narrow>(seed: i32, at: u64, low: i32, count: u32) -> T
    requires { SFits T.width low × SFits T.width (low +ℤ pos (count - 1)) }
    ensures { T.number result ≡ pick low count seed at }
{
    T::narrowed(scaled(low, count, silk_rand(drawn(seed, at))))
}

// A slice filled with the draws from draw at on.
pub fn picks<T: Narrow>(seed: i32, at: u64, low: i32, count: u32, to: &mut [T])
    requires { SFits T.width low × SFits T.width (low +ℤ pos (count - 1)) }
    ensures { map T.number to.new ≡ picks low count seed at (length to.old) }
{
    let mut x = drawn(seed, at);
    for v in to.iter_mut() {
        x = silk_rand(x);
        *v = T::narrowed(scaled(low, count, x));
    }
}

// A leap of k draws is k single ones, leaps add, every leap has one that undoes it, and 2 ^ 32 draws are none.
#[tactic(auto, using(crate::proofs::Joining::leap_drawn, crate::proofs::Joining::times_add, crate::proofs::Joining::undone, crate::proofs::Joining::undone_before, crate::proofs::Joining::undone_at, crate::proofs::Joining::whole_periods, crate::proofs::Scales::drawn_add))]
pub fn leaps()
    ensures { LeapDraws × LeapsAdd × LeapUndone × LeapPeriod }
{}
