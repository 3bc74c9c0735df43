// The stability test of a short-term filter (lpc_analysis.rs).
// Inner: every function but silk_lpc_inverse_pred_gain, silk_lpc_inverse_pred_gain_under and same_answer.
#![tactic(auto)]

ghost use Rattle.std.specs.Prelude.{◌≡◌, ◌||◌, ◌++◌, map, ◌-◌, ◌≤◌, ◌<◌, ◌^◌, pos, ◌*ℤ◌, length, take, drop, replicate};
ghost use Rattle.word.specs.Int.{eq_ℤ, wrap32};
ghost use Rattle.edition.specs.Edition.{older};
ghost use Rattle.stability.specs.Stability.{a_limit, reflection, rc_mult1, next_gain, bit_length, rc_mult2, step_down, stepped, next_coefficients, fits32, all_fit, step, steps, total, stability, inverse_gain, test_refusal, tested_under, tested, answer_number, answer_value};
ghost use Rattle.stability.specs.Limit.{SameAnswer};

use edition::{NEWER, OLDER, is_edition};
use macros::{mul_q, silk_clz32, silk_inverse32_varq, silk_rshift_round64, silk_smmul, silk_smull};
use refusal::{Refusal, refuse_if};
use word::{abs32, add32, low32, map_into, neg32, shl32, sub32, wide};

const A_LIMIT: u32 = 16773022;

// Coefficients (Q12) that the test takes: one at least, and at most 16.
#[derive(Clone, Copy)]
pub struct Coefs<'a> {
    pub a_q12: &'a [i16],
    ghost some: { 1 ≤ length a_q12.now },
    ghost few: { length a_q12.now ≤ 16 },
}

// Why a filter has no inverse gain, with the place of the step's coefficient.
#[derive(Clone, Copy, Debug, PartialEq, Eq)]
pub enum Unstable {
    Sum,
    Coefficient(u8),
    Gain(u8),
    Overflow(u8),
}

// Document 02's number of an answer. A function, as the next one: no From can be written for a Result, which is not of this crate.
#[tactic(auto, unfolding(crate::specs::Stability::answer_number))]
pub fn answer_number(s: Result<i32, Unstable>) -> u8
    ensures { result ≡ answer_number s }
{
    match s {
        Ok(_) => 0,
        Err(Unstable::Sum) => 1,
        Err(Unstable::Coefficient(_)) => 2,
        Err(Unstable::Gain(_)) => 3,
        Err(Unstable::Overflow(_)) => 4,
    }
}

// The inverse gain (Q30), or the step's place.
#[tactic(auto, unfolding(crate::specs::Stability::answer_value))]
pub fn answer_value(s: Result<i32, Unstable>) -> i32
    ensures { result ≡ answer_value s }
{
    match s {
        Ok(gain) => gain,
        Err(Unstable::Sum) => 0,
        Err(Unstable::Coefficient(k)) => i32::from(k),
        Err(Unstable::Gain(k)) => i32::from(k),
        Err(Unstable::Overflow(k)) => i32::from(k),
    }
}

fn reflection(a: i32) -> i32
    ensures { result ≡ reflection a }
{
    neg32(shl32(a, 7))
}

// The Rust's names of two quantities.
#[tactic(auto, using(macros::proofs::Kept::words), unfolding(crate::specs::Stability::rc_mult1))]
fn rc_mult1(rc: i32) -> i32
    ensures { result ≡ rc_mult1 rc }
{
    sub32(1073741824, silk_smmul(rc, rc))
}

#[tactic(auto, using(macros::proofs::Kept::words), unfolding(crate::specs::Stability::next_gain))]
fn next_gain(rc: i32, gain: i32) -> i32
    ensures { result ≡ next_gain rc gain }
{
    shl32(silk_smmul(gain, rc_mult1(rc)), 2)
}

fn bit_length(m: i32) -> i32
    ensures { result ≡ pos (bit_length m) }
{
    sub32(32, silk_clz32(abs32(m)))
}

fn fits32(x: i64) -> bool
    ensures { result ≡ fits32 x }
{
    wide(low32(x)) == x
}

fn rc_mult2(m: i32, q: i32) -> i32
    requires { q ≡ pos (bit_length m) }
    ensures { result ≡ rc_mult2 m }
{
    silk_inverse32_varq(m, add32(q, 30))
}

#[tactic(auto, using(macros::proofs::Kept::words), unfolding(crate::specs::Stability::step_down))]
fn step_down(rc: i32, mult2: i32, q: i32, x: i32, y: i32) -> i64
    ensures { result ≡ step_down rc mult2 q x y }
{
    silk_rshift_round64(silk_smull(sub32(x, mul_q(y, rc, 31)), mult2), q)
}

// The two tests of the step at place k.
fn step(a: i32, gain: i32, k: u8) -> Result<i32, Unstable>
    ensures { result ≡ step a_limit a gain k }
{
    if a.unsigned_abs() > A_LIMIT {
        return Err(Unstable::Coefficient(k));
    }
    let next = next_gain(reflection(a), gain);
    if next < 107374 {
        return Err(Unstable::Gain(k));
    }
    Ok(next)
}

// The coefficients below place k after a step, in place from both ends; whether all are numbers of 32 bits.
// By place, since each turn changes two of one slice, and the halves of split_at_mut leave over the middle one of an odd k.
fn step_all(rc: i32, mult2: i32, q: i32, a: &mut [i32], k: usize) -> bool
    requires { k ≤ length a.old }
    ensures { (result ≡ all_fit (stepped rc mult2 q a.old k)) × (take k a.new ≡ map wrap32 (stepped rc mult2 q a.old k)) }
{
    let mut fits = true;
    for n in 0..(k + 1) / 2 {
        let x = a[n];
        let y = a[k - 1 - n];
        let u = step_down(rc, mult2, q, x, y);
        let v = step_down(rc, mult2, q, y, x);
        fits = fits & fits32(u) & fits32(v);
        a[n] = low32(u);
        a[k - 1 - n] = low32(v);
    }
    fits
}

// The step at place k, in place.
fn next_coefficients(a: &mut [i32], k: usize) -> bool
    requires { k < length a.old }
    ensures { (result ≡ all_fit (next_coefficients a.old k)) × (take k a.new ≡ map wrap32 (next_coefficients a.old k)) }
{
    let rc = reflection(a[k]);
    let m = rc_mult1(rc);
    let q = bit_length(m);
    step_all(rc, rc_mult2(m, q), q, a, k)
}

// Whether the test goes on after a step, whose coefficients all have 32 bits or not.
fn goes_on(edition: i32, fits: bool) -> bool
    ensures { result ≡ (eq_ℤ edition older || fits) }
{
    (edition == OLDER) | fits
}

// The steps from the last coefficient (Q24) to the first.
fn lpc_inverse_pred_gain_qa(mut a: [i32; 16], order: usize, edition: i32) -> Result<i32, Unstable>
    requires { (1 ≤ order) × (order ≤ 16) }
    ensures { result ≡ steps a_limit edition a (pos (2 ^ 30)) (order - 1) }
{
    let mut gain = 1073741824;
    // By place: a step's place is told where it ends the test, and the next step reads the coefficients below it.
    for k in (1..order).rev() {
        gain = step(a[k], gain, k as u8)?;
        let fits = next_coefficients(&mut a, k);
        if !goes_on(edition, fits) {
            return Err(Unstable::Overflow(k as u8));
        }
    }
    step(a[0], gain, 0)
}

// The coefficients added up.
fn dc_resp(c: Coefs) -> i32
    ensures { result ≡ total c.entry.a_q12.now (length c.entry.a_q12.now) }
{
    c.a_q12.iter().map(|x| i32::from(*x)).sum()
}

// The coefficients in Q24.
fn in_qa(c: Coefs) -> [i32; 16]
    ensures { result ≡ map (λ x. x *ℤ pos (2 ^ 12)) c.entry.a_q12.now ++ drop (length c.entry.a_q12.now) (replicate 16 (pos 0)) }
{
    let mut a_qa = [0; 16];
    map_into(c.a_q12, &mut a_qa[..c.a_q12.len()], |x| {
        shl32(i32::from(x), 12)
    });
    a_qa
}

// The test, for callers whose order is in range.
pub fn stable_or_why(c: Coefs, edition: i32) -> Result<i32, Unstable>
    ensures { result ≡ stability edition c.entry.a_q12.now }
{
    if dc_resp(c) >= 4096 {
        return Err(Unstable::Sum);
    }
    lpc_inverse_pred_gain_qa(in_qa(c), c.a_q12.len(), edition)
}

// Its inverse gain alone, 0 if there is none.
#[tactic(auto, unfolding(crate::specs::Stability::inverse_gain))]
pub fn inverse_pred_gain(c: Coefs, edition: i32) -> i32
    ensures { result ≡ inverse_gain (stability edition c.entry.a_q12.now) }
{
    stable_or_why(c, edition).unwrap_or(0)
}

// A lower limit changes no answer but those that become a step's coefficient.
#[tactic(auto, using(crate::proofs::Limits::same_answer))]
pub fn same_answer()
    ensures { SameAnswer }
{}

#[tactic(auto, unfolding(crate::specs::Stability::test_refusal, refusal::specs::First::first_of))]
fn judge(n: usize, order: usize, edition: i32) -> Result<(), Refusal>
    ensures { result ≡ test_refusal n order edition }
{
    refuse_if((order < 1) | (order > 16) | (n < order), Refusal::Order)?;
    refuse_if(!is_edition(edition), Refusal::Edition)
}

// The stability test as a call under an edition.
#[tactic(auto, using(refusal::proofs::Clear::answered_err, refusal::proofs::Clear::answered_ok), unfolding(crate::specs::Stability::tested_under))]
pub fn silk_lpc_inverse_pred_gain_under(
    a_q12: &[i16],
    order: usize,
    edition: i32,
) -> Result<Result<i32, Unstable>, Refusal>
    ensures { result ≡ tested_under a_q12.now order edition }
{
    judge(a_q12.len(), order, edition)?;
    let c = Coefs {
        a_q12: &a_q12[..order],
    };
    Ok(stable_or_why(c, edition))
}

// The same where no edition is named.
pub fn silk_lpc_inverse_pred_gain(
    a_q12: &[i16],
    order: usize,
) -> Result<Result<i32, Unstable>, Refusal>
    ensures { result ≡ tested a_q12.now order }
{
    silk_lpc_inverse_pred_gain_under(a_q12, order, NEWER)
}
