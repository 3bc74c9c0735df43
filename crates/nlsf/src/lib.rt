// The filter from line frequencies (nlsf.rs, lpc_fit.rs, tables.rs).
// Inner: every function but silk_nlsf2a, silk_nlsf2a_under and lsf_cos_kept.
#![tactic(auto)]

mod tables;

ghost use Rattle.std.specs.Prelude.{◌≡◌, true, false, ◌++◌, min, ◌+◌, ◌-◌, ◌/◌, ◌≤◌, ◌<◌, ℤ, FitsSigned, pos, nat_abs, length, drop, replicate};
ghost use Rattle.std.specs.Int.{w32};
ghost use Rattle.std.specs.Int.Signed.{lt_z};
ghost use Rattle.word.specs.Int.{sat16};
ghost use Rattle.word.specs.Tabulate.{tabulate};
ghost use Rattle.edition.specs.Edition.{newer};
ghost use Rattle.shape.specs.Order.{size};
ghost use Rattle.nlsf.specs.Table.{lsf_cos_half, lsf_cos};
ghost use Rattle.nlsf.specs.Values.{LsfCosKept};
ghost use Rattle.nlsf.specs.Lines.{negative_line, lsf_cosine, ordering, cosines, times_factor, poly, even_term, odd_term, lpc_coefficient, coefficients_of};
ghost use Rattle.nlsf.specs.Expand.{next_factor, bwexpander32};
ghost use Rattle.nlsf.specs.Fit.{higher, largest_by, maxabs, fit_chirp, in_q12, rounded, saturated, lpc_fit};
ghost use Rattle.nlsf.specs.Filter.{round_chirp, stabilised, nlsf2a, nlsf2a_refusal, nlsf2a_of};

use edition::{NEWER, is_edition};
use macros::{mul_q, silk_rshift_round, silk_smulww};
use refusal::{Refusal, refuse_if};
use shape::Order;
use stability::{Coefs, inverse_pred_gain};
use tables::{ORDERING10, ORDERING16, SILK_LSF_COS_TAB_FIX_Q12};
use word::{abs32, add32, low16, map_into, mul32, neg32, sat16, shl32, sub32, wide16};

// The largest number found, and its place.
#[derive(Clone, Copy)]
pub struct Largest {
    pub size: i32,
    pub place: usize,
}

// The table up to a quarter turn.
#[tactic(auto, unfolding(crate::specs::Table::lsf_cos_half))]
pub fn lsf_cos_half() -> [i16; 65]
    ensures { result ≡ lsf_cos_half }
{
    SILK_LSF_COS_TAB_FIX_Q12
}

// Entry i of the table, above place 64 by its rule.
pub fn lsf_cos(i: usize) -> i16
    requires { i ≤ 128 }
    ensures { result ≡ lsf_cos i }
{
    if i > 64 {
        return -SILK_LSF_COS_TAB_FIX_Q12[128 - i];
    }
    SILK_LSF_COS_TAB_FIX_Q12[i]
}

// The 129 entries are those of tables.rs.
#[tactic(auto, using(crate::proofs::Values::lsf_cos_kept))]
pub fn lsf_cos_kept()
    ensures { LsfCosKept }
{}

// Twice the cosine of a line.
fn lsf_cosine(n: usize) -> i32
    requires { n < 32768 }
    ensures { result ≡ lsf_cosine n }
{
    let f_int = n / 256;
    let f_frac = (n % 256) as i32;
    let cos_val = wide16(lsf_cos(f_int));
    let delta = sub32(wide16(lsf_cos(f_int + 1)), cos_val);
    silk_rshift_round(add32(shl32(cos_val, 8), mul32(delta, f_frac)), 4)
}

// The place of line k of an order.
#[tactic(auto, using(crate::proofs::Lines::place16_lt, crate::proofs::Lines::place10_lt), unfolding(crate::specs::Lines::ordering, crate::specs::Lines::ordering10, crate::specs::Lines::ordering16))]
fn ordering(order: Order, k: usize) -> usize
    requires { k < size order }
    ensures { (result ≡ ordering (size order) k) × (result < 16) }
{
    match order {
        Order::Ten => usize::from(ORDERING10[k]),
        Order::Sixteen => usize::from(ORDERING16[k]),
    }
}

// One of the first d lines is negative.
fn negative_line(nlsf: &[i16], d: usize) -> bool
    requires { d ≤ length nlsf.now }
    ensures { result ≡ negative_line nlsf.now d }
{
    nlsf[..d].iter().any(|line| *line < 0)
}

// The cosines of an order's lines, each at its place.
fn cosines(nlsf: &[i16], order: Order) -> [i32; 16]
    requires { (size order ≤ length nlsf.now) × (negative_line nlsf.now (size order) ≡ false) }
    ensures { result ≡ cosines nlsf.now (size order) (size order) }
{
    let mut c = [0; 16];
    for (k, line) in nlsf[..order.size()].iter().enumerate() {
        let place = ordering(order, k);
        c[place] = lsf_cosine(usize::from(line.unsigned_abs()));
    }
    c
}

// Coefficient n, from 2 on, of a polynomial times a factor.
#[tactic(auto, using(macros::proofs::Kept::words, word::proofs::Words::wrap_add_l, crate::proofs::Polynomials::term_at), unfolding(crate::specs::Lines::poly_term))]
fn poly_term(f: i32, p: &[i32], n: usize) -> i32
    requires { (2 ≤ n) × (n < length p.now) }
    ensures { result ≡ times_factor f p.now n }
{
    sub32(add32(p[n], p[n - 2]), mul_q(f, p[n - 1], 16))
}

// A polynomial times a factor, in place from the end: by place, since each turn reads the two coefficients below its own.
fn times_factor(f: i32, p: &mut [i32])
    requires { 2 ≤ length p.old }
    ensures { p.new ≡ tabulate (length p.old) (times_factor f p.old) }
{
    for n in (2..p.len()).rev() {
        p[n] = poly_term(f, p, n);
    }
    p[1] = sub32(p[1], f);
}

// The product of dd factors, for the cosines at the places s, s + 2, ..
// By place: step_by over the cosines would stand under skip, take and enumerate, since each turn also lends a front of p that is one longer.
fn silk_nlsf2a_find_poly(c: &[i32; 16], s: usize, dd: usize) -> [i32; 9]
    requires { (s ≤ 1) × (1 ≤ dd) × (dd ≤ 8) }
    ensures { result ≡ poly c.now s (dd - 1) ++ drop (dd + 1) (replicate 9 (pos 0)) }
{
    let mut p = [0; 9];
    p[0] = 65536;
    p[1] = neg32(c[s]);
    for k in 0..dd - 1 {
        let f = c[2 * k + 2 + s];
        let n = k + 3;
        p[k + 2] = p[k];
        times_factor(f, &mut p[..n]);
    }
    p
}

#[tactic(auto, using(macros::proofs::Kept::words), unfolding(crate::specs::Lines::even_term))]
fn even_term(p: &[i32; 9], k: usize) -> i32
    requires { k ≤ 7 }
    ensures { result ≡ even_term p.now k }
{
    add32(p[k + 1], p[k])
}

#[tactic(auto, using(macros::proofs::Kept::words), unfolding(crate::specs::Lines::odd_term))]
fn odd_term(q: &[i32; 9], k: usize) -> i32
    requires { k ≤ 7 }
    ensures { result ≡ odd_term q.now k }
{
    sub32(q[k + 1], q[k])
}

// Coefficient i of an order (Q17) from the two polynomials.
#[tactic(auto, using(shape::proofs::Orders::size_even, shape::proofs::Orders::size_high))]
fn lpc_coefficient(p: &[i32; 9], q: &[i32; 9], order: Order, i: usize) -> i32
    requires { i < size order }
    ensures { result ≡ lpc_coefficient p.now q.now (size order) i }
{
    let d = order.size();
    if i < d / 2 {
        neg32(add32(odd_term(q, i), even_term(p, i)))
    } else {
        sub32(odd_term(q, d - 1 - i), even_term(p, d - 1 - i))
    }
}

fn lpc_coefficients(p: &[i32; 9], q: &[i32; 9], order: Order) -> [i32; 16]
    ensures { result ≡ tabulate (size order) (lpc_coefficient p.now q.now (size order)) ++ drop (size order) (replicate 16 (pos 0)) }
{
    let mut a = [0; 16];
    for (i, x) in a[..order.size()].iter_mut().enumerate() {
        *x = lpc_coefficient(p, q, order, i);
    }
    a
}

#[tactic(auto, using(macros::proofs::Kept::words, word::proofs::Words::wrap_mul_r), unfolding(crate::specs::Expand::next_factor))]
fn next_factor(chirp: i32, f: i32) -> i32
    ensures { result ≡ next_factor chirp f }
{
    add32(f, silk_rshift_round(mul32(f, sub32(chirp, 65536)), 16))
}

fn silk_bwexpander_32(ar: &mut [i32], chirp: i32)
    ensures { ar.new ≡ bwexpander32 chirp ar.old }
{
    let mut f = chirp;
    for x in ar.iter_mut() {
        *x = silk_smulww(f, *x);
        f = next_factor(chirp, f);
    }
}

// What was found, or a number at place k that is above it.
#[tactic(auto, using(macros::proofs::Kept::words, word::proofs::Order::lt_read), unfolding(crate::specs::Fit::higher))]
pub fn higher(p: Largest, v: i32, k: usize) -> Largest
    ensures { result ≡ higher p v k }
{
    if v > p.size {
        return Largest { size: v, place: k };
    }
    p
}

// The largest size above 0 of a slice's numbers, at the first place that has it.
pub fn largest_by<F: Fn(i32) -> i32>(a: &[i32], size: F) -> Largest
    requires { F.IsAlwaysCallable size }
    ensures { (h : ℤ → ℤ) → ((x y : ℤ) → FitsSigned w32 x → F.post size x y → y ≡ h x) → result ≡ largest_by h a.now (length a.now) }
{
    let none = Largest { size: 0, place: 0 };
    a.iter()
        .enumerate()
        .fold(none, |p, (k, x)| higher(p, size(*x), k))
}

fn maxabs(a: &[i32]) -> Largest
    ensures { result ≡ maxabs a.now (length a.now) }
{
    largest_by(a, abs32)
}

fn fit_chirp(m: usize, place: usize) -> i32
    requires { (32767 < m) × (m ≤ 163838) × (place < 16) }
    ensures { result ≡ fit_chirp m place }
{
    let num = (m - 32767) * 16384;
    let den = m * (place + 1) / 4;
    sub32(65470, (num / den) as i32)
}

#[tactic(auto, using(macros::proofs::Kept::words), unfolding(crate::specs::Fit::in_q12))]
fn in_q12(x: i32) -> i32
    ensures { result ≡ in_q12 x }
{
    silk_rshift_round(x, 5)
}

// Not a struct of the two slices here and in the two functions below: each would need a clause that the slices are still the caller's, in place of the clause of their lengths.
fn rounded(a_q12: &mut [i16], a: &[i32])
    requires { length a_q12.old ≡ length a.now }
    ensures { a_q12.new ≡ rounded a.now }
{
    map_into(a, a_q12, |x| low16(in_q12(x)));
}

fn saturated(a: &mut [i32])
    ensures { a.new ≡ (saturated a.old).q17 }
{
    for x in a.iter_mut() {
        *x = shl32(wide16(sat16(in_q12(*x))), 5);
    }
}

// The chirp for a largest coefficient m (Q12) at a place.
#[tactic(auto, using(macros::proofs::Kept::words, crate::proofs::Chirps::above))]
fn chirp_of(m: i32, place: usize) -> i32
    requires { (lt_z (pos 32767) m ≡ true) × (place < 16) }
    ensures { result ≡ fit_chirp (min (nat_abs m) 163838) place }
{
    fit_chirp((m as usize).min(163838), place)
}

// In place on the coefficients in Q17, and into those in Q12.
fn silk_lpc_fit(a_q12: &mut [i16], a: &mut [i32])
    requires { (length a_q12.old ≡ length a.old) × (length a.old ≤ 16) }
    ensures { record { q12 = a_q12.new; q17 = a.new } ≡ lpc_fit 10 a.old }
{
    // Rounds that read no number of their own.
    for _ in 0..10usize {
        let p = maxabs(a);
        let m = in_q12(p.size);
        if m > 32767 {
            silk_bwexpander_32(a, chirp_of(m, p.place));
        } else {
            rounded(a_q12, a);
            return;
        }
    }
    saturated(a);
    rounded(a_q12, a);
}

#[tactic(auto, using(macros::proofs::Kept::words, word::proofs::Sizes::difference_kept, crate::proofs::Chirps::round_shift_lem, crate::proofs::Chirps::round_le), unfolding(crate::specs::Filter::round_chirp))]
fn round_chirp(i: usize) -> i32
    requires { i < 16 }
    ensures { result ≡ round_chirp i }
{
    sub32(65536, shl32(2, i as i32))
}

// Bandwidth expansion until the coefficients in Q12 are stable.
fn stabilise(a_q12: &mut [i16], a: &mut [i32], edition: i32)
    requires { (length a_q12.old ≡ length a.old) × (1 ≤ length a.old) × (length a.old ≤ 16) }
    ensures { record { q12 = a_q12.new; q17 = a.new } ≡ stabilised edition 16 0 (record { q12 = a_q12.old; q17 = a.old }) }
{
    // A round's number gives its chirp.
    for i in 0..16 {
        if inverse_pred_gain(Coefs { a_q12: &*a_q12 }, edition) != 0 {
            return;
        }
        silk_bwexpander_32(a, round_chirp(i));
        rounded(a_q12, a);
    }
}

// The coefficients of an order in Q17 from the cosines of its lines.
fn from_cosines(c: &[i32; 16], order: Order) -> [i32; 16]
    ensures { result ≡ coefficients_of c.now (size order) ++ drop (size order) (replicate 16 (pos 0)) }
{
    let n = order.size() / 2;
    let p = silk_nlsf2a_find_poly(c, 0, n);
    let q = silk_nlsf2a_find_poly(c, 1, n);
    lpc_coefficients(&p, &q, order)
}

// The filter of an order's lines, for callers whose lines are in range.
pub fn nlsf2a(a_q12: &mut [i16], nlsf: &[i16], order: Order, edition: i32)
    requires { (length a_q12.old ≡ size order) × (size order ≤ length nlsf.now) × (negative_line nlsf.now (size order) ≡ false) }
    ensures { a_q12.new ≡ nlsf2a edition nlsf.now (size order) }
{
    let c = cosines(nlsf, order);
    let mut a = from_cosines(&c, order);
    let coefs = &mut a[..order.size()];
    silk_lpc_fit(a_q12, coefs);
    stabilise(a_q12, coefs, edition);
}

// Why the filter from lines refuses, with n places for the coefficients.
#[tactic(auto, using(crate::proofs::Accepted::lengths_refused), unfolding(crate::specs::Filter::nlsf2a_refusal, refusal::specs::First::first_of))]
fn judge(n: usize, nlsf: &[i16], order: Order, edition: i32) -> Result<(), Refusal>
    ensures { result ≡ nlsf2a_refusal n nlsf.now (size order) edition }
{
    let d = order.size();
    refuse_if((n < d) | (nlsf.len() < d), Refusal::Order)?;
    refuse_if(negative_line(nlsf, d), Refusal::Line)?;
    refuse_if(!is_edition(edition), Refusal::Edition)
}

// The filter from lines as a call under an edition: refused, it writes nothing.
pub fn silk_nlsf2a_under(
    a_q12: &mut [i16],
    nlsf: &[i16],
    d: usize,
    edition: i32,
) -> Result<(), Refusal>
    ensures { (result ≡ nlsf2a_refusal (length a_q12.old) nlsf.now d edition)
        × (a_q12.new ≡ nlsf2a_of a_q12.old nlsf.now d edition) }
{
    let Some(order) = Order::of(d) else {
        return Err(Refusal::Order);
    };
    judge(a_q12.len(), nlsf, order, edition)?;
    nlsf2a(&mut a_q12[..d], nlsf, order, edition);
    Ok(())
}

// The same where no edition is named.
pub fn silk_nlsf2a(a_q12: &mut [i16], nlsf: &[i16], d: usize) -> Result<(), Refusal>
    ensures { (result ≡ nlsf2a_refusal (length a_q12.old) nlsf.now d newer)
        × (a_q12.new ≡ nlsf2a_of a_q12.old nlsf.now d newer) }
{
    silk_nlsf2a_under(a_q12, nlsf, d, NEWER)
}
