// Signal processing that the stages share (sigproc_fix.rs, and the synthesis of decode_core.rs, plc.rs and cng.rs).
// Inner: every function.
#![tactic(auto)]

ghost use Rattle.std.specs.Prelude.{◌≡◌, ◌+◌, ◌-◌, ◌*◌, ◌%◌, ◌^◌, ◌<◌, ◌≤◌, ◌++◌, map, length, take, drop, unsigned_abs};
ghost use Rattle.word.specs.Tabulate.{tabulate};
ghost use Rattle.macros.specs.Fixed.{smulwb};
ghost use Rattle.shape.specs.Order.{size};
ghost use Rattle.sigproc.specs.Place.{put_at, update_out_buf};
ghost use Rattle.sigproc.specs.Expand.{shrunk, bwexpander};
ghost use Rattle.sigproc.specs.Analysis.{products, residual, analysis};
ghost use Rattle.sigproc.specs.Energy.{energy_at, sum_sqr_shift};
ghost use Rattle.sigproc.specs.Synthesis.{ltp_prediction, prediction, synthesised, synthesis, played_q10, played};

use macros::{
    mul_q, silk_add_sat32, silk_lshift_sat32, silk_rshift_round, silk_smlawb, silk_smulbb,
    silk_smulwb, silk_smulww,
};
use shape::Order;
use word::{add32, low16, map_into, mul16, sat16, shl32, shr32, sub32, wide16};

// All of src, stored from place at on. le's `put_bytes` does this for bytes: each crate is without the other, and cites a definition of its own.
// By place: `copy_from_slice` asks a program that links the archive for memmove, since the compiler can't tell there that the two lie apart.
pub fn copy_at<T: Copy>(dst: &mut [T], at: usize, src: &[T])
    requires { at + length src.now ≤ length dst.old }
    ensures { dst.new ≡ put_at dst.old at src.now }
{
    for (i, x) in src.iter().enumerate() {
        dst[at + i] = *x;
    }
}

// The first d numbers new, and the others as they were held. Not an Order, which would serve 10 and 16 alone: callers have a number.
pub fn with_front(held: [i16; 16], new: [i16; 16], d: usize) -> [i16; 16]
    requires { d ≤ 16 }
    ensures { result ≡ take d new ++ drop d held }
{
    let mut r = held;
    r[..d].copy_from_slice(&new[..d]);
    r
}

// The buffer rotated by a frame's length, and the frame at the end of a history of mem samples.
#[tactic(auto, unfolding(crate::specs::Place::rotate_left, crate::specs::Place::update_out_buf))]
pub fn update_out_buf(ob: [i16; 480], mem: usize, xq: &[i16]) -> [i16; 480]
    requires { (length xq.now ≤ mem) × (mem ≤ 480) }
    ensures { result ≡ update_out_buf ob mem xq.now }
{
    let n = xq.len();
    let mut new = ob;
    // Two copies: the library's rotate_left clears 4 kB of room first.
    new[..480 - n].copy_from_slice(&ob[n..]);
    new[480 - n..].copy_from_slice(&ob[..n]);
    copy_at(&mut new, mem - n, xq);
    new
}

fn shrunk(f: i32, x: i16) -> i16
    ensures { result ≡ shrunk f x }
{
    low16(mul_q(f, wide16(x), 16))
}

// Any d up to 16, as the Rust's: an Order would serve 10 and 16 alone.
pub fn silk_bwexpander(ar: &mut [i16; 16], d: usize, chirp_q16: i32)
    requires { d ≤ 16 }
    ensures { ar.new ≡ bwexpander chirp_q16 ar.old d }
{
    let mut f = chirp_q16;
    for a in ar[..d].iter_mut() {
        *a = shrunk(f, *a);
        f = mul_q(f, chirp_q16, 16);
    }
}

#[tactic(auto, using(macros::proofs::Kept::words), unfolding(crate::specs::Analysis::products))]
fn products(x: &[i16], b: &[i16], i: usize) -> i32
    requires { (length b.now ≤ i) × (i ≤ length x.now) }
    ensures { result ≡ products x.now b.now i (length b.now) }
{
    let mut sum = 0;
    // By j, as the definition: over a zip with `x[..i].iter().rev()` a turn's two elements are known only by what both iterators have left.
    for (j, c) in b.iter().enumerate() {
        sum = add32(sum, silk_smulbb(wide16(x[i - 1 - j]), wide16(*c)));
    }
    sum
}

#[tactic(auto, using(macros::proofs::Kept::words, word::proofs::Words::wrap_add_l), unfolding(crate::specs::Analysis::residual))]
fn residual(x: &[i16], b: &[i16], i: usize) -> i16
    requires { (length b.now ≤ i) × (i < length x.now) }
    ensures { result ≡ residual x.now b.now (length b.now) i }
{
    sat16(silk_rshift_round(sub32(shl32(wide16(x[i]), 12), products(x, b, i)), 12))
}

// As long as its input by a clause, here and in the three maps below: a struct of both slices would be made for one call.
fn analysis_filter<const ORDER: usize>(out: &mut [i16], input: &[i16], b: &[i16; 16])
    requires { (ORDER ≤ 16) × (ORDER ≤ length input.now) × (length out.old ≡ length input.now) }
    ensures { out.new ≡ analysis input.now b.now ORDER }
{
    out[..ORDER].fill(0);
    for (i, x) in out[ORDER..].iter_mut().enumerate() {
        *x = residual(input, &b[..ORDER], ORDER + i);
    }
}

pub fn silk_lpc_analysis_filter(out: &mut [i16], input: &[i16], b: &[i16; 16], order: Order)
    requires { (size order ≤ length input.now) × (length out.old ≡ length input.now) }
    ensures { out.new ≡ analysis input.now b.now (size order) }
{
    match order {
        Order::Ten => analysis_filter::<10>(out, input, b),
        Order::Sixteen => analysis_filter::<16>(out, input, b),
    }
}

// A residual by the inverse of a gain.
pub fn weigh(to: &mut [i32], residual: &[i16], inverse: i32)
    requires { length to.old ≡ length residual.now }
    ensures { to.new ≡ map (smulwb inverse) residual.now }
{
    map_into(residual, to, |r| silk_smulwb(inverse, wide16(r)));
}

// Rewhitening: the residual of a history from place from on, by the inverse of a gain. The longest lag, 288, asks for 306 places of the history.
// The place stands beside the history, since the definition counts from its front.
pub fn rewhiten(
    to: &mut [i32],
    from: usize,
    history: &[i16],
    row: &[i16; 16],
    order: Order,
    inverse: i32,
)
    requires { (size order ≤ from) × (from + length to.old ≤ length history.now) × (size order + length to.old ≤ 320) }
    ensures { to.new ≡ tabulate (length to.old) (λ t. smulwb inverse (residual history.now row.now (size order) (from + t))) }
{
    let d = order.size();
    let start = from - d;
    let n = d + to.len();
    let mut room = [0; 320];
    let left = &mut room[..n];
    silk_lpc_analysis_filter(left, &history[start..start + n], row, order);
    weigh(to, &left[d..], inverse);
}

// The energy of samples: energy times 2 ^ shift.
#[derive(Clone, Copy)]
pub struct Energy {
    pub energy: i32,
    pub shift: i32,
}

#[tactic(auto, using(word::proofs::Words::kept))]
fn square(a: i16) -> u32
    ensures { (result ≡ unsigned_abs a * unsigned_abs a) × (result ≤ 2 ^ 30) }
{
    mul16(a, a) as u32
}

// Sums that leave the word wrap; none wraps at the shifts that silk_sum_sqr_shift takes.
fn energy_at(x: &[i16], s: u32) -> u32
    requires { s < 32 }
    ensures { (result ≡ energy_at x.now s % 2 ^ 32) × (2 ^ s * energy_at x.now s ≤ 2 ^ 30 * length x.now) }
{
    let mut sum: u32 = 0;
    // The squares of two samples are added up before the shift, and a last sample stands alone.
    let (pairs, last) = x.as_chunks::<2>();
    for pair in pairs {
        sum = sum.wrapping_add((square(pair[0]) + square(pair[1])) >> s);
    }
    if last.is_empty() {
        return sum;
    }
    sum.wrapping_add(square(last[0]) >> s)
}

pub fn silk_sum_sqr_shift(x: &[i16]) -> Energy
    requires { (1 ≤ length x.now) × (length x.now ≤ 320) }
    ensures { result ≡ sum_sqr_shift x.now }
{
    let n = x.len() as u32;
    let first = 31 - n.leading_zeros();
    let zeros = (n + energy_at(x, first)).leading_zeros();
    let shift = (first + 3).saturating_sub(zeros);
    Energy {
        energy: energy_at(x, shift) as i32,
        shift: shift as i32,
    }
}

// The long-term prediction from five values, p the place of the newest.
#[tactic(auto, using(macros::proofs::Kept::words), unfolding(crate::specs::Synthesis::ltp_prediction))]
pub fn ltp_prediction(past: &[i32], taps: &[i16; 5], p: usize) -> i32
    requires { (4 ≤ p) × (p < length past.now) }
    ensures { result ≡ ltp_prediction past.now taps.now p 5 }
{
    let mut sum = 2;
    // By j, as in products.
    for (j, tap) in taps.iter().enumerate() {
        sum = silk_smlawb(sum, past[p - j], wide16(*tap));
    }
    sum
}

// The newest sample comes last: it alone has to wait for the turn before.
fn prediction(s: &[i32], a: &[i16], at: usize) -> i32
    requires { (1 ≤ length a.now) × (length a.now ≤ 16) × (length a.now ≤ at) × (at ≤ length s.now) }
    ensures { result ≡ prediction s.now a.now (length a.now) at (length a.now) }
{
    let mut sum = (a.len() / 2) as i32;
    // By j, as in products.
    for (j, c) in a[1..].iter().enumerate() {
        sum = silk_smlawb(sum, s[at - 2 - j], wide16(*c));
    }
    silk_smlawb(sum, s[at - 1], wide16(a[0]))
}

#[tactic(auto, using(macros::proofs::Kept::words), unfolding(crate::specs::Synthesis::synthesised))]
fn synthesised(u: i32, p: i32) -> i32
    ensures { result ≡ synthesised u p }
{
    silk_add_sat32(u, silk_lshift_sat32(p, 4))
}

// A copy of the coefficients can stay in registers. That 16 places lie in front is a clause: the buffer is a part of a caller's, which no type holds.
fn synthesis_of_order<const ORDER: usize>(buf: &mut [i32], a: &[i16; 16])
    requires { (1 ≤ ORDER) × (ORDER ≤ 16) × (16 ≤ length buf.old) }
    ensures { buf.new ≡ synthesis (take 16 buf.old) (drop 16 buf.old) a.now ORDER (length buf.old - 16) }
{
    let coefs = *a;
    // A turn reads what the turns before it wrote.
    for i in 0..buf.len() - 16 {
        buf[16 + i] = synthesised(buf[16 + i], prediction(buf, &coefs[..ORDER], 16 + i));
    }
}

// The first 16 places hold the memory, the others the excitation, which the samples replace.
pub fn synthesis(buf: &mut [i32], a: &[i16; 16], order: Order)
    requires { 16 ≤ length buf.old }
    ensures { buf.new ≡ synthesis (take 16 buf.old) (drop 16 buf.old) a.now (size order) (length buf.old - 16) }
{
    match order {
        Order::Ten => synthesis_of_order::<10>(buf, a),
        Order::Sixteen => synthesis_of_order::<16>(buf, a),
    }
}

#[tactic(auto, using(macros::proofs::Kept::words), unfolding(crate::specs::Synthesis::played_q10))]
pub fn played_sample(s: i32, gain_q10: i32) -> i16
    ensures { result ≡ played_q10 gain_q10 s }
{
    sat16(silk_rshift_round(silk_smulww(s, gain_q10), 8))
}

// The samples s as they are played by a gain.
pub fn scale_out(xq: &mut [i16], s: &[i32], gain_q16: i32)
    requires { length xq.old ≡ length s.now }
    ensures { xq.new ≡ map (played gain_q16) s.now }
{
    let gain_q10 = shr32(gain_q16, 6);
    map_into(s, xq, |v| played_sample(v, gain_q10));
}
