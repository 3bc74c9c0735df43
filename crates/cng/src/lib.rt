// Comfort noise (cng.rs).
// Inner: every function but silk_cng and announced.
#![tactic(auto)]

ghost use Rattle.std.specs.Prelude.{◌≡◌, true, false, ◌++◌, ◌+◌, ◌-◌, ◌*◌, ◌^◌, ◌≤◌, ◌<◌, pos, ◌+ℤ◌, length, drop, get_or, replicate};
ghost use Rattle.word.specs.Int.{floor_div, mod_ℤ, sat16};
ghost use Rattle.word.specs.Tabulate.{tabulate};
ghost use Rattle.sigproc.specs.Synthesis.{played};
ghost use Rattle.nlsf.specs.Lines.{negative_line};
ghost use Rattle.nlsf.specs.Filter.{nlsf2a};
ghost use Rattle.shape.specs.Order.{size};
ghost use Rattle.shape.specs.Shape.{shape as shape_at, is_rate, is_count, rate_of, count_of, order_of};
ghost use Rattle.decoder.specs.Ranges.{cng_fits};
ghost use Rattle.decoder.specs.State.{shape_of};
ghost use Rattle.cng.specs.Noise.{flat_line, cng_reset, cng_ready, smoothed_line, smoothed_lines, loudest, next_gain, smoothed_gain, moved_in, tracked, noise_gain, exc_mask, Mask, seed_at, drawn, noise_signal, silenced, sounded, sounding, heard_noise, comfort_noise};
ghost use Rattle.cng.specs.Answer.{cng_answer, cng_output};
ghost use Rattle.cng.specs.Announced.{Announced};

use decoder::{SilkCNGState, SilkDecoderControl, SilkDecoderState};
use macros::{silk_add_sat16, silk_rand, silk_smultt, silk_smulwb, silk_smulww, silk_sqrt_approx};
use nlsf::{largest_by, nlsf2a};
use refusal::Refusal;
use shape::{FrameShape, Order, Rate, count_of};
use sigproc::{copy_at, played_sample, synthesis};
use word::{add32, bits32, low16, shl32, shr32, sub32, wide16};

fn flat_line(order: Order, i: usize) -> i16
    requires { i < size order }
    ensures { result ≡ flat_line (size order) i }
{
    ((i + 1) * (32767 / (order.size() + 1))) as i16
}

// As many lines of a flat spectrum as the order says.
fn flat_lines(lines: &mut [i16; 16], order: Order)
    ensures { lines.new ≡ tabulate (size order) (flat_line (size order)) ++ drop (size order) lines.old }
{
    for (i, line) in lines[..order.size()].iter_mut().enumerate() {
        *line = flat_line(order, i);
    }
}

fn silk_cng_reset(h: &mut SilkCNGState, shape: FrameShape)
    ensures { h.new ≡ cng_reset (rate_of shape.fs_khz) h.old }
{
    flat_lines(&mut h.cng_smth_nlsf_q15, shape.order());
    h.cng_smth_gain_q16 = 0;
    h.rand_seed = 3176576;
    h.fs_khz = shape.fs_khz;
}

// Noise at its rate: reset if it held another.
fn ready(h: &mut SilkCNGState, shape: FrameShape)
    ensures { h.new ≡ cng_ready (rate_of shape.fs_khz) h.old }
{
    if shape.fs_khz != h.fs_khz {
        silk_cng_reset(h, shape);
    }
}

fn smoothed_line(held: i16, line: i16) -> i16
    ensures { result ≡ smoothed_line held line }
{
    low16(add32(
        wide16(held),
        silk_smulwb(sub32(wide16(line), wide16(held)), 16348),
    ))
}

fn smoothed_lines(held: &mut [i16; 16], lines: [i16; 16], order: Order)
    ensures { held.new ≡ smoothed_lines held.old lines (size order) }
{
    // Not a zip: after one over `iter_mut` only the length of held is known.
    for (i, line) in held[..order.size()].iter_mut().enumerate() {
        *line = smoothed_line(*line, lines[i]);
    }
}

// The place of the largest gain.
fn loudest(gains: &[i32]) -> usize
    ensures { result ≡ (loudest gains.now (length gains.now)).place }
{
    largest_by(gains, |g| g).place
}

fn next_gain(held: i32, g: i32) -> i32
    ensures { result ≡ next_gain held g }
{
    let next = add32(held, silk_smulwb(sub32(g, held), 4634));
    if silk_smulww(next, 46396) > g {
        g
    } else {
        next
    }
}

fn smoothed_gain(held: i32, gains: &[i32]) -> i32
    ensures { result ≡ smoothed_gain held gains.now (length gains.now) }
{
    gains.iter().fold(held, |gain, g| next_gain(gain, *g))
}

// Subframe k, of l samples, in front of the held ones. Not a FrameShape: tried, and each product and place below then needs an answer, six in all, which these bounds prove alone.
fn moved_in(held: &mut [i32; 320], exc: &[i32; 320], l: usize, n: usize, k: usize)
    requires { (l ≤ 80) × (n ≤ 4) × (k < n) }
    ensures { held.new ≡ moved_in l n exc.now held.old k }
{
    let a = k * l;
    let b = a + l;
    let m = (n - 1) * l;
    // Not by `copy_within`, which would ask of a program that links the archive for a memmove.
    let before = *held;
    copy_at(held, 0, &exc[a..b]);
    copy_at(held, l, &before[..m]);
}

// The background followed.
fn tracked(
    h: &mut SilkCNGState,
    exc: &[i32; 320],
    lines: [i16; 16],
    gains: &[i32; 4],
    shape: FrameShape,
)
    ensures { h.new ≡ tracked (shape_at shape.fs_khz shape.nb_subfr) exc.now lines gains.now h.old }
{
    let l = Rate::subfr_length(shape.fs_khz);
    let n = count_of(shape.nb_subfr);
    let gains = &gains[..n];
    moved_in(&mut h.cng_exc_buf_q14, exc, l, n, loudest(gains));
    smoothed_lines(&mut h.cng_smth_nlsf_q15, lines, shape.order());
    h.cng_smth_gain_q16 = smoothed_gain(h.cng_smth_gain_q16, gains);
}

fn noise_gain(scale: i16, last: i32, smoothed: i32) -> i32
    ensures { result ≡ noise_gain scale last smoothed }
{
    let g = silk_smulww(wide16(scale), last);
    if (g >= 2097152) | (smoothed > 8388608) {
        return shl32(
            silk_sqrt_approx(sub32(silk_smultt(smoothed, smoothed), shl32(silk_smultt(g, g), 5))),
            16,
        );
    }
    shl32(
        silk_sqrt_approx(sub32(silk_smulww(smoothed, smoothed), shl32(silk_smulww(g, g), 5))),
        8,
    )
}

// The mask for n samples: as many bits set, up to 8, as give a number no larger than n.
fn exc_mask(n: usize) -> usize
    ensures { (result ≡ exc_mask n) × Mask result }
{
    (1 << (n.min(255) + 1).ilog2()) - 1
}

// A place of the held excitation by the top bits of a number.
fn draw(seed: i32, mask: usize) -> usize
    requires { Mask mask }
    ensures { (result ≡ mod_ℤ (floor_div seed (2 ^ 24)) (mask + 1)) × (result ≤ 255) }
{
    (bits32(shr32(seed, 24)) as usize) & mask
}

// Each place of out drawn from the held excitation, and the generator after them.
fn drawn(out: &mut [i32], exc: &[i32; 320], mask: usize, seed: i32) -> i32
    requires { Mask mask }
    ensures { (result ≡ seed_at seed (length out.old)) × (out.new ≡ drawn exc.now mask seed (length out.old)) }
{
    let mut s = seed;
    for x in out.iter_mut() {
        s = silk_rand(s);
        *x = exc[draw(s, mask)];
    }
    s
}

// The filter of the lines, with zeros after it.
fn noise_filter(lines: [i16; 16], order: Order, edition: i32) -> [i16; 16]
    requires { negative_line lines (size order) ≡ false }
    ensures { result ≡ nlsf2a edition lines (size order) ++ drop (size order) (replicate 16 (pos 0)) }
{
    let mut a = [0; 16];
    nlsf2a(&mut a[..order.size()], &lines, order, edition);
    a
}

// The memory and the noise after it, and the generator after them.
fn noise_signal(buf: &mut [i32], h: &SilkCNGState, order: Order, edition: i32) -> i32
    requires { (16 ≤ length buf.old) × (negative_line h.now.cng_smth_nlsf_q15 (size order) ≡ false) }
    ensures { (result ≡ seed_at h.now.rand_seed (length buf.old - 16)) × (buf.new ≡ noise_signal edition (size order) h.now (length buf.old - 16)) }
{
    let m = buf.len();
    let n = m - 16;
    copy_at(buf, 0, &h.cng_synth_state);
    let seed = drawn(
        &mut buf[16..m],
        &h.cng_exc_buf_q14,
        exc_mask(n),
        h.rand_seed,
    );
    let a = noise_filter(h.cng_smth_nlsf_q15, order, edition);
    synthesis(buf, &a, order);
    seed
}

// Each sample of a signal, played by a gain and added to the frame.
fn added(frame: &mut [i16], signal: &[i32], gain: i32)
    requires { length signal.now ≡ length frame.old }
    ensures { frame.new ≡ tabulate (length frame.old) (λ i. sat16 (get_or frame.old i (pos 0) +ℤ played gain (get_or signal.now i (pos 0)))) }
{
    let gain_q10 = shr32(gain, 6);
    // Not a zip: after one over `iter_mut` only the length of the frame is known.
    for (i, x) in frame.iter_mut().enumerate() {
        *x = silk_add_sat16(*x, played_sample(signal[i], gain_q10));
    }
}

// As many places of the memory zeroed as the order says.
fn silenced(h: &mut SilkCNGState, order: Order)
    ensures { h.new ≡ silenced (size order) h.old }
{
    h.cng_synth_state[..order.size()].fill(0);
}

// A received frame: in one without voice activity the background is followed.
pub fn received(
    h: &mut SilkCNGState,
    exc: &[i32; 320],
    lines: [i16; 16],
    gains: &[i32; 4],
    shape: FrameShape,
    signal_type: i32,
)
    ensures { h.new ≡ heard_noise (shape_at shape.fs_khz shape.nb_subfr) exc.now lines gains.now signal_type h.old }
{
    ready(h, shape);
    match signal_type {
        0 => tracked(h, exc, lines, gains, shape),
        _ => {}
    }
    silenced(h, shape.order());
}

// Noise added to a lost frame. Not a FrameShape, though both callers could give one: it would ask that the count is one, which nothing here reads; the 2 below stands for it.
pub fn lost(h: &mut SilkCNGState, khz: i32, edition: i32, scale: i16, last: i32, frame: &mut [i16])
    requires { (is_rate khz ≡ true) × (cng_fits (rate_of khz) h.old ≡ true) × (length frame.old ≤ 320) }
    ensures { (h.new ≡ sounded edition (order_of (rate_of khz)) (cng_ready (rate_of khz) h.old) (length frame.old))
        × (frame.new ≡ sounding edition (order_of (rate_of khz)) scale last (cng_ready (rate_of khz) h.old) (length frame.old) frame.old) }
{
    let shape = FrameShape {
        fs_khz: khz,
        nb_subfr: 2,
    };
    ready(h, shape);
    let n = frame.len();
    let m = 16 + n;
    let mut buf = [0; 336];
    let seed = noise_signal(&mut buf[..m], h, shape.order(), edition);
    added(
        frame,
        &buf[16..m],
        noise_gain(scale, last, h.cng_smth_gain_q16),
    );
    copy_at(&mut h.cng_synth_state, 0, &buf[n..m]);
    h.rand_seed = seed;
}

// Comfort noise for a whole frame. The shape's facts are clauses of the state's own fields: a FrameShape beside the state could be another one.
fn comfort_noise(s: SilkDecoderState, gains: &[i32; 4], frame: &mut [i16]) -> SilkDecoderState
    requires { (is_rate s.fs_khz ≡ true) × (is_count s.nb_subfr ≡ true) × (cng_fits (rate_of s.fs_khz) s.s_cng ≡ true) × (length frame.old ≤ 320) }
    ensures { record { state = result; frame = frame.new } ≡ comfort_noise (shape_of s) s gains.now (length frame.old) frame.old }
{
    let shape = FrameShape {
        fs_khz: s.fs_khz,
        nb_subfr: s.nb_subfr,
    };
    let mut s_cng = s.s_cng;
    if s.loss_cnt == 0 {
        received(
            &mut s_cng,
            &s.exc_q14,
            s.prev_nlsf_q15,
            gains,
            shape,
            s.prev_signal_type,
        );
    } else {
        let plc = s.s_plc;
        let settings = s.settings;
        lost(
            &mut s_cng,
            s.fs_khz,
            settings.edition,
            plc.rand_scale_q14,
            plc.prev_gain_q16[1],
            frame,
        );
    }
    SilkDecoderState { s_cng, ..s }
}

// Comfort noise as a call on the first n samples of a buffer: refused, it changes nothing. By value, as document 01 has it.
pub fn silk_cng(
    s: SilkDecoderState,
    c: SilkDecoderControl,
    frame: &mut [i16],
    n: usize,
) -> Result<SilkDecoderState, Refusal>
    ensures { (result ≡ cng_answer s c frame.old n) × (frame.new ≡ cng_output s c frame.old n) }
{
    judge::cng(&s, &c, frame.len(), n)?;
    let gains = c.gains_q16;
    Ok(comfort_noise(s, &gains, &mut frame[..n]))
}

// The filter from lines is the one that noise has from the same lines, under the same edition.
#[tactic(auto, using(crate::proofs::Filters::announced))]
pub fn announced()
    ensures { Announced }
{}
