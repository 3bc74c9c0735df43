// What concealment keeps of a received frame, its reset, and where it draws noise from (plc.rs: silk_plc_reset, silk_plc_update, silk_plc_energy).
// Inner: every function but silk_plc_received.
ghost use Rattle.std.specs.Prelude.{◌≡◌, [], ◌∷◌, ◌+◌, ◌-◌, ◌*◌, ◌^◌, ◌≤◌, ◌<◌, pos, nat_abs, length, take, drop, get_or};
ghost use Rattle.std.specs.Int.Signed.{lt_z, quot_z};
ghost use Rattle.word.specs.Int.{sat16, wrap16, floor_div, mod_ℤ, max_ℤ};
ghost use Rattle.macros.specs.Fixed.{smulww, smulbb};
ghost use Rattle.sigproc.specs.Energy.{sum_sqr_shift};
ghost use Rattle.shape.specs.Shape.{shape, rate_of, count_of};
ghost use Rattle.decoder.specs.State.{shape_of};
ghost use Rattle.plc.specs.Hold.{shape_at, plc_ready};
ghost use Rattle.plc.specs.Update.{stronger, strongest, scaled_tap, pulse_of, middle, plc_updated, updated_by, plc_update};
ghost use Rattle.plc.specs.Answer.{plc_received};
ghost use Rattle.plc.specs.Conceal.{heard_by, place_from};

use decoder::{Params, Signal, SilkDecoderControl, SilkDecoderState, SilkPLCState, is_voiced};
use judge::tap_sum;
use macros::{silk_div32, silk_max_32, silk_smulbb, silk_smulww};
use refusal::Refusal;
use shape::{Rate, rate_of};
use sigproc::{Energy, silk_sum_sqr_shift, with_front};
use word::{low16, map_into, mul32, sat16, shl32, shr32};

// If its rate differs, concealment resets.
// The rate and the count stand apart in this file: received frames come by functions that hold at every number of kHz, and a FrameShape asks for one of the rates.
pub fn ready(h: SilkPLCState, khz: i32, subframes: usize) -> SilkPLCState
    requires { subframes ≤ 4 }
    ensures { result ≡ plc_ready (shape_at khz subframes) h }
{
    let rate = rate_of(khz) as i32;
    if rate == h.fs_khz {
        return h;
    }
    SilkPLCState {
        pitch_l_q8: (Rate::subfr_length(khz) * subframes * 128) as i32,
        prev_gain_q16: [65536, 65536],
        fs_khz: rate,
        nb_subfr: 2,
        subfr_length: 20,
        ..h
    }
}

// Excitation as it was played by a gain (Q10).
fn heard_sample(e: i32, gain_q10: i32) -> i16
    ensures { result ≡ sat16 (floor_div (smulww e gain_q10) (2 ^ 8)) }
{
    sat16(shr32(silk_smulww(e, gain_q10), 8))
}

fn heard(part: &mut [i16], exc: &[i32], gain_q16: i32)
    requires { length part.old ≡ length exc.now }
    ensures { part.new ≡ heard_by gain_q16 exc.now }
{
    let gain_q10 = shr32(gain_q16, 6);
    map_into(exc, part, |e| heard_sample(e, gain_q10));
}

fn heard_energy(exc: &[i32], at: usize, l: usize, gain_q16: i32) -> Energy
    requires { (1 ≤ l) × (l ≤ 80) × (at + l ≤ length exc.now) }
    ensures { result ≡ sum_sqr_shift (heard_by gain_q16 (take l (drop at exc.now))) }
{
    let mut part = [0; 80];
    let end = at + l;
    heard(&mut part[..l], &exc[at..end], gain_q16);
    silk_sum_sqr_shift(&part[..l])
}

fn older_smaller(old: Energy, new: Energy) -> bool
    ensures { result ≡ lt_z (floor_div old.energy (2 ^ mod_ℤ new.shift 32)) (floor_div new.energy (2 ^ mod_ℤ old.shift 32)) }
{
    shr32(old.energy, new.shift) < shr32(new.energy, old.shift)
}

// 128 samples before the end of k subframes of l samples.
fn before_end(k: usize, l: usize) -> usize
    requires { k * l ≤ 320 }
    ensures { result ≡ k * l - 128 }
{
    (k * l).saturating_sub(128)
}

// Where noise is drawn from; m and held are the subframes that concealment holds and their length. By numbers, since it holds at every length and count: a
// FrameShape would ask callers for one of the rates and for 2 or 4 subframes.
pub fn noise_place(exc: &[i32], gains: [i32; 2], l: usize, n: usize, m: usize, held: usize) -> usize
    requires { (1 ≤ l) × (l ≤ 80) × (2 ≤ n) × (n ≤ 4) × (1 ≤ m) × (m ≤ 4) × (held ≤ 80) × (length exc.now ≡ 320) }
    ensures { result ≡ place_from (heard_by (get_or gains 0 (pos 0)) (take l (drop ((0 + n - 2) * l) exc.now))) (heard_by (get_or gains 1 (pos 0)) (take l (drop ((1 + n - 2) * l) exc.now))) (pos m) (pos held) }
{
    let old = heard_energy(exc, (n - 2) * l, l, gains[0]);
    let new = heard_energy(exc, (n - 1) * l, l, gains[1]);
    if older_smaller(old, new) {
        before_end(m - 1, held)
    } else {
        before_end(m, held)
    }
}

// The largest sum of a subframe's taps, and the pitch (Q8) there.
#[derive(Clone, Copy)]
pub struct Strongest {
    pub gain: i32,
    pub pitch: i32,
}

#[tactic(auto, unfolding(crate::specs::Update::stronger))]
fn stronger(b: Strongest, reached: bool, sum: i32, lag: i32) -> Strongest
    ensures { result ≡ stronger b reached sum lag }
{
    if reached {
        if b.gain < sum {
            return Strongest {
                gain: sum,
                pitch: shl32(lag, 8),
            };
        }
    }
    b
}

fn strongest_subframe(
    lags: &[i32; 4],
    taps: &[i16; 20],
    khz: i32,
    subframes: usize,
    pitch: i32,
) -> Strongest
    requires { (1 ≤ subframes) × (subframes ≤ 4) }
    ensures { result ≡ strongest (shape_at khz subframes) lags.now taps.now pitch subframes }
{
    let l = Rate::subfr_length(khz);
    let last = lags[subframes - 1];
    let mut b = Strongest { gain: 0, pitch };
    // By number, which tap_sum takes: from the newest subframe back, k, with j subframes behind it.
    for (j, k) in (0..subframes).rev().enumerate() {
        let start = (j * l) as i32;
        b = stronger(b, start < last, tap_sum(taps, k), lags[k]);
    }
    b
}

// The sum times whole / sum, a quotient with q places.
#[tactic(auto, using(crate::proofs::Numbers::max_one, macros::proofs::Normal::quot_fits))]
fn scaled_by(whole: i32, q: i32, sum: i32) -> i16
    requires { nat_abs whole < 2 ^ 31 }
    ensures { result ≡ wrap16 (floor_div (smulbb sum (quot_z whole (max_ℤ sum (pos 1)))) (2 ^ mod_ℤ q 32)) }
{
    low16(shr32(silk_smulbb(sum, silk_div32(whole, silk_max_32(sum, 1))), q))
}

// The sums that the middle tap is brought to: 11,469 with 10 places, 15,565 with 14.
const V_PITCH_GAIN_START_MIN_Q14: i32 = 11469;

const V_PITCH_GAIN_START_MAX_Q14: i32 = 15565;

fn scaled_tap(sum: i32) -> i16
    ensures { result ≡ scaled_tap sum }
{
    if sum < V_PITCH_GAIN_START_MIN_Q14 {
        scaled_by(11744256, 10, sum)
    } else if sum > V_PITCH_GAIN_START_MAX_Q14 {
        scaled_by(255016960, 14, sum)
    } else {
        low16(sum)
    }
}

// The middle tap and the pitch (Q8) to hold.
#[derive(Clone, Copy)]
pub struct Pulse {
    pub tap: i16,
    pub pitch: i32,
}

// The largest pitch (Q8): 18 ms.
#[tactic(auto, using(decoder::proofs::Tests::lag_q8))]
pub fn pitch_max_q8(khz: i32) -> i32
    ensures { result ≡ pos (4608 * rate_of khz) }
{
    mul32(256, Rate::lag_max(khz))
}

#[tactic(auto, unfolding(crate::specs::Update::pulse_of))]
fn pulse_of(voiced: bool, c: SilkDecoderControl, khz: i32, subframes: usize, pitch: i32) -> Pulse
    requires { (1 ≤ subframes) × (subframes ≤ 4) }
    ensures { result ≡ pulse_of (shape_at khz subframes) voiced c pitch }
{
    if voiced {
        let b = strongest_subframe(&c.pitch_l, &c.ltp_coef_q14, khz, subframes, pitch);
        return Pulse {
            tap: scaled_tap(b.gain),
            pitch: b.pitch,
        };
    }
    Pulse {
        tap: 0,
        pitch: pitch_max_q8(khz),
    }
}

// The middle tap alone.
fn middle(tap: i16) -> [i16; 5]
    ensures { result ≡ middle tap }
{
    [0, 0, tap, 0, 0]
}

// The last two of n gains.
fn last_gains(gains: [i32; 4], n: usize) -> [i32; 2]
    requires { (2 ≤ n) × (n ≤ 4) }
    ensures { result ≡ get_or gains (n - 2) (pos 0) ∷ get_or gains (n - 1) (pos 0) ∷ [] }
{
    [gains[n - 2], gains[n - 1]]
}

pub fn plc_updated(
    h: SilkPLCState,
    khz: i32,
    nb_subfr: i32,
    voiced: bool,
    c: SilkDecoderControl,
    row: [i16; 16],
) -> SilkPLCState
    requires { 2 ≤ count_of nb_subfr }
    ensures { result ≡ plc_updated (shape khz nb_subfr) voiced c row h }
{
    let n = shape::count_of(nb_subfr);
    let b = pulse_of(voiced, c, khz, n, h.pitch_l_q8);
    SilkPLCState {
        pitch_l_q8: b.pitch,
        ltp_coef_q14: middle(b.tap),
        prev_lpc_q12: with_front(h.prev_lpc_q12, row, Rate::lpc_order(khz)),
        prev_ltp_scale_q14: low16(c.ltp_scale_q14),
        prev_gain_q16: last_gains(c.gains_q16, n),
        nb_subfr: n as i32,
        subfr_length: Rate::subfr_length(khz) as i32,
        ..h
    }
}

// What concealment holds after a received frame.
pub fn received(
    held: SilkPLCState,
    khz: i32,
    nb_subfr: i32,
    signal: Signal,
    c: SilkDecoderControl,
    rows: [[i16; 16]; 2],
) -> SilkPLCState
    requires { 2 ≤ count_of nb_subfr }
    ensures { result ≡ updated_by (shape khz nb_subfr) signal c rows held }
{
    let h = ready(held, khz, shape::count_of(nb_subfr));
    plc_updated(h, khz, nb_subfr, is_voiced(signal), c, rows[1])
}

fn plc_update(
    s: SilkDecoderState,
    signal: Signal,
    c: SilkDecoderControl,
    rows: [[i16; 16]; 2],
) -> SilkDecoderState
    requires { 2 ≤ count_of s.nb_subfr }
    ensures { result ≡ plc_update (shape_of s) s signal c rows }
{
    SilkDecoderState {
        prev_signal_type: i32::from(signal),
        s_plc: received(s.s_plc, s.fs_khz, s.nb_subfr, signal, c, rows),
        ..s
    }
}

// A received frame as a call: refused, it changes nothing. By value, as document 01 has it.
#[tactic(auto, using(refusal::proofs::Clear::answered_err, refusal::proofs::Clear::answered_ok), unfolding(crate::specs::Answer::plc_received))]
pub fn silk_plc_received(
    s: SilkDecoderState,
    q: Params,
    c: SilkDecoderControl,
    rows: [[i16; 16]; 2],
) -> Result<SilkDecoderState, Refusal>
    ensures { result ≡ plc_received s q c rows }
{
    judge::plc_received(&s, q, &c)?;
    Ok(plc_update(s, q.signal, c, rows))
}
