// One judge for each set of document 01's rows.
// Inner: every function.
#![tactic(auto)]

ghost use Rattle.std.specs.Prelude.{◌≡◌, not, ◌+◌, ◌*◌, ◌<◌, ◌≤◌, pos, nat_abs, length};
ghost use Rattle.word.specs.Int.{eq_ℤ};
ghost use Rattle.refusal.specs.First.{first_of};
ghost use Rattle.shape.specs.Shape.{shape, rate_of, count_of};
ghost use Rattle.decoder.specs.Ranges.{within, lines_fit};
ghost use Rattle.decoder.specs.Rows.{state_rows, coming_rows};
ghost use Rattle.judge.specs.Taps.{tap_sum, taps_fit};
ghost use Rattle.judge.specs.Rows.{signal_row, gain_row, lag_row, taps_row, room_row, length_row, param_rows, description_rows, room_rows, loss_rows, received_rows, lost_rows, frame_rows, core_rows, plc_received_rows, plc_lost_rows, glue_rows, cng_rows};

use decoder::{
    Frame, Params, SilkDecoderControl, SilkDecoderState, all_within, history_row, is_type,
    is_voiced, lines_fit, rate_row, size_row, within,
};
use refusal::{Refusal, refuse_if};
use shape::{Rate, count_of, frame_length, is_count, is_rate};

// The five taps of subframe k, added up.
pub fn tap_sum(taps: &[i16], k: usize) -> i32
    requires { 5 * k + 5 ≤ length taps.now }
    ensures { (result ≡ tap_sum taps.now k) × (nat_abs result ≤ 163840) }
{
    let at = 5 * k;
    taps[at..at + 5].iter().map(|t| i32::from(*t)).sum()
}

fn run_full_row(loss_cnt: i32) -> bool
    ensures { result ≡ eq_ℤ loss_cnt (pos 2147483647) }
{
    loss_cnt == 2147483647
}

fn is_offset(n: i8) -> bool
    ensures { result ≡ within (pos 0) (pos 1) n }
{
    matches!(n, 0 | 1)
}

// 0 to 3 interpolate the lines, 4 does not.
fn is_interpolation(n: i8) -> bool
    ensures { result ≡ within (pos 0) (pos 4) n }
{
    matches!(n, 0..=4)
}

#[tactic(auto, using(decoder::proofs::Tests::words), unfolding(crate::specs::Rows::signal_row))]
fn signal_row(q: Params) -> bool
    ensures { result ≡ signal_row q }
{
    let signal = q.signal;
    let ok = is_type(signal)
        & is_offset(q.quant_offset_type)
        & is_interpolation(q.nlsf_interp_coef_q2);
    !ok
}

#[tactic(auto, using(decoder::proofs::Tests::words, shape::proofs::Shapes::count_le), unfolding(crate::specs::Rows::gain_row))]
fn gain_row(nb_subfr: i32, c: &SilkDecoderControl) -> bool
    ensures { result ≡ gain_row (count_of nb_subfr) c.now }
{
    !all_within(81920, 1686110208, &c.gains_q16, count_of(nb_subfr))
}

#[tactic(auto, using(shape::proofs::Shapes::count_le))]
fn lag_row(fs_khz: i32, nb_subfr: i32, q: Params, c: &SilkDecoderControl) -> bool
    ensures { result ≡ lag_row (shape fs_khz nb_subfr) q c.now }
{
    let signal = q.signal;
    let low = Rate::lag_min(fs_khz);
    let high = Rate::lag_max(fs_khz);
    let ok = all_within(low, high, &c.pitch_l, count_of(nb_subfr));
    is_voiced(signal) & !ok
}

// The sums of the first n subframes' taps fit 16 bits.
fn taps_fit(taps: &[i16; 20], n: usize) -> bool
    requires { n ≤ 4 }
    ensures { result ≡ taps_fit taps.now n }
{
    // By number, which tap_sum takes and its definition counts by.
    (0..n).all(|k| within(-32768, 32767, tap_sum(taps, k)))
}

#[tactic(auto, using(shape::proofs::Shapes::count_le))]
fn taps_row(nb_subfr: i32, q: Params, c: &SilkDecoderControl) -> bool
    ensures { result ≡ taps_row (count_of nb_subfr) q c.now }
{
    let signal = q.signal;
    let ok = !is_voiced(signal) | taps_fit(&c.ltp_coef_q14, count_of(nb_subfr));
    !(within(0, 16384, c.ltp_scale_q14) & ok)
}

fn line_row(fs_khz: i32, lines: &[i16; 16]) -> bool
    ensures { result ≡ not (lines_fit (rate_of fs_khz) lines.now) }
{
    !lines_fit(fs_khz, lines)
}

fn room_row(fs_khz: i32, nb_subfr: i32, lent: usize) -> bool
    ensures { result ≡ room_row (shape fs_khz nb_subfr) lent }
{
    lent < frame_length(fs_khz, nb_subfr)
}

#[tactic(auto, unfolding(crate::specs::Rows::length_row))]
fn length_row(lent: usize, n: usize) -> bool
    ensures { result ≡ length_row lent n }
{
    (n == 0) | (n > 320) | (n > lent)
}

// Rows 1 to 3 with a coming shape.
#[tactic(auto, using(decoder::proofs::Tests::words), unfolding(refusal::specs::First::first_of))]
fn coming_rows(s: &SilkDecoderState, khz: i32, nb_subfr: i32) -> Result<(), Refusal>
    ensures { result ≡ first_of (coming_rows khz nb_subfr s.now) }
{
    refuse_if(rate_row(s), Refusal::Rate)?;
    refuse_if(!is_rate(khz), Refusal::Rate)?;
    refuse_if(size_row(s), Refusal::Size)?;
    refuse_if(!is_count(nb_subfr), Refusal::Size)?;
    refuse_if(history_row(s, khz), Refusal::History)
}

// Rows 1 to 3 at the shape that a state holds.
#[tactic(auto, using(decoder::proofs::Tests::words, decoder::proofs::Coming::held_rows))]
fn state_rows(s: &SilkDecoderState) -> Result<(), Refusal>
    ensures { result ≡ first_of (state_rows s.now) }
{
    coming_rows(s, s.fs_khz, s.nb_subfr)
}

// Rows 5 to 8.
#[tactic(auto, unfolding(refusal::specs::First::first_of))]
fn param_rows(fs_khz: i32, nb_subfr: i32, q: Params, c: &SilkDecoderControl) -> Result<(), Refusal>
    ensures { result ≡ first_of (param_rows (shape fs_khz nb_subfr) q c.now) }
{
    refuse_if(signal_row(q), Refusal::Signal)?;
    refuse_if(gain_row(nb_subfr, c), Refusal::Gain)?;
    refuse_if(lag_row(fs_khz, nb_subfr, q, c), Refusal::Lag)?;
    refuse_if(taps_row(nb_subfr, q, c), Refusal::Taps)
}

// Rows 5 to 9: a received frame's description alone, at a shape.
#[tactic(auto, using(refusal::proofs::Clear::append_err, refusal::proofs::Clear::append_ok), unfolding(refusal::specs::First::first_of))]
pub fn description(
    fs_khz: i32,
    nb_subfr: i32,
    q: Params,
    c: &SilkDecoderControl,
    lines: &[i16; 16],
) -> Result<(), Refusal>
    ensures { result ≡ first_of (description_rows (shape fs_khz nb_subfr) q c.now lines.now) }
{
    param_rows(fs_khz, nb_subfr, q, c)?;
    refuse_if(line_row(fs_khz, lines), Refusal::Line)
}

// Rows 10 and 11.
#[tactic(auto, unfolding(refusal::specs::First::first_of))]
fn room_rows(fs_khz: i32, nb_subfr: i32, pulses: usize, output: usize) -> Result<(), Refusal>
    ensures { result ≡ first_of (room_rows (shape fs_khz nb_subfr) pulses output) }
{
    refuse_if(room_row(fs_khz, nb_subfr, pulses), Refusal::Pulses)?;
    refuse_if(room_row(fs_khz, nb_subfr, output), Refusal::Speaker)
}

// Rows 4 and 11.
#[tactic(auto, using(decoder::proofs::Tests::words), unfolding(refusal::specs::First::first_of))]
fn loss_rows(s: &SilkDecoderState, khz: i32, nb_subfr: i32, output: usize) -> Result<(), Refusal>
    ensures { result ≡ first_of (loss_rows (shape khz nb_subfr) s.now output) }
{
    refuse_if(run_full_row(s.loss_cnt), Refusal::RunFull)?;
    refuse_if(room_row(khz, nb_subfr, output), Refusal::Speaker)
}

// A whole received frame with its coming shape. The parts stand one beside the other, as document 01 names them.
// The coming rate and count are two numbers: a FrameShape holds only what rows 1 and 2, which are judged here, let pass.
#[tactic(auto, using(decoder::proofs::Tests::words, refusal::proofs::Clear::append_err, refusal::proofs::Clear::append_ok), unfolding(refusal::specs::First::first_of))]
pub fn received(
    s: &SilkDecoderState,
    khz: i32,
    nb_subfr: i32,
    q: Params,
    c: &SilkDecoderControl,
    lines: &[i16; 16],
    pulses: usize,
    output: usize,
) -> Result<(), Refusal>
    ensures { result ≡ first_of (received_rows khz nb_subfr s.now q c.now lines.now pulses output) }
{
    coming_rows(s, khz, nb_subfr)?;
    description(khz, nb_subfr, q, c, lines)?;
    room_rows(khz, nb_subfr, pulses, output)
}

// A whole lost frame with its coming shape.
#[tactic(auto, using(decoder::proofs::Tests::words, refusal::proofs::Clear::append_err, refusal::proofs::Clear::append_ok), unfolding(refusal::specs::First::first_of))]
pub fn lost(s: &SilkDecoderState, khz: i32, nb_subfr: i32, output: usize) -> Result<(), Refusal>
    ensures { result ≡ first_of (lost_rows khz nb_subfr s.now output) }
{
    coming_rows(s, khz, nb_subfr)?;
    loss_rows(s, khz, nb_subfr, output)
}

// The same of a frame that may be lost, with the same parts.
pub fn frame(
    s: &SilkDecoderState,
    khz: i32,
    nb_subfr: i32,
    f: Frame,
    c: &SilkDecoderControl,
    lines: &[i16; 16],
    pulses: usize,
    output: usize,
) -> Result<(), Refusal>
    ensures { result ≡ first_of (frame_rows khz nb_subfr s.now f c.now lines.now pulses output) }
{
    let Frame::Received(q) = f else {
        return lost(s, khz, nb_subfr, output);
    };
    received(s, khz, nb_subfr, q, c, lines, pulses, output)
}

#[tactic(auto, using(decoder::proofs::Tests::words, refusal::proofs::Clear::append_err, refusal::proofs::Clear::append_ok), unfolding(refusal::specs::First::first_of))]
pub fn core(
    s: &SilkDecoderState,
    q: Params,
    c: &SilkDecoderControl,
    pulses: usize,
    output: usize,
) -> Result<(), Refusal>
    ensures { result ≡ first_of (core_rows s.now q c.now pulses output) }
{
    state_rows(s)?;
    param_rows(s.fs_khz, s.nb_subfr, q, c)?;
    room_rows(s.fs_khz, s.nb_subfr, pulses, output)
}

#[tactic(auto, using(decoder::proofs::Tests::words, refusal::proofs::Clear::append_err, refusal::proofs::Clear::append_ok), unfolding(refusal::specs::First::first_of))]
pub fn plc_received(s: &SilkDecoderState, q: Params, c: &SilkDecoderControl) -> Result<(), Refusal>
    ensures { result ≡ first_of (plc_received_rows s.now q c.now) }
{
    state_rows(s)?;
    param_rows(s.fs_khz, s.nb_subfr, q, c)
}

#[tactic(auto, using(decoder::proofs::Tests::words, refusal::proofs::Clear::append_err, refusal::proofs::Clear::append_ok), unfolding(refusal::specs::First::first_of))]
pub fn plc_lost(s: &SilkDecoderState, output: usize) -> Result<(), Refusal>
    ensures { result ≡ first_of (plc_lost_rows s.now output) }
{
    state_rows(s)?;
    loss_rows(s, s.fs_khz, s.nb_subfr, output)
}

#[tactic(auto, using(decoder::proofs::Tests::words, refusal::proofs::Clear::append_err, refusal::proofs::Clear::append_ok), unfolding(refusal::specs::First::first_of))]
pub fn glue(s: &SilkDecoderState, lent: usize, n: usize) -> Result<(), Refusal>
    ensures { result ≡ first_of (glue_rows s.now lent n) }
{
    state_rows(s)?;
    refuse_if(length_row(lent, n), Refusal::Length)
}

pub fn cng(
    s: &SilkDecoderState,
    c: &SilkDecoderControl,
    lent: usize,
    n: usize,
) -> Result<(), Refusal>
    ensures { result ≡ first_of (cng_rows s.now c.now lent n) }
{
    state_rows(s)?;
    refuse_if((s.loss_cnt == 0) & gain_row(s.nb_subfr, c), Refusal::Gain)?;
    refuse_if(length_row(lent, n), Refusal::Length)
}
