// Concealment of a lost frame (plc.rs, silk_plc_conceal).
// Inner: every function but silk_plc_lost.
ghost use Rattle.std.specs.Prelude.{◌≡◌, true, false, cond, map, ◌++◌, ◌+◌, ◌-◌, ◌*◌, ◌^◌, ◌≤◌, ◌<◌, pos, nat_abs, ◌+ℤ◌, ◌-ℤ◌, ◌*ℤ◌, length, replicate, take, drop};
ghost use Rattle.std.specs.Int.Signed.{le_z};
ghost use Rattle.word.specs.Int.{floor_div, mod_ℤ, eq_ℤ, wrap16, wrap32, min_ℤ, max_ℤ};
ghost use Rattle.macros.specs.Fixed.{smulwb, smulbb, smlawb};
ghost use Rattle.macros.specs.Quotient.{inverse32_varq};
ghost use Rattle.sigproc.specs.Expand.{bwexpander};
ghost use Rattle.sigproc.specs.Synthesis.{synthesis, played};
ghost use Rattle.shape.specs.Order.{size};
ghost use Rattle.shape.specs.Shape.{shape, is_rate, is_count, rate_of, count_of, order_of, frame_length};
ghost use Rattle.decoder.specs.State.{shape_of};
ghost use Rattle.decoder.specs.With.{with_memory, with_losses, with_plc};
ghost use Rattle.decoder.specs.Ranges.{subframes_held, plc_held, plc_fits};
ghost use Rattle.judge.specs.Taps.{tap_sum};
ghost use Rattle.plc.specs.Hold.{hold, plc_ready};
ghost use Rattle.plc.specs.Answer.{plc_lost, plc_lost_output};
ghost use Rattle.plc.specs.Conceal.{AllZero, pitched, noise_place, coefficients, voice, signal, held_after, concealed, lagged, plc_conceal, concealed_by, harm_gain, noise_gain, noise_scale, voice_of, lag_of, rewhitened, excited_times, faded, faded_voice, voices, voice_by};

use crate::update::{noise_place, pitch_max_q8, ready};
use decoder::{Answer, SilkDecoderControl, SilkDecoderState, SilkPLCState};
use judge::tap_sum;
use macros::{
    silk_inverse32_varq, silk_max_32, silk_min_32, silk_rand, silk_rshift_round, silk_smlawb,
    silk_smulbb, silk_smulwb,
};
use refusal::Refusal;
use shape::{FrameShape, Order, Rate, count_of};
use sigproc::{copy_at, ltp_prediction, rewhiten, scale_out, silk_bwexpander, synthesis};
use stability::{Coefs, inverse_pred_gain};
use word::{add32, low16, shl32, shr32, sub32, wide16};

// The coefficients held, or none while no frame was received.
fn held_coefficients(first_frame_after_reset: i32, prev_lpc_q12: [i16; 16]) -> [i16; 16]
    ensures { result ≡ cond (eq_ℤ first_frame_after_reset (pos 0)) prev_lpc_q12 (replicate 16 (pos 0)) }
{
    if first_frame_after_reset == 0 {
        prev_lpc_q12
    } else {
        [0; 16]
    }
}

fn coefficients(first_frame_after_reset: i32, prev_lpc_q12: [i16; 16], order: Order) -> [i16; 16]
    ensures { result ≡ bwexpander (pos 64881) (cond (eq_ℤ first_frame_after_reset (pos 0)) prev_lpc_q12 (replicate 16 (pos 0))) (size order) }
{
    let mut a = held_coefficients(first_frame_after_reset, prev_lpc_q12);
    silk_bwexpander(&mut a, order.size(), 64881);
    a
}

// One number at the first loss in a row, another at the later ones.
fn by_loss(loss_cnt: i32, first: i32, later: i32) -> i32
    ensures { result ≡ cond (eq_ℤ loss_cnt (pos 0)) first later }
{
    if loss_cnt == 0 { first } else { later }
}

#[tactic(auto, unfolding(crate::specs::Conceal::harm_gain))]
fn harm_gain(loss_cnt: i32) -> i32
    ensures { result ≡ harm_gain loss_cnt }
{
    by_loss(loss_cnt, 32440, 31130)
}

// The noise's gain after a frame that was not voiced: less for a strong filter.
fn limited_gain(inv_gain_q30: i32) -> i32
    ensures { result ≡ floor_div (smulwb (wrap32 (max_ℤ (pos (2 ^ 22)) (min_ℤ (pos (2 ^ 27)) inv_gain_q30) *ℤ pos (2 ^ 3))) (pos 32440)) (2 ^ 14) }
{
    shr32(
        silk_smulwb(
            shl32(
                silk_max_32(4194304, silk_min_32(134217728, inv_gain_q30)),
                3,
            ),
            32440,
        ),
        14,
    )
}

#[tactic(auto, unfolding(crate::specs::Conceal::noise_gain))]
fn noise_gain(
    loss_cnt: i32,
    prev_signal_type: i32,
    edition: i32,
    a: &[i16; 16],
    order: Order,
) -> i32
    ensures { result ≡ noise_gain loss_cnt prev_signal_type edition (take (size order) a.now) }
{
    match prev_signal_type {
        2 => by_loss(loss_cnt, 31130, 26214),
        _ => {
            if loss_cnt == 0 {
                limited_gain(inverse_pred_gain(
                    Coefs {
                        a_q12: &a[..order.size()],
                    },
                    edition,
                ))
            } else {
                29491
            }
        }
    }
}

#[tactic(auto, unfolding(crate::specs::Conceal::faded))]
fn faded(gain: i32, x: i16) -> i16
    ensures { result ≡ faded gain x }
{
    low16(shr32(silk_smulbb(gain, wide16(x)), 15))
}

fn faded_taps(taps: [i16; 5], gain: i32) -> [i16; 5]
    ensures { result ≡ map (faded gain) taps }
{
    taps.map(|x| faded(gain, x))
}

// The lag (Q8) of the next subframe.
fn drifted(pitch_q8: i32, most: i32) -> i32
    ensures { result ≡ min_ℤ (smlawb pitch_q8 pitch_q8 (pos 655)) most }
{
    silk_min_32(silk_smlawb(pitch_q8, pitch_q8, 655), most)
}

// The later gain's inverse (Q30), limited.
fn inverse_gain(gain_q16: i32) -> i32
    ensures { result ≡ min_ℤ (inverse32_varq gain_q16 (pos 46)) (pos 1073741823) }
{
    silk_min_32(silk_inverse32_varq(gain_q16, 46), 1073741823)
}

// The generator's top 7 bits.
fn noise_index(seed: i32) -> usize
    ensures { (result ≡ mod_ℤ (floor_div seed (2 ^ 25)) 128) × (result < 128) }
{
    (shr32(seed, 25) & 127) as usize
}

fn excited_sample(prediction: i32, noise: i32, scale_q14: i16) -> i32
    ensures { result ≡ wrap32 (smlawb prediction noise scale_q14 *ℤ pos 4) }
{
    shl32(silk_smlawb(prediction, noise, wide16(scale_q14)), 2)
}

// The noise's scale after a voiced frame: what the taps leave, times the LTP scale.
fn voiced_scale(taps: &[i16; 5], ltp_scale_q14: i16) -> i16
    ensures { result ≡ wrap16 (floor_div (smulbb (max_ℤ (pos 16384 -ℤ tap_sum taps.now 0) (pos 3277)) ltp_scale_q14) (2 ^ 14)) }
{
    low16(shr32(
        silk_smulbb(
            silk_max_32(sub32(16384, tap_sum(taps, 0)), 3277),
            wide16(ltp_scale_q14),
        ),
        14,
    ))
}

fn noise_scale(
    loss_cnt: i32,
    prev_signal_type: i32,
    taps: &[i16; 5],
    ltp_scale_q14: i16,
    rand_scale_q14: i16,
) -> i16
    ensures { result ≡ cond (eq_ℤ loss_cnt (pos 0)) (cond (eq_ℤ prev_signal_type (pos 2))
        (wrap16 (floor_div (smulbb (max_ℤ (pos 16384 -ℤ tap_sum taps.now 0) (pos 3277)) ltp_scale_q14) (2 ^ 14))) (pos 16384)) rand_scale_q14 }
{
    if loss_cnt != 0 {
        return rand_scale_q14;
    }
    match prev_signal_type {
        2 => voiced_scale(taps, ltp_scale_q14),
        _ => 16384,
    }
}

// The history rewhitened and divided by the gain, as far back as a prediction reads.
fn rewhitened(
    buf: &mut [i32; 640],
    out_buf: &[i16; 480],
    a: &[i16; 16],
    h: SilkPLCState,
    frame: FrameShape,
)
    requires { AllZero buf.old × (pitched (rate_of frame.fs_khz) h.pitch_l_q8 ≡ true) }
    ensures { take (20 * rate_of frame.fs_khz) buf.new ≡ rewhitened (shape frame.fs_khz frame.nb_subfr) out_buf.now a.now h }
{
    let lag = lag_of(h.pitch_l_q8) as usize;
    let mem = Rate::ltp_mem_length(frame.fs_khz);
    let from = mem - lag - 2;
    let inverse = inverse_gain(h.prev_gain_q16[1]);
    rewhiten(
        &mut buf[from..mem],
        from,
        &out_buf[..mem],
        a,
        frame.order(),
        inverse,
    );
}

// What a subframe carries on beside the history, which with it is a Voice of the definitions.
#[derive(Clone, Copy)]
pub struct VoiceState {
    pub taps: [i16; 5],
    pub scale_q14: i16,
    pub pitch_q8: i32,
    pub seed: i32,
}

// The excitation of n samples from place at on: the prediction, and noise. The seed after them.
fn excite(
    buf: &mut [i32; 640],
    noise: &[i32; 128],
    k: VoiceState,
    lag: usize,
    at: usize,
    n: usize,
) -> i32
    requires { (3 ≤ lag) × (lag + 2 ≤ at) × (at + n ≤ 640) }
    ensures { (result ≡ (excited_times noise.now 0 lag n (voice_of (take at buf.old) k)).seed)
        × (take (at + n) buf.new ≡ (excited_times noise.now 0 lag n (voice_of (take at buf.old) k)).past) }
{
    let taps = k.taps;
    let scale = k.scale_q14;
    let mut seed = k.seed;
    // By index, since each prediction reads what the turns before it wrote.
    for i in 0..n {
        seed = silk_rand(seed);
        let drawn = noise[noise_index(seed)];
        let p = ltp_prediction(buf, &taps, at + i - lag + 2);
        buf[at + i] = excited_sample(p, drawn, scale);
    }
    seed
}

// A lag (Q8) rounded.
fn lag_of(pitch_q8: i32) -> i32
    ensures { result ≡ lag_of pitch_q8 }
{
    silk_rshift_round(pitch_q8, 8)
}

// The gains (Q15) of the taps and of the noise from subframe to subframe.
#[derive(Clone, Copy)]
struct Fading {
    harm_gain_q15: i32,
    rand_gain_q15: i32,
}

// A subframe from place at on, and what it carries on.
fn subframe(
    buf: &mut [i32; 640],
    noise: &[i32; 128],
    k: VoiceState,
    fading: Fading,
    frame: FrameShape,
    at: usize,
) -> VoiceState
    requires { (20 * rate_of frame.fs_khz ≤ at) × (at + 5 * rate_of frame.fs_khz ≤ 640) × (pitched (rate_of frame.fs_khz) k.pitch_q8 ≡ true) }
    ensures { voice_of (take (at + 5 * rate_of frame.fs_khz) buf.new) result ≡ faded_voice (rate_of frame.fs_khz) fading.harm_gain_q15 fading.rand_gain_q15
        (excited_times noise.now 0 (nat_abs (lag_of k.pitch_q8)) (5 * rate_of frame.fs_khz) (voice_of (take at buf.old) k)) }
{
    let pitch = k.pitch_q8;
    let lag = lag_of(pitch) as usize;
    let seed = excite(buf, noise, k, lag, at, Rate::subfr_length(frame.fs_khz));
    VoiceState {
        taps: faded_taps(k.taps, fading.harm_gain_q15),
        scale_q14: faded(fading.rand_gain_q15, k.scale_q14),
        pitch_q8: drifted(pitch, pitch_max_q8(frame.fs_khz)),
        seed,
    }
}

// The subframes of a frame, and what they carry on.
fn subframes(
    buf: &mut [i32; 640],
    noise: &[i32; 128],
    k0: VoiceState,
    fading: Fading,
    frame: FrameShape,
) -> VoiceState
    requires { pitched (rate_of frame.fs_khz) k0.pitch_q8 ≡ true }
    ensures { voice_of (take (20 * rate_of frame.fs_khz + 5 * rate_of frame.fs_khz * count_of frame.nb_subfr) buf.new) result
        ≡ voices (shape frame.fs_khz frame.nb_subfr) noise.now 0 fading.harm_gain_q15 fading.rand_gain_q15 (count_of frame.nb_subfr)
        (voice_of (take (20 * rate_of frame.fs_khz) buf.old) k0) }
{
    let mem = Rate::ltp_mem_length(frame.fs_khz);
    let l = Rate::subfr_length(frame.fs_khz);
    let n = count_of(frame.nb_subfr);
    let mut k = k0;
    // By index, since each subframe reads the whole buffer before its place.
    for j in 0..n {
        let at = mem + l * j;
        k = subframe(buf, noise, k, fading, frame, at);
    }
    k
}

// The frame's samples: the buffer holds its excitation behind the history. The memory after it.
fn synthesise(
    buf: &mut [i32; 640],
    memory: [i32; 16],
    a: &[i16; 16],
    frame: FrameShape,
    gain_q16: i32,
    xq: &mut [i16],
) -> [i32; 16]
    requires { frame_length (shape frame.fs_khz frame.nb_subfr) ≤ length xq.old }
    ensures { let r = rate_of frame.fs_khz in
        let len = 5 * r * count_of frame.nb_subfr in
        let made = synthesis memory (drop (20 * r) (take (20 * r + len) buf.old)) a.now (order_of r) len in
        (result ≡ drop len made) × (xq.new ≡ map (played gain_q16) (drop 16 made) ++ drop len xq.old) }
{
    let mem = Rate::ltp_mem_length(frame.fs_khz);
    let len = shape::frame_length(frame.fs_khz, frame.nb_subfr);
    let base = mem - 16;
    let end = mem + len;
    copy_at(buf, base, &memory);
    synthesis(&mut buf[base..end], a, frame.order());
    scale_out(&mut xq[..len], &buf[mem..end], gain_q16);
    let mut after = memory;
    copy_at(&mut after, 0, &buf[end - 16..end]);
    after
}

// What the first subframe starts from.
#[tactic(auto, unfolding(crate::specs::Conceal::noise_scale))]
fn starting(loss_cnt: i32, prev_signal_type: i32, h: SilkPLCState) -> VoiceState
    ensures { result ≡ record { taps = h.ltp_coef_q14; scale_q14 = noise_scale loss_cnt prev_signal_type h; pitch_q8 = h.pitch_l_q8; seed = h.rand_seed } }
{
    VoiceState {
        taps: h.ltp_coef_q14,
        scale_q14: noise_scale(
            loss_cnt,
            prev_signal_type,
            &h.ltp_coef_q14,
            h.prev_ltp_scale_q14,
            h.rand_scale_q14,
        ),
        pitch_q8: h.pitch_l_q8,
        seed: h.rand_seed,
    }
}

// Where a frame's noise is drawn from.
fn place(s: &SilkDecoderState, h: SilkPLCState, frame: FrameShape) -> usize
    requires { subframes_held (rate_of frame.fs_khz) h.nb_subfr h.subfr_length ≡ true }
    ensures { result ≡ noise_place (shape frame.fs_khz frame.nb_subfr) s.now h }
{
    noise_place(
        &s.exc_q14,
        h.prev_gain_q16,
        Rate::subfr_length(frame.fs_khz),
        count_of(frame.nb_subfr),
        h.nb_subfr as usize,
        h.subfr_length as usize,
    )
}

// The frame's excitation, and what is carried on.
fn voice(
    buf: &mut [i32; 640],
    s: &SilkDecoderState,
    h: SilkPLCState,
    a: &[i16; 16],
    frame: FrameShape,
) -> VoiceState
    requires { AllZero buf.old × (plc_held (rate_of frame.fs_khz) h ≡ true) }
    ensures { voice_of (take (20 * rate_of frame.fs_khz + 5 * rate_of frame.fs_khz * count_of frame.nb_subfr) buf.new) result
        ≡ voice_by (shape frame.fs_khz frame.nb_subfr) s.now.loss_cnt s.now.prev_signal_type s.now.settings.edition s.now.exc_q14 s.now.out_buf a.now
        (noise_place (shape frame.fs_khz frame.nb_subfr) s.now h) h }
{
    rewhitened(buf, &s.out_buf, a, h, frame);
    let k = starting(s.loss_cnt, s.prev_signal_type, h);
    let fading = Fading {
        harm_gain_q15: harm_gain(s.loss_cnt),
        rand_gain_q15: noise_gain(
            s.loss_cnt,
            s.prev_signal_type,
            s.settings.edition,
            a,
            frame.order(),
        ),
    };
    let from = place(s, h, frame);
    let noise: &[i32; 128] = s.exc_q14[from..from + 128].try_into().unwrap();
    subframes(buf, noise, k, fading, frame)
}

// What concealment holds after a frame.
fn held_after(h: SilkPLCState, k: VoiceState, a: [i16; 16]) -> SilkPLCState
    ensures { result ≡ hold h k.pitch_q8 k.taps a k.seed k.scale_q14 h.prev_ltp_scale_q14 h.prev_gain_q16 h.fs_khz h.nb_subfr h.subfr_length }
{
    let taps = k.taps;
    SilkPLCState {
        pitch_l_q8: k.pitch_q8,
        ltp_coef_q14: taps,
        prev_lpc_q12: a,
        rand_seed: k.seed,
        rand_scale_q14: k.scale_q14,
        ..h
    }
}

// What a lost frame leaves beside its samples.
#[derive(Clone, Copy)]
pub struct Concealed {
    pub plc: SilkPLCState,
    pub memory: [i32; 16],
    pub lag: i32,
}

// A lost frame of a state; h is what concealment holds, ready for the frame's rate.
fn conceal(s: &SilkDecoderState, h: SilkPLCState, frame: FrameShape, xq: &mut [i16]) -> Concealed
    requires { (frame_length (shape frame.fs_khz frame.nb_subfr) ≤ length xq.old) × (plc_held (rate_of frame.fs_khz) h ≡ true) }
    ensures { let p = shape frame.fs_khz frame.nb_subfr in
        (result ≡ concealed_by p (voice p s.now h) s.now.s_lpc_q14_buf (coefficients p s.now h) h)
        × (xq.new ≡ concealed p s.now h ++ drop (frame_length p) xq.old) }
{
    let a = coefficients(s.first_frame_after_reset, h.prev_lpc_q12, frame.order());
    let mut buf = [0; 640];
    let k = voice(&mut buf, s, h, &a, frame);
    let memory = synthesise(&mut buf, s.s_lpc_q14_buf, &a, frame, h.prev_gain_q16[1], xq);
    Concealed {
        plc: held_after(h, k, a),
        memory,
        lag: lag_of(k.pitch_q8),
    }
}

// What a lost frame changes of a state beside its count of losses, and its samples.
// The rate and the count are the state's own: of a FrameShape beside it, two clauses more would have to say so.
fn conceal_frame(s: &SilkDecoderState, xq: &mut [i16]) -> Concealed
    requires { (is_rate s.now.fs_khz ≡ true) × (is_count s.now.nb_subfr ≡ true) × (plc_fits (rate_of s.now.fs_khz) s.now.s_plc ≡ true)
        × (frame_length (shape_of s.now) ≤ length xq.old) }
    ensures { let p = shape_of s.now in
        let h = plc_ready p s.now.s_plc in
        (result ≡ record { plc = held_after p s.now h; memory = drop (frame_length p) (signal p s.now h); lag = lag_of (voice p s.now h).pitch })
        × (xq.new ≡ concealed p s.now h ++ drop (frame_length p) xq.old) }
{
    let frame = FrameShape {
        fs_khz: s.fs_khz,
        nb_subfr: s.nb_subfr,
    };
    let h = ready(s.s_plc, s.fs_khz, count_of(s.nb_subfr));
    conceal(s, h, frame, xq)
}

// What concealment changes: its memory, the count of losses, what it holds, and the lags.
fn leave(a: &mut Answer, r: Concealed)
    requires { (le_z (pos 0) a.old.state.loss_cnt ≡ true) × (eq_ℤ a.old.state.loss_cnt (pos 2147483647) ≡ false) }
    ensures { a.new ≡ record {
      state = with_plc (with_losses (with_memory a.old.state r.memory) (a.old.state.loss_cnt +ℤ pos 1)) r.plc;
      control = lagged a.old.control r.lag;
    } }
{
    let memory = r.memory;
    a.state.s_lpc_q14_buf = memory;
    a.state.loss_cnt = add32(a.state.loss_cnt, 1);
    a.state.s_plc = r.plc;
    a.control.pitch_l = [r.lag; 4];
}

// A lost frame that no row refuses, on a state and a description that are lent; its clauses are of the state's own fields, as at conceal_frame.
#[tactic(auto, unfolding(crate::specs::Conceal::plc_conceal))]
pub fn plc_conceal(a: &mut Answer, xq: &mut [i16])
    requires { (is_rate a.old.state.fs_khz ≡ true) × (is_count a.old.state.nb_subfr ≡ true) × (plc_fits (rate_of a.old.state.fs_khz) a.old.state.s_plc ≡ true)
        × (le_z (pos 0) a.old.state.loss_cnt ≡ true) × (eq_ℤ a.old.state.loss_cnt (pos 2147483647) ≡ false) × (frame_length (shape_of a.old.state) ≤ length xq.old) }
    ensures { let s = a.old.state in
        let o = plc_conceal (shape_of s) s a.old.control in
        (a.new.state ≡ o.state) × (a.new.control ≡ o.control) × (xq.new ≡ o.samples ++ drop (frame_length (shape_of s)) xq.old) }
{
    let r = conceal_frame(&a.state, xq);
    leave(a, r);
}

// A lost frame as a call: refused, it changes nothing. By value, as document 01 has it.
#[tactic(auto, using(refusal::proofs::Clear::at_err), unfolding(crate::specs::Answer::plc_lost_refusal, crate::specs::Answer::plc_lost, crate::specs::Answer::plc_lost_output))]
pub fn silk_plc_lost(
    s: SilkDecoderState,
    c: SilkDecoderControl,
    xq: &mut [i16],
) -> Result<Answer, Refusal>
    ensures { (result ≡ plc_lost s c xq.old) × (xq.new ≡ plc_lost_output s c xq.old) }
{
    judge::plc_lost(&s, xq.len())?;
    let mut a = Answer {
        state: s,
        control: c,
    };
    plc_conceal(&mut a, xq);
    Ok(a)
}
