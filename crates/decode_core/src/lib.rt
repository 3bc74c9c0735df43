// A received frame, from its excitation through long-term and short-term synthesis (decode_core.rs).
// Inner: every function but silk_decode_core and core_excitation.
#![tactic(auto)]

ghost use Rattle.std.specs.Prelude.{◌≡◌, true, cond, not, ◌&&◌, [], map, ◌++◌, ◌+◌, ◌-◌, ◌*◌, ◌≤◌, ◌<◌, List, ℤ, pos, nat_abs, length, take, drop, get_or};
ghost use Rattle.std.specs.Int.Signed.{lt_z};
ghost use Rattle.word.specs.Int.{eq_ℤ};
ghost use Rattle.shape.specs.Shape.{frame_length, count_of};
ghost use Rattle.shape.specs.Order.{size};
ghost use Rattle.decoder.specs.Ranges.{within};
ghost use Rattle.decoder.specs.State.{shape_of};
ghost use Rattle.macros.specs.Fixed.{smulwb, smulww};
ghost use Rattle.sigproc.specs.Analysis.{residual};
ghost use Rattle.std.specs.Int.{w32};
ghost use Rattle.decoder.specs.Typed.{Words};
ghost use Rattle.excitation.specs.Excitation.{offset_q14, excitation};
ghost use Rattle.sigproc.specs.Synthesis.{synthesis, played};
ghost use Rattle.decode_core.specs.Core.{smoothed, refilled, ltp_past, ltp_synthesis, gain_adjustment, inverse_gain_q31, rewhitens, control_at, long, buffer_at, past_at, subframe, subframes, setting_of, decode_core};
ghost use Rattle.decode_core.specs.Answer.{core_answer, core_output};
ghost use Rattle.decode_core.specs.Standard.{CoreStandard};
ghost use Rattle.decode_core.specs.Ready.{Ready, LongTerm, Playable, Framed, held, begin, Left};

use decoder::{Answer, Params, SilkDecoderControl, SilkDecoderState, is_voiced};
use excitation::{excite, offset_q14};
use macros::{silk_add_lshift32, silk_div32_varq, silk_inverse32_varq, silk_smulwb, silk_smulww};
use refusal::Refusal;
use shape::{Order, Rate, count_of};
use sigproc::{copy_at, ltp_prediction, rewhiten, scale_out, synthesis};
use std::marker::Model;
use word::shl32;

// What the subframes of a frame share. A transition, a frame that is not voiced after the loss of a voiced one, has that one's lag.
// voiced and interpolated are two facts of their own, each read as a condition alone.
#[derive(Clone, Copy)]
pub struct Setting {
    pub nb_subfr: usize,
    pub subfr_length: usize,
    pub ltp_mem_length: usize,
    pub lpc_order: usize,
    pub voiced: bool,
    pub interpolated: bool,
    pub transition: Option<i32>,
}

// What the subframes carry on beside their buffers.
#[derive(Clone, Copy)]
pub struct Carried {
    pub control: SilkDecoderControl,
    pub gain: i32,
}

// What the subframes are made from; the setting has the order as a number, which is 0 for a number that is no rate.
#[derive(Clone, Copy)]
struct Source<'a> {
    setting: Setting,
    order: Order,
    rows: [[i16; 16]; 2],
    exc: &'a [i32],
    ghost order_is: { size order ≡ setting.lpc_order },
}

// Subframe k, its description and row, and the change of gain before it (Q16).
#[derive(Clone, Copy)]
struct Subframe {
    k: usize,
    control: SilkDecoderControl,
    row: [i16; 16],
    adj: i32,
    ghost place: { k < 4 },
}

// The long-term state (Q15): its first idx places are in use, of the most that a frame fills, since there is no heap.
#[derive(Drop)]
struct Past {
    q15: [i32; 640],
    idx: usize,
}

impl Model for Past {
    ghost Value = { List ℤ };

    ghost view = { λ p. take p.idx p.q15 };

    ghost invariant = { λ p. Words w32 640 p.q15 × (p.idx ≤ 640) };
}

#[tactic(auto, using(macros::proofs::Kept::words), unfolding(crate::specs::Core::gain_adjustment))]
fn gain_adjustment(last: i32, gain: i32) -> i32
    requires { gain ≡ pos 0 → ⊥ }
    ensures { result ≡ gain_adjustment last gain }
{
    if gain == last {
        65536
    } else {
        silk_div32_varq(last, gain, 16)
    }
}

fn adjust(xs: &mut [i32], adj: i32)
    ensures { xs.new ≡ map (smulww adj) xs.old }
{
    for x in xs.iter_mut() {
        *x = silk_smulww(adj, *x);
    }
}

// The residual from the excitation in res, and the long-term state behind its first idx places.
// The lag is a place: a type for `3 ≤ lag` would hold one fact for three inner functions, this, the method below and plc's `excite`.
fn ltp_synthesis(past: &mut [i32], idx: usize, taps: [i16; 5], lag: usize, res: &mut [i32])
    requires { (3 ≤ lag) × (lag + 2 ≤ idx) × (idx + length res.old ≤ length past.old) }
    ensures { (past.new ≡ ltp_past (take idx past.old) taps lag res.old (length res.old) ++ drop (idx + length res.old) past.old)
        × (res.new ≡ ltp_synthesis (take idx past.old) taps lag res.old (length res.old)) }
{
    // By place, since each turn reads what the turns before wrote.
    for (i, r) in res.iter_mut().enumerate() {
        let p = ltp_prediction(past, &taps, idx + i - lag + 2);
        let v = silk_add_lshift32(*r, p, 1);
        *r = v;
        past[idx + i] = shl32(v, 1);
    }
}

impl Past {
    // The last lag + 2 places anew, from the history's residual.
    fn rewhiten(
        &mut self,
        lag: usize,
        out_buf: &[i16; 480],
        row: &[i16; 16],
        order: Order,
        inverse: i32,
    )
        requires { (size order + lag + 2 ≤ 320) × (size order + lag + 2 ≤ length self.old) × (length self.old ≤ 480) }
        ensures { self.new ≡ refilled self.old (lag + 2) (λ i. smulwb inverse (residual out_buf.now row.now (size order) i)) }
    {
        let idx = self.idx;
        let from = idx - lag - 2;
        rewhiten(&mut self.q15[from..idx], from, out_buf, row, order, inverse);
    }

    // The last lag + 2 places by an adjustment of the gain; one by 65,536 leaves them as they are.
    fn adjust(&mut self, lag: usize, adj: i32)
        requires { lag + 2 ≤ length self.old }
        ensures { self.new ≡ refilled self.old (lag + 2) (λ i. smulww adj (get_or self.old i (pos 0))) }
    {
        if adj != 65536 {
            let idx = self.idx;
            let from = idx - lag - 2;
            adjust(&mut self.q15[from..idx], adj);
        }
    }

    // The residual from the excitation in res, and the state behind it.
    fn ltp_synthesis(&mut self, taps: [i16; 5], lag: usize, res: &mut [i32])
        requires { (3 ≤ lag) × (lag + 2 ≤ length self.old) × (length self.old + length res.old ≤ 640) }
        ensures { (self.new ≡ ltp_past self.old taps lag res.old (length res.old)) × (res.new ≡ ltp_synthesis self.old taps lag res.old (length res.old)) }
    {
        let idx = self.idx;
        ltp_synthesis(&mut self.q15, idx, taps, lag, res);
        self.idx = idx + res.len();
    }
}

// The memory by an adjustment of the gain, and a subframe's excitation behind it.
fn load(signal: &mut [i32], exc: &[i32], adj: i32)
    requires { length signal.old ≡ 16 + length exc.now }
    ensures { signal.new ≡ map (smulww adj) (take 16 signal.old) ++ exc.now }
{
    adjust(&mut signal[..16], adj);
    copy_at(signal, 16, exc);
}

// The last 16 samples come to the front. Not by `copy_within`, which would ask of a program that links the archive for a memmove.
fn keep(signal: &mut [i32])
    requires { 16 ≤ length signal.old }
    ensures { take 16 signal.new ≡ drop (length signal.old - 16) signal.old }
{
    let n = signal.len() - 16;
    let last: &[i32; 16] = signal[n..n + 16].try_into().unwrap();
    let memory = *last;
    copy_at(signal, 0, &memory);
}

// The samples that the memory and the residual in signal make; their last 16 are the new memory.
fn lpc_synthesis(signal: &mut [i32], row: &[i16; 16], order: Order, gain: i32, xq: &mut [i16])
    requires { length signal.old ≡ 16 + length xq.old }
    ensures { (take 16 signal.new ≡ drop (length xq.old) (synthesis (take 16 signal.old) (drop 16 signal.old) row.now (size order) (length xq.old)))
        × (xq.new ≡ map (played gain) (drop 16 (synthesis (take 16 signal.old) (drop 16 signal.old) row.now (size order) (length xq.old)))) }
{
    synthesis(signal, row, order);
    scale_out(xq, &signal[16..], gain);
    keep(signal);
}

#[tactic(auto, using(macros::proofs::Kept::words), unfolding(crate::specs::Core::smoothed))]
fn smoothed(c: SilkDecoderControl, lag: i32, k: usize) -> SilkDecoderControl
    requires { k < 4 }
    ensures { result ≡ smoothed c lag k }
{
    let mut pitch_l = c.pitch_l;
    pitch_l[k] = lag;
    let mut ltp_coef_q14 = c.ltp_coef_q14;
    let middle: [i16; 5] = [0, 0, 4096, 0, 0];
    copy_at(&mut ltp_coef_q14, 5 * k, &middle);
    SilkDecoderControl {
        pitch_l,
        ltp_coef_q14,
        ..c
    }
}

#[tactic(auto, unfolding(crate::specs::Core::control_at))]
fn control_at(f: Setting, c: SilkDecoderControl, k: usize) -> SilkDecoderControl
    requires { k < 4 }
    ensures { result ≡ control_at f c k }
{
    match f.transition {
        Some(lag) if k < 2 => smoothed(c, lag, k),
        _ => c,
    }
}

impl Subframe {
    // The inverse of the gain (Q31), in subframe 0 times the LTP scale.
    #[tactic(auto, using(macros::proofs::Kept::words), unfolding(crate::specs::Core::inverse_gain_q31))]
    fn inverse_gain_q31(&self) -> i32
        ensures { result ≡ inverse_gain_q31 self.now.control self.now.k }
    {
        let inverse = silk_inverse32_varq(self.control.gains_q16[self.k], 47);
        if self.k == 0 {
            shl32(silk_smulwb(inverse, self.control.ltp_scale_q14), 2)
        } else {
            inverse
        }
    }

    // The lag as a length.
    fn lag(&self) -> usize
        requires { get_or self.now.control.pitch_l self.now.k (pos 0) ≡ pos (nat_abs (get_or self.now.control.pitch_l self.now.k (pos 0))) }
        ensures { result ≡ nat_abs (get_or self.now.control.pitch_l self.now.k (pos 0)) }
    {
        self.control.pitch_l[self.k] as usize
    }

    fn taps(&self) -> [i16; 5]
        ensures { result ≡ take 5 (drop (5 * self.now.k) self.now.control.ltp_coef_q14) }
    {
        let at = 5 * self.k;
        let five: &[i16; 5] = self.control.ltp_coef_q14[at..at + 5].try_into().unwrap();
        *five
    }
}

fn rewhitens(f: Setting, k: usize) -> bool
    ensures { result ≡ rewhitens f k }
{
    k == 0 || (k == 2 && f.interpolated)
}

// The history that rewhitening reads: for subframe 2 the first two subframes follow it.
#[tactic(auto, unfolding(crate::specs::Core::buffer_at))]
fn buffer_at(f: Setting, k: usize, out_buf: &mut [i16], played: &[i16])
    requires { k ≡ 2 → f.ltp_mem_length + length played.now ≤ length out_buf.old }
    ensures { out_buf.new ≡ buffer_at f k out_buf.old played.now }
{
    if k == 2 {
        copy_at(out_buf, f.ltp_mem_length, played);
    }
}

// Subframe k is played with long-term prediction.
fn long(f: Setting, k: usize) -> bool
    ensures { result ≡ long f k }
{
    (f.transition.is_some() && k < 2) || f.voiced
}

impl Source<'_> {
    // The long-term state that a subframe starts from.
    fn past_at(&self, s: &Subframe, played: &[i16], out_buf: &mut [i16; 480], past: &mut Past)
        requires { Ready self.now.setting s.now.control s.now.k (length past.old) × (length played.now ≡ self.now.setting.subfr_length * s.now.k) }
        ensures { (out_buf.new ≡ cond (rewhitens self.now.setting s.now.k) (buffer_at self.now.setting s.now.k out_buf.old played.now) out_buf.old)
            × (past.new ≡ past_at self.now.setting s.now.control s.now.k s.now.row s.now.adj (buffer_at self.now.setting s.now.k out_buf.old played.now) past.old) }
    {
        let lag = s.lag();
        if rewhitens(self.setting, s.k) {
            buffer_at(self.setting, s.k, out_buf, played);
            past.rewhiten(lag, out_buf, &s.row, self.order, s.inverse_gain_q31());
        } else {
            past.adjust(lag, s.adj);
        }
    }

    // A subframe's residual from the excitation in res.
    fn long_term(
        &self,
        s: &Subframe,
        played: &[i16],
        out_buf: &mut [i16; 480],
        past: &mut Past,
        res: &mut [i32],
    )
        requires { (long self.now.setting s.now.k ≡ true → Ready self.now.setting s.now.control s.now.k (length past.old)) × (length played.now ≡ self.now.setting.subfr_length * s.now.k) × (length res.old ≡ self.now.setting.subfr_length) }
        ensures { LongTerm self.now.setting s.now.control s.now.k s.now.row s.now.adj played.now out_buf.old out_buf.new past.old past.new res.old res.new }
    {
        if long(self.setting, s.k) {
            self.past_at(s, played, out_buf, past);
            past.ltp_synthesis(s.taps(), s.lag(), res);
        }
    }

    // Subframe k: signal holds the memory in front. The buffers are lent one by one, since each step takes another part of them.
    fn subframe(
        &self,
        k: usize,
        b: Carried,
        past: &mut Past,
        signal: &mut [i32],
        out_buf: &mut [i16; 480],
        xq: &mut [i16],
    ) -> Carried
        requires { Playable self.now.setting b.control k (length past.old) × (self.now.setting.subfr_length * k + self.now.setting.subfr_length ≤ length self.now.exc.now)
            × (length signal.old ≡ 16 + self.now.setting.subfr_length) × (self.now.setting.subfr_length * k + self.now.setting.subfr_length ≤ length xq.old) }
        ensures { (held result past.new signal.new out_buf.new (take (self.now.setting.subfr_length * k + self.now.setting.subfr_length) xq.new) ≡ subframe self.now.setting self.now.rows self.now.exc.now k (held b past.old signal.old out_buf.old (take (self.now.setting.subfr_length * k) xq.old)))
            × (drop (self.now.setting.subfr_length * k + self.now.setting.subfr_length) xq.new ≡ drop (self.now.setting.subfr_length * k + self.now.setting.subfr_length) xq.old)
            × (length past.new ≡ length past.old + cond (long self.now.setting k) self.now.setting.subfr_length 0) × (length out_buf.new ≡ 480) }
    {
        let n = self.setting.subfr_length;
        let at = n * k;
        let end = at + n;
        let before = b.control;
        let control = control_at(self.setting, before, k);
        let gain = control.gains_q16[k];
        let adj = gain_adjustment(b.gain, gain);
        let row = self.rows[k / 2];
        load(signal, &self.exc[at..end], adj);
        let s = Subframe {
            k,
            control,
            row,
            adj,
        };
        self.long_term(&s, &xq[..at], out_buf, past, &mut signal[16..]);
        lpc_synthesis(signal, &s.row, self.order, gain, &mut xq[at..end]);
        Carried { control, gain }
    }

    // All subframes.
    fn subframes(
        &self,
        b: Carried,
        past: &mut Past,
        signal: &mut [i32],
        out_buf: &mut [i16; 480],
        xq: &mut [i16],
    ) -> Carried
        requires { Framed self.now.setting b.control self.now.setting.nb_subfr × (length past.old ≡ self.now.setting.ltp_mem_length) × (self.now.setting.subfr_length * self.now.setting.nb_subfr ≤ length self.now.exc.now)
            × (length signal.old ≡ 16 + self.now.setting.subfr_length) × (self.now.setting.subfr_length * self.now.setting.nb_subfr ≤ length xq.old) }
        ensures { (held result past.new signal.new out_buf.new (take (self.now.setting.subfr_length * self.now.setting.nb_subfr) xq.new) ≡ subframes self.now.setting self.now.rows self.now.exc.now (held b past.old signal.old out_buf.old []) self.now.setting.nb_subfr)
            × (drop (self.now.setting.subfr_length * self.now.setting.nb_subfr) xq.new ≡ drop (self.now.setting.subfr_length * self.now.setting.nb_subfr) xq.old) }
    {
        let mut t = b;
        // A turn reads what the turn before left; k names its gain, lag, taps, row and stretches.
        for k in 0..self.setting.nb_subfr {
            t = self.subframe(k, t, past, signal, out_buf, xq);
        }
        t
    }

    // The frame; memory is the short-term memory before it and after.
    fn synthesise(
        &self,
        b: Carried,
        memory: &mut [i32; 16],
        out_buf: &mut [i16; 480],
        xq: &mut [i16],
    ) -> Carried
        requires { Framed self.now.setting b.control self.now.setting.nb_subfr × (self.now.setting.subfr_length * self.now.setting.nb_subfr ≤ length self.now.exc.now) × (self.now.setting.subfr_length * self.now.setting.nb_subfr ≤ length xq.old) }
        ensures { Left (subframes self.now.setting self.now.rows self.now.exc.now (begin self.now.setting b memory.old out_buf.old) self.now.setting.nb_subfr) result memory.new out_buf.new xq.new (drop (self.now.setting.subfr_length * self.now.setting.nb_subfr) xq.old) }
    {
        let end = 16 + self.setting.subfr_length;
        let mut signal = [0; 96];
        let mut past = Past {
            q15: [0; 640],
            idx: self.setting.ltp_mem_length,
        };
        copy_at(&mut signal, 0, memory);
        let t = self.subframes(b, &mut past, &mut signal[..end], out_buf, xq);
        copy_at(memory, 0, &signal[..16]);
        t
    }
}

fn transition(loss_cnt: i32, prev_signal_type: i32, voiced: bool) -> bool
    ensures { result ≡ (lt_z (pos 0) loss_cnt && eq_ℤ prev_signal_type (pos 2) && not voiced) }
{
    loss_cnt > 0 && matches!(prev_signal_type, 2) && !voiced
}

// 0 to 3 interpolate the lines, 4 does not; row 5 lets no other pass. The 4 has an arm of its own, since document 01 names it.
fn interpolates(nlsf_interp_coef_q2: i8) -> bool
    ensures { result ≡ within (pos 0) (pos 3) nlsf_interp_coef_q2 }
{
    match nlsf_interp_coef_q2 {
        0..=3 => true,
        4 => false,
        _ => false,
    }
}

pub fn setting_of(s: &SilkDecoderState, q: Params) -> Setting
    ensures { result ≡ setting_of (shape_of s.now) s.now q }
{
    let khz = s.fs_khz;
    let signal = q.signal;
    let voiced = is_voiced(signal);
    let nb_subfr = count_of(s.nb_subfr);
    let subfr_length = Rate::subfr_length(khz);
    let ltp_mem_length = Rate::ltp_mem_length(khz);
    let lpc_order = Rate::lpc_order(khz);
    let transition = transition(s.loss_cnt, s.prev_signal_type, voiced).then_some(s.lag_prev);
    let interpolated = interpolates(q.nlsf_interp_coef_q2);
    Setting {
        nb_subfr,
        subfr_length,
        ltp_mem_length,
        lpc_order,
        voiced,
        interpolated,
        transition,
    }
}

// A frame by any setting: of the buffers that are lent, exc holds the excitation, memory the short-term memory and out_buf the history, each before it and after.
// They are lent one by one, since a caller plays on parts of its own.
pub fn decode_by(
    f: Setting,
    q: Params,
    b: Carried,
    rows: [[i16; 16]; 2],
    pulses: &[i16],
    exc: &mut [i32],
    memory: &mut [i32; 16],
    out_buf: &mut [i16; 480],
    xq: &mut [i16],
) -> Carried
    requires { Framed f b.control f.nb_subfr × (f.subfr_length * f.nb_subfr ≤ length pulses.now) × (f.subfr_length * f.nb_subfr ≤ length exc.old) × (f.subfr_length * f.nb_subfr ≤ length xq.old) }
    ensures { (exc.new ≡ excitation (offset_q14 f.voiced q.quant_offset_type) pulses.now q.seed (f.subfr_length * f.nb_subfr) ++ drop (f.subfr_length * f.nb_subfr) exc.old)
        × Left (subframes f rows (excitation (offset_q14 f.voiced q.quant_offset_type) pulses.now q.seed (f.subfr_length * f.nb_subfr)) (begin f b memory.old out_buf.old) f.nb_subfr) result memory.new out_buf.new xq.new (drop (f.subfr_length * f.nb_subfr) xq.old) }
{
    let n = f.subfr_length * f.nb_subfr;
    let offset = offset_q14(f.voiced, q.quant_offset_type);
    excite(&mut exc[..n], pulses, offset, i32::from(q.seed));
    let source = Source {
        setting: f,
        order: Order::from_size(f.lpc_order),
        rows,
        exc: &exc[..n],
    };
    source.synthesise(b, memory, out_buf, xq)
}

// A received frame that no row refuses, on a state and a description that are lent: its buffers are played where they lie.
// Rows and pulses stand apart, as in document 01.
pub fn decode_core(a: &mut Answer, q: Params, rows: [[i16; 16]; 2], pulses: &[i16], xq: &mut [i16])
    requires { Framed (setting_of (shape_of a.old.state) a.old.state q) a.old.control (count_of a.old.state.nb_subfr) × (frame_length (shape_of a.old.state) ≤ length pulses.now) × (frame_length (shape_of a.old.state) ≤ length xq.old) }
    ensures { (a.new.state ≡ (decode_core (shape_of a.old.state) a.old.state q a.old.control rows pulses.now).state) × (a.new.control ≡ (decode_core (shape_of a.old.state) a.old.state q a.old.control rows pulses.now).control)
        × (xq.new ≡ (decode_core (shape_of a.old.state) a.old.state q a.old.control rows pulses.now).samples ++ drop (frame_length (shape_of a.old.state)) xq.old) }
{
    let f = setting_of(&a.state, q);
    let b = Carried {
        control: a.control,
        gain: a.state.prev_gain_q16,
    };
    let t = decode_by(
        f,
        q,
        b,
        rows,
        pulses,
        &mut a.state.exc_q14,
        &mut a.state.s_lpc_q14_buf,
        &mut a.state.out_buf,
        xq,
    );
    a.control = t.control;
    a.state.prev_gain_q16 = t.gain;
}

// By document 01 the state and the description go by value, and coefficient rows and pulses stand beside them.
pub fn silk_decode_core(
    s: SilkDecoderState,
    q: Params,
    c: SilkDecoderControl,
    rows: [[i16; 16]; 2],
    pulses: &[i16],
    xq: &mut [i16],
) -> Result<Answer, Refusal>
    ensures { (result ≡ core_answer s q c rows pulses.now xq.old) × (xq.new ≡ core_output s q c rows pulses.now xq.old) }
{
    judge::core(&s, q, &c, pulses.len(), xq.len())?;
    let mut a = Answer {
        state: s,
        control: c,
    };
    decode_core(&mut a, q, rows, pulses, xq);
    Ok(a)
}

// The excitation that core leaves in the state is 64 times RFC 6716's.
#[tactic(auto, using(crate::proofs::Standard::core_standard))]
pub fn core_excitation()
    ensures { CoreStandard }
{}
