// The whole frame (decode_frame.rs).
// Inner: play_received and play_lost.
// The calls' lists are long since by document 01 coefficient rows, lines and pulses stand beside a frame and its description.
// Four functions ask for a frame's length: a struct of a shape and the lent samples would be lent on by `&mut`, and each would take it apart again.
#![tactic(auto)]

ghost use Rattle.std.specs.Prelude.{Ok, ◌≡◌, true, false, cond, [], ◌≤◌, pos, length, replicate};
ghost use Rattle.word.specs.Int.{eq_ℤ};
ghost use Rattle.refusal.specs.Refusals.{code_of};
ghost use Rattle.shape.specs.Shape.{is_rate, is_count, rate_of, count_of, frame_length};
ghost use Rattle.decoder.specs.State.{shape_of};
ghost use Rattle.decoder.specs.Settings.{squelched};
ghost use Rattle.decoder.specs.Ranges.{cng_fits};
ghost use Rattle.decoder.specs.Accepted.{Accepted};
ghost use Rattle.decoder.specs.declared.Frame.TheVariants.{Received, Lost};
ghost use Rattle.decode_core.specs.Core.{setting_of};
ghost use Rattle.decode_core.specs.Ready.{Framed};
ghost use Rattle.decode_frame.specs.WholeFrame.{remembered, finished, received, lost, muted};
ghost use Rattle.decode_frame.specs.Call.{frame_call};
ghost use Rattle.decode_frame.specs.Answer.{frame_refusal, frame_answer, frame_output};
ghost use Rattle.decode_frame.specs.Standard.{FrameStandard};

use decode_core::decode_core;
use decoder::{Answer, Frame, Params, SilkDecoderControl, SilkDecoderState, reshape, squelched};
use glue::{leave_energy, receive};
use plc::conceal::plc_conceal;
use refusal::Refusal;
use shape::{FrameShape, Rate};
use sigproc::{update_out_buf, with_front};

fn remembered(a: &mut Answer, frame: &[i16])
    requires { (is_rate a.old.state.fs_khz ≡ true) × (is_count a.old.state.nb_subfr ≡ true) × (length frame.now ≡ frame_length (shape_of a.old.state)) }
    ensures { a.new ≡ record { state = remembered (shape_of a.old.state) a.old.state frame.now; control = a.old.control } }
{
    let n = Rate::ltp_mem_length(a.state.fs_khz);
    a.state.out_buf = update_out_buf(a.state.out_buf, n, frame);
}

// Noise, the energy for gluing and lag_prev of a lost frame.
fn finished(a: &mut Answer, xq: &mut [i16])
    requires { (is_rate a.old.state.fs_khz ≡ true) × (is_count a.old.state.nb_subfr ≡ true) × (cng_fits (rate_of a.old.state.fs_khz) a.old.state.s_cng ≡ true)
        × (length xq.old ≡ frame_length (shape_of a.old.state)) × (eq_ℤ a.old.state.loss_cnt (pos 0) ≡ false) }
    ensures { record { state = a.new.state; control = a.new.control; samples = xq.new } ≡ finished (shape_of a.old.state) (record { state = a.old.state; control = a.old.control; samples = xq.old }) }
{
    let plc = a.state.s_plc;
    let edition = a.state.settings.edition;
    let khz = a.state.fs_khz;
    let n = shape::count_of(a.state.nb_subfr);
    cng::lost(
        &mut a.state.s_cng,
        khz,
        edition,
        plc.rand_scale_q14,
        plc.prev_gain_q16[1],
        xq,
    );
    a.state.s_plc = leave_energy(plc, xq);
    a.state.lag_prev = a.control.pitch_l[n - 1];
}

// Zeros for all samples, where b holds.
fn mute(b: bool, xq: &mut [i16])
    ensures { xq.new ≡ cond b (replicate (length xq.old) (pos 0)) xq.old }
{
    if b {
        xq.fill(0);
    }
}

fn lost(a: &mut Answer, xq: &mut [i16])
    requires { Accepted (rate_of a.old.state.fs_khz) a.old.state × (eq_ℤ a.old.state.loss_cnt (pos 2147483647) ≡ false) × (length xq.old ≡ frame_length (shape_of a.old.state)) }
    ensures { record { state = a.new.state; control = a.new.control; samples = xq.new }
        ≡ muted (shape_of a.old.state) (squelched a.old.state) (lost (shape_of a.old.state) a.old.state a.old.control) }
{
    let quiet = squelched(&a.state);
    plc_conceal(a, xq);
    remembered(a, xq);
    finished(a, xq);
    mute(quiet, xq);
}

fn received(
    a: &mut Answer,
    q: Params,
    rows: [[i16; 16]; 2],
    lines: [i16; 16],
    pulses: &[i16],
    xq: &mut [i16],
)
    requires { Accepted (rate_of a.old.state.fs_khz) a.old.state × Framed (setting_of (shape_of a.old.state) a.old.state q) a.old.control (count_of a.old.state.nb_subfr)
        × (frame_length (shape_of a.old.state) ≤ length pulses.now) × (length xq.old ≡ frame_length (shape_of a.old.state)) }
    ensures { record { state = a.new.state; control = a.new.control; samples = xq.new } ≡ received (shape_of a.old.state) a.old.state q a.old.control rows lines pulses.now }
{
    let shape = FrameShape {
        fs_khz: a.state.fs_khz,
        nb_subfr: a.state.nb_subfr,
    };
    let count = shape::count_of(shape.nb_subfr);
    let kind = i32::from(q.signal);
    let order = Rate::lpc_order(a.state.fs_khz);
    a.state.prev_nlsf_q15 = with_front(a.state.prev_nlsf_q15, lines, order);
    decode_core(a, q, rows, pulses, xq);
    remembered(a, xq);
    let updated = plc::update::received(
        a.state.s_plc,
        shape.fs_khz,
        shape.nb_subfr,
        q.signal,
        a.control,
        rows,
    );
    cng::received(
        &mut a.state.s_cng,
        &a.state.exc_q14,
        a.state.prev_nlsf_q15,
        &a.control.gains_q16,
        shape,
        kind,
    );
    a.state.s_plc = receive(updated, xq);
    a.state.lag_prev = a.control.pitch_l[count - 1];
    a.state.first_frame_after_reset = 0;
    a.state.loss_cnt = 0;
    a.state.prev_signal_type = kind;
}

// A received frame of a coming shape that no row refuses, its parts as document 01 names them; by value the state would be copied.
pub fn play_received(
    a: &mut Answer,
    khz: i32,
    nb_subfr: i32,
    q: Params,
    rows: [[i16; 16]; 2],
    lines: [i16; 16],
    pulses: &[i16],
    xq: &mut [i16],
)
    requires { code_of (frame_refusal a.old.state (frame_call khz nb_subfr (Received q) a.old.control rows lines pulses.now xq.old)) ≡ 0 }
    ensures { (Ok a.new ≡ frame_answer a.old.state (frame_call khz nb_subfr (Received q) a.old.control rows lines pulses.now xq.old))
        × (xq.new ≡ frame_output a.old.state (frame_call khz nb_subfr (Received q) a.old.control rows lines pulses.now xq.old)) }
{
    let n = shape::frame_length(khz, nb_subfr);
    reshape(&mut a.state, khz, nb_subfr);
    received(a, q, rows, lines, pulses, &mut xq[..n]);
}

// A lost one, likewise.
pub fn play_lost(a: &mut Answer, khz: i32, nb_subfr: i32, xq: &mut [i16])
    requires { code_of (frame_refusal a.old.state (frame_call khz nb_subfr Lost a.old.control [] [] [] xq.old)) ≡ 0 }
    ensures { (Ok a.new ≡ frame_answer a.old.state (frame_call khz nb_subfr Lost a.old.control [] [] [] xq.old))
        × (xq.new ≡ frame_output a.old.state (frame_call khz nb_subfr Lost a.old.control [] [] [] xq.old)) }
{
    let n = shape::frame_length(khz, nb_subfr);
    reshape(&mut a.state, khz, nb_subfr);
    lost(a, &mut xq[..n]);
}

// A received frame of a coming shape, its parts as document 01 names them: refused, it changes nothing.
pub fn received_frame(
    s: SilkDecoderState,
    khz: i32,
    nb_subfr: i32,
    q: Params,
    c: SilkDecoderControl,
    rows: [[i16; 16]; 2],
    lines: [i16; 16],
    pulses: &[i16],
    xq: &mut [i16],
) -> Result<Answer, Refusal>
    ensures { (result ≡ frame_answer s (frame_call khz nb_subfr (Received q) c rows lines pulses.now xq.old))
        × (xq.new ≡ frame_output s (frame_call khz nb_subfr (Received q) c rows lines pulses.now xq.old)) }
{
    judge::received(&s, khz, nb_subfr, q, &c, &lines, pulses.len(), xq.len())?;
    let mut a = Answer {
        state: s,
        control: c,
    };
    play_received(&mut a, khz, nb_subfr, q, rows, lines, pulses, xq);
    Ok(a)
}

// A lost frame of a coming shape: refused, it changes nothing.
pub fn lost_frame(
    s: SilkDecoderState,
    khz: i32,
    nb_subfr: i32,
    c: SilkDecoderControl,
    xq: &mut [i16],
) -> Result<Answer, Refusal>
    ensures { (result ≡ frame_answer s (frame_call khz nb_subfr Lost c [] [] [] xq.old)) × (xq.new ≡ frame_output s (frame_call khz nb_subfr Lost c [] [] [] xq.old)) }
{
    judge::lost(&s, khz, nb_subfr, xq.len())?;
    let mut a = Answer {
        state: s,
        control: c,
    };
    play_lost(&mut a, khz, nb_subfr, xq);
    Ok(a)
}

// A whole frame, its parts as document 01 names them.
pub fn silk_decode_frame(
    s: SilkDecoderState,
    khz: i32,
    nb_subfr: i32,
    f: Frame,
    c: SilkDecoderControl,
    rows: [[i16; 16]; 2],
    lines: [i16; 16],
    pulses: &[i16],
    xq: &mut [i16],
) -> Result<Answer, Refusal>
    ensures { (result ≡ frame_answer s (frame_call khz nb_subfr f c rows lines pulses.now xq.old))
        × (xq.new ≡ frame_output s (frame_call khz nb_subfr f c rows lines pulses.now xq.old)) }
{
    let Frame::Received(q) = f else {
        return lost_frame(s, khz, nb_subfr, c, xq);
    };
    received_frame(s, khz, nb_subfr, q, c, rows, lines, pulses, xq)
}

// The excitation that a received frame leaves in the state is 64 times RFC 6716's.
#[tactic(auto, using(crate::proofs::Standard::frame_standard))]
pub fn frame_excitation()
    ensures { FrameStandard }
{}
