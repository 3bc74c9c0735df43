// Gluing of the first frame after a loss (plc.rs, silk_plc_glue_frames).
// Inner: every function but silk_plc_glue_frames.
#![tactic(auto)]

ghost use Rattle.std.specs.Prelude.{◌≡◌, cond, ◌^◌, ◌-◌, ◌≤◌, ◌<◌, pos, nat_abs, ◌-ℤ◌, ◌*ℤ◌, length};
ghost use Rattle.std.specs.Int.Signed.{quot_z};
ghost use Rattle.word.specs.Int.{eq_ℤ, wrap16, wrap32};
ghost use Rattle.macros.specs.Fixed.{smulwb};
ghost use Rattle.sigproc.specs.Energy.{energy_at, energy_shift};
ghost use Rattle.glue.specs.Glue.{hold_energy, ramped, start_gain, lowered, joined, glue_frames};
ghost use Rattle.glue.specs.Answer.{glue_answer, glue_output};

use decoder::{SilkDecoderState, SilkPLCState};
use macros::{silk_clz32, silk_div32, silk_max_32, silk_smulwb, silk_sqrt_approx};
use refusal::Refusal;
use sigproc::silk_sum_sqr_shift;
use word::{add32, low16, shl32, shr32, sub32, wide16};

// An energy, not negative, that was shifted down by a shift of 0 to 31.
// Not sigproc::Energy with these facts: its definition gives one of every list, and of 2 ^ 31 samples one with a shift of 34.
#[derive(Clone, Copy)]
struct ShiftedEnergy {
    energy: i32,
    shift: i32,
    ghost natural: { energy ≡ pos (nat_abs energy) },
    ghost places: { shift ≡ pos (nat_abs shift) },
    ghost most: { nat_abs shift ≤ 31 },
}

// A sample times a gain (Q16); the cast to 16 bits cuts.
fn scaled(gain: i32, x: i16) -> i16
    ensures { result ≡ wrap16 (smulwb gain x) }
{
    low16(silk_smulwb(gain, wide16(x)))
}

fn ramp(frame: &mut [i16], gain: i32, slope: i32)
    ensures { frame.new ≡ ramped gain slope frame.old }
{
    let mut g = gain;
    for x in frame.iter_mut() {
        *x = scaled(g, *x);
        g = add32(g, slope);
        if g > 65536 {
            return;
        }
    }
}

// An energy at the larger of its shift and another's.
fn lowered(e: ShiftedEnergy, other: ShiftedEnergy) -> i32
    ensures { result ≡ pos (lowered e.energy (nat_abs other.shift) (nat_abs e.shift)) }
{
    shr32(e.energy, silk_max_32(sub32(other.shift, e.shift), 0))
}

fn start_gain(concealed: i32, received: i32) -> i32
    requires { (concealed ≡ pos (nat_abs concealed)) × (received ≡ pos (nat_abs received)) }
    ensures { result ≡ start_gain (nat_abs concealed) (nat_abs received) }
{
    let lz = sub32(silk_clz32(concealed), 1);
    let up = shl32(concealed, lz);
    let down = shr32(received, silk_max_32(sub32(24, lz), 0));
    shl32(silk_sqrt_approx(silk_div32(up, silk_max_32(down, 1))), 4)
}

fn slope_of(gain: i32, n: i32) -> i32
    requires { (n ≡ pos (nat_abs n)) × (1 ≤ nat_abs n) }
    ensures { result ≡ wrap32 (quot_z (wrap32 (pos 65536 -ℤ gain)) n *ℤ pos (2 ^ 2)) }
{
    shl32(silk_div32(sub32(65536, gain), n), 2)
}

// A frame's length is a clause here and below: as a type it would be two, around `&` for leave_energy and around `&mut` for
// receive, and each caller would make one for a single call.
fn join(frame: &mut [i16], held: ShiftedEnergy)
    requires { (1 ≤ length frame.old) × (length frame.old ≤ 320) }
    ensures { frame.new ≡ joined held.energy held.shift frame.old }
{
    let e = silk_sum_sqr_shift(frame);
    let own = ShiftedEnergy {
        energy: e.energy,
        shift: e.shift,
    };
    let received = lowered(own, held);
    let concealed = lowered(held, own);
    if concealed < received {
        let gain = start_gain(concealed, received);
        let slope = slope_of(gain, frame.len() as i32);
        ramp(frame, gain, slope);
    }
}

// What a lost frame leaves: its energy.
#[tactic(auto, using(word::proofs::Words::kept), unfolding(sigproc::specs::Energy::sum_sqr_shift))]
pub fn leave_energy(h: SilkPLCState, frame: &[i16]) -> SilkPLCState
    requires { (1 ≤ length frame.now) × (length frame.now ≤ 320) }
    ensures { result ≡ hold_energy h (pos 1) (pos (energy_at frame.now (energy_shift frame.now))) (pos (energy_shift frame.now)) }
{
    let e = silk_sum_sqr_shift(frame);
    SilkPLCState {
        last_frame_lost: 1,
        conc_energy: e.energy,
        conc_energy_shift: e.shift,
        ..h
    }
}

// A received frame is joined if the last was lost.
pub fn receive(h: SilkPLCState, frame: &mut [i16]) -> SilkPLCState
    requires { (1 ≤ length frame.old) × (length frame.old ≤ 320) × (h.conc_energy ≡ pos (nat_abs h.conc_energy)) × (h.conc_energy_shift ≡ pos (nat_abs h.conc_energy_shift)) × (nat_abs h.conc_energy_shift ≤ 31) }
    ensures { (result ≡ hold_energy h (pos 0) h.conc_energy h.conc_energy_shift)
        × (frame.new ≡ cond (eq_ℤ h.last_frame_lost (pos 0)) frame.old (joined h.conc_energy h.conc_energy_shift frame.old)) }
{
    let t = SilkPLCState {
        last_frame_lost: 0,
        ..h
    };
    if h.last_frame_lost == 0 {
        return t;
    }
    let held = ShiftedEnergy {
        energy: h.conc_energy,
        shift: h.conc_energy_shift,
    };
    join(frame, held);
    t
}

// The energy held is asked of the state's own fields, as in receive: an Energy beside the state would be tied to them by two equations.
#[tactic(auto, using(word::proofs::Words::kept, word::proofs::Order::is, word::proofs::Order::isnt), unfolding(crate::specs::Glue::glue_frames))]
fn glue_frames(s: SilkDecoderState, frame: &mut [i16]) -> SilkDecoderState
    requires { (1 ≤ length frame.old) × (length frame.old ≤ 320) × (s.s_plc.conc_energy ≡ pos (nat_abs s.s_plc.conc_energy)) × (s.s_plc.conc_energy_shift ≡ pos (nat_abs s.s_plc.conc_energy_shift)) × (nat_abs s.s_plc.conc_energy_shift ≤ 31) }
    ensures { (result ≡ (glue_frames s frame.old).state) × (frame.new ≡ (glue_frames s frame.old).frame) }
{
    let h = s.s_plc;
    if s.loss_cnt == 0 {
        let s_plc = receive(h, frame);
        return SilkDecoderState { s_plc, ..s };
    }
    let s_plc = leave_energy(h, frame);
    SilkDecoderState { s_plc, ..s }
}

// Gluing as a call on the first n samples of a buffer: refused, it changes nothing. By value, as document 01 has it.
pub fn silk_plc_glue_frames(
    s: SilkDecoderState,
    frame: &mut [i16],
    n: usize,
) -> Result<SilkDecoderState, Refusal>
    ensures { (result ≡ glue_answer s frame.old n) × (frame.new ≡ glue_output s frame.old n) }
{
    judge::glue(&s, frame.len(), n)?;
    Ok(glue_frames(s, &mut frame[..n]))
}
