// How a state and a frame lie in the slices that a program lends. Places stand as numbers, as in the definitions.
// Inner: every function but put_is_read.
#![tactic(auto)]

pub mod frame;
pub mod state;

ghost use Rattle.std.specs.Prelude.{◌≡◌, ◌+◌, ◌≤◌, length};
ghost use Rattle.layout.specs.Layout.{part, WORDS, HALVES, short_state, numbers, last_numbers, with_words, with_halves, StateStored};
ghost use Rattle.layout.specs.Frame.{FrameStored};
ghost use Rattle.layout.specs.Lent.{SameState, SameFrame, IsStored};

use decoder::{Answer, SilkDecoderState};
use frame::FrameSlices;
use sigproc::copy_at;
use state::StateSlices;

pub const WORDS: usize = 698;

pub const HALVES: usize = 535;

// What is put is what is read.
pub fn put_is_read()
    ensures { StateStored × FrameStored }
{}

// Words or halves that are too few for a state.
#[tactic(auto, unfolding(crate::specs::Layout::short_state))]
pub fn short_state(words: usize, halves: usize) -> bool
    ensures { result ≡ short_state words halves }
{
    words < WORDS || halves < HALVES
}

// N elements from a place on.
fn part<T: Copy, const N: usize>(s: &[T], at: usize) -> [T; N]
    requires { at + N ≤ length s.now }
    ensures { result ≡ part s.now at N }
{
    let part: &[T; N] = s[at..at + N].try_into().unwrap();
    *part
}

// The numbers between the decoder's arrays and the noise's.
#[tactic(auto, unfolding(crate::specs::Layout::numbers))]
fn numbers(s: &SilkDecoderState) -> [i32; 20]
    ensures { result ≡ numbers s.now }
{
    [
        s.lag_prev,
        s.fs_khz,
        s.nb_subfr,
        s.frame_length,
        s.subfr_length,
        s.ltp_mem_length,
        s.lpc_order,
        s.first_frame_after_reset,
        s.loss_cnt,
        s.prev_signal_type,
        s.s_plc.pitch_l_q8,
        s.s_plc.last_frame_lost,
        s.s_plc.rand_seed,
        s.s_plc.conc_energy,
        s.s_plc.conc_energy_shift,
        s.s_plc.prev_gain_q16[0],
        s.s_plc.prev_gain_q16[1],
        s.s_plc.fs_khz,
        s.s_plc.nb_subfr,
        s.s_plc.subfr_length,
    ]
}

// Those behind the noise's arrays.
#[tactic(auto, unfolding(crate::specs::Layout::last_numbers))]
fn last_numbers(s: &SilkDecoderState) -> [i32; 5]
    ensures { result ≡ last_numbers s.now }
{
    [
        s.s_cng.cng_smth_gain_q16,
        s.s_cng.rand_seed,
        s.s_cng.fs_khz,
        s.settings.squelch,
        s.settings.edition,
    ]
}

fn put_words(s: &SilkDecoderState, words: &mut [i32])
    requires { WORDS ≤ length words.old }
    ensures { words.new ≡ with_words words.old s.now }
{
    let gain = [s.prev_gain_q16];
    let numbers = numbers(s);
    let last = last_numbers(s);
    copy_at(words, 0, &gain);
    copy_at(words, 1, &s.exc_q14);
    copy_at(words, 321, &s.s_lpc_q14_buf);
    copy_at(words, 337, &numbers);
    copy_at(words, 357, &s.s_cng.cng_exc_buf_q14);
    copy_at(words, 677, &s.s_cng.cng_synth_state);
    copy_at(words, 693, &last);
}

fn put_halves(s: &SilkDecoderState, halves: &mut [i16])
    requires { HALVES ≤ length halves.old }
    ensures { halves.new ≡ with_halves halves.old s.now }
{
    let scales = [s.s_plc.rand_scale_q14, s.s_plc.prev_ltp_scale_q14];
    copy_at(halves, 0, &s.out_buf);
    copy_at(halves, 480, &s.prev_nlsf_q15);
    copy_at(halves, 496, &s.s_plc.ltp_coef_q14);
    copy_at(halves, 501, &s.s_plc.prev_lpc_q12);
    copy_at(halves, 517, &scales);
    copy_at(halves, 519, &s.s_cng.cng_smth_nlsf_q15);
}

// A new state and a new description stored: of the description its lags and taps.
#[inline(always)]
pub fn put_answer(a: &Answer, state: &mut StateSlices<'_>, frame: &mut FrameSlices<'_>)
    ensures stored { IsStored a.now state.old state.new frame.old frame.new }
    ensures same_reference { SameState state.old state.new × SameFrame frame.old frame.new }
{
    state.put(&a.state);
    frame.put_lags_and_taps(&a.control);
}
