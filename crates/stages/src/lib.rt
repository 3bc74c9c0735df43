// Set-up and the stages on a state and a frame that lie in lent slices. Refused, a call changes nothing.
// Inner: every function.
#![tactic(auto)]

ghost use Rattle.std.specs.Prelude.{◌≡◌, [], ◌≤◌, length};
ghost use Rattle.layout.specs.Frame.{FRAME};
ghost use Rattle.layout.specs.Lent.{SameState, SameFrame};
ghost use Rattle.slices.specs.Slices.{slices, lent};
ghost use Rattle.stages.specs.Stages.{stored_on, set_up_on, core_on, plc_received_on, plc_lost_on, glue_on, noise_on};

use cng::silk_cng;
use decode_core::silk_decode_core;
use decoder::{Settings, SilkDecoderState};
use glue::silk_plc_glue_frames;
use layout::frame::{CoefNumbers, FrameNumbers, FrameSlices, put_lags};
use layout::put_answer;
use layout::state::StateSlices;
use plc::conceal::silk_plc_lost;
use plc::update::silk_plc_received;
use refusal::Refusal;

// A call's new state stored. By reference, since `?` on the answer itself copies the state.
#[inline(always)]
fn stored(
    answer: &Result<SilkDecoderState, Refusal>,
    state: &mut StateSlices<'_>,
) -> Result<(), Refusal>
    ensures answer { record { judged = result; after = slices state.new.words.now state.new.halves.now [] [] [] [] }
        ≡ stored_on answer.now (slices state.old.words.now state.old.halves.now [] [] [] []) }
    ensures same_reference { SameState state.old state.new }
{
    state.put(answer.as_ref().map_err(|r| *r)?);
    Ok(())
}

pub fn set_up(
    rate: i32,
    subframes: i32,
    settings: Settings,
    state: &mut StateSlices<'_>,
) -> Result<(), Refusal>
    ensures answer { record { judged = result; after = slices state.new.words.now state.new.halves.now [] [] [] [] }
        ≡ set_up_on rate subframes settings (slices state.old.words.now state.old.halves.now [] [] [] []) }
    ensures same_reference { SameState state.old state.new }
{
    let answer = decoder::set_up_with(rate, subframes, settings);
    stored(&answer, state)
}

pub fn core(
    state: &mut StateSlices<'_>,
    frame: &mut FrameSlices<'_>,
    pulses: &[i16],
    output: &mut [i16],
) -> Result<(), Refusal>
    ensures answer { record { judged = result; after = lent state.new frame.new pulses.now output.new }
        ≡ core_on (lent state.old frame.old pulses.now output.old) }
    ensures same_reference { SameState state.old state.new × SameFrame frame.old frame.new }
{
    let s = state.state();
    let numbers = frame.numbers();
    let coefs = frame.coefs();
    let q = numbers.params();
    let c = numbers.control(coefs.coefs);
    let rows = coefs.rows();
    let answer = silk_decode_core(s, q, c, rows, pulses, output);
    // Not `stored`, since lags and taps are new too; nor its `?`, whose proof goes through four calls of the library, where an arm tells the answer.
    match &answer {
        Ok(a) => {
            put_answer(a, state, frame);
            Ok(())
        }
        Err(refusal) => Err(*refusal),
    }
}

pub fn plc_received(
    state: &mut StateSlices<'_>,
    frame: FrameNumbers<'_>,
    coefs: CoefNumbers<'_>,
) -> Result<(), Refusal>
    ensures answer { record { judged = result; after = slices state.new.words.now state.new.halves.now frame.entry.numbers.now coefs.entry.coefs.now [] [] }
        ≡ plc_received_on (slices state.old.words.now state.old.halves.now frame.entry.numbers.now coefs.entry.coefs.now [] []) }
    ensures same_reference { SameState state.old state.new }
{
    let s = state.state();
    let q = frame.params();
    let c = frame.control(coefs.coefs);
    let rows = coefs.rows();
    let answer = silk_plc_received(s, q, c, rows);
    stored(&answer, state)
}

pub fn plc_lost(
    state: &mut StateSlices<'_>,
    frame: &mut [i32],
    output: &mut [i16],
) -> Result<(), Refusal>
    requires { FRAME ≤ length frame.old }
    ensures answer { record { judged = result; after = slices state.new.words.now state.new.halves.now frame.new [] [] output.new }
        ≡ plc_lost_on (slices state.old.words.now state.old.halves.now frame.old [] [] output.old) }
    ensures same_reference { SameState state.old state.new }
{
    let s = state.state();
    let numbers = FrameNumbers { numbers: frame };
    let c = numbers.tapless();
    let answer = silk_plc_lost(s, c, output);
    // Not `stored`, since the lags are new too; nor its `?`, as in core.
    match &answer {
        Ok(concealed) => {
            state.put(&concealed.state);
            put_lags(&concealed.control, frame);
            Ok(())
        }
        Err(refusal) => Err(*refusal),
    }
}

pub fn glue(state: &mut StateSlices<'_>, buffer: &mut [i16], n: usize) -> Result<(), Refusal>
    ensures answer { record { judged = result; after = slices state.new.words.now state.new.halves.now [] [] [] buffer.new }
        ≡ glue_on n (slices state.old.words.now state.old.halves.now [] [] [] buffer.old) }
    ensures same_reference { SameState state.old state.new }
{
    let s = state.state();
    let answer = silk_plc_glue_frames(s, buffer, n);
    stored(&answer, state)
}

pub fn noise(
    state: &mut StateSlices<'_>,
    frame: FrameNumbers<'_>,
    buffer: &mut [i16],
    n: usize,
) -> Result<(), Refusal>
    ensures answer { record { judged = result; after = slices state.new.words.now state.new.halves.now frame.entry.numbers.now [] [] buffer.new }
        ≡ noise_on n (slices state.old.words.now state.old.halves.now frame.entry.numbers.now [] [] buffer.old) }
    ensures same_reference { SameState state.old state.new }
{
    let s = state.state();
    let c = frame.tapless();
    let answer = silk_cng(s, c, buffer, n);
    stored(&answer, state)
}
