// The whole frame on a state and a frame that lie in lent slices, or in parts of them.
// The lent slices stand apart: a struct of them would lend each `&mut` on again, and each contract would name all of them as it does now.
// Inner: every function.
#![tactic(auto)]

ghost use Rattle.std.specs.Prelude.{◌≡◌, Ok};
ghost use Rattle.decoder.specs.declared.Frame.TheVariants.{Received, Lost};
ghost use Rattle.layout.specs.Frame.{frame_in};
ghost use Rattle.layout.specs.Lent.{SameState, SameFrame};
ghost use Rattle.slices.specs.Slices.{lent};
ghost use Rattle.slices.specs.Whole.{refusal_in, answered, IsTaken};

use decode_frame::{play_lost, play_received};
use decoder::{Answer, Frame, Params};
use layout::frame::{CoefNumbers, FrameNumbers, FrameSlices};
use layout::put_answer;
use layout::state::{StateNumbers, StateSlices};
use refusal::Refusal;

// Why the frame is turned down, with so many pulses and output samples lent; nothing is written.
pub fn frame_refusal(
    state: StateNumbers<'_>,
    frame: FrameNumbers<'_>,
    coefs: CoefNumbers<'_>,
    pulses: usize,
    output: usize,
) -> Result<(), Refusal>
    ensures { result ≡ refusal_in state.entry.words.now state.entry.halves.now frame.entry.numbers.now coefs.entry.coefs.now pulses output }
{
    let s = state.state();
    let f = frame.frame();
    let c = frame.control(coefs.coefs);
    let lines = coefs.lines();
    let rate = frame.rate();
    let subframes = frame.subframes();
    judge::frame(&s, rate, subframes, f, &c, &lines, pulses, output)
}

// A received frame that no row refuses.
fn received(
    q: Params,
    state: &mut StateSlices<'_>,
    frame: &mut FrameSlices<'_>,
    pulses: &[i16],
    output: &mut [i16],
)
    requires { IsTaken (Received q) (lent state.old frame.old pulses.now output.old) }
    ensures answer { record { judged = Ok tt; after = lent state.new frame.new pulses.now output.new }
        ≡ answered (Received q) (lent state.old frame.old pulses.now output.old) }
    ensures same_reference { SameState state.old state.new × SameFrame frame.old frame.new }
{
    let s = state.state();
    let numbers = frame.numbers();
    let coefs = frame.coefs();
    let c = numbers.control(coefs.coefs);
    let rows = coefs.rows();
    let lines = coefs.lines();
    let rate = numbers.rate();
    let subframes = numbers.subframes();
    let mut played = Answer {
        state: s,
        control: c,
    };
    play_received(&mut played, rate, subframes, q, rows, lines, pulses, output);
    put_answer(&played, state, frame);
}

// A lost one, of which the pulses are not read.
fn lost(
    state: &mut StateSlices<'_>,
    frame: &mut FrameSlices<'_>,
    pulses: &[i16],
    output: &mut [i16],
)
    requires { IsTaken Lost (lent state.old frame.old pulses.now output.old) }
    ensures answer { record { judged = Ok tt; after = lent state.new frame.new pulses.now output.new }
        ≡ answered Lost (lent state.old frame.old pulses.now output.old) }
    ensures same_reference { SameState state.old state.new × SameFrame frame.old frame.new }
{
    let s = state.state();
    let numbers = frame.numbers();
    let c = numbers.control(frame.coefs().coefs);
    let rate = numbers.rate();
    let subframes = numbers.subframes();
    let mut concealed = Answer {
        state: s,
        control: c,
    };
    play_lost(&mut concealed, rate, subframes, output);
    put_answer(&concealed, state, frame);
}

// The frame, received or lost. Refused, it changes nothing.
pub fn play_frame(
    state: &mut StateSlices<'_>,
    frame: &mut FrameSlices<'_>,
    pulses: &[i16],
    output: &mut [i16],
) -> Result<(), Refusal>
    ensures answer { record { judged = result; after = lent state.new frame.new pulses.now output.new }
        ≡ answered (frame_in frame.old.numbers.now) (lent state.old frame.old pulses.now output.old) }
    ensures same_reference { SameState state.old state.new × SameFrame frame.old frame.new }
{
    let numbers = frame.numbers();
    frame_refusal(
        state.numbers(),
        numbers,
        frame.coefs(),
        pulses.len(),
        output.len(),
    )?;
    match numbers.frame() {
        Frame::Received(q) => received(q, state, frame, pulses, output),
        Frame::Lost => lost(state, frame, pulses, output),
    }
    Ok(())
}
