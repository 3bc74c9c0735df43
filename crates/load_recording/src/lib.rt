// A load as a yard recording: its frames from any one on, at most 59. x is the generator's value before a frame.
// Inner: every function but record_load and load_recorded.
#![tactic(auto)]

ghost use Rattle.std.specs.Prelude.{◌≡◌};
ghost use Rattle.load.specs.Load.{before};
ghost use Rattle.recorder.specs.Writing.{append_of};
ghost use Rattle.round_trip.specs.Claims.{write_of};
ghost use Rattle.load_recording.specs.Frames.{recorded_of, frames_from};
ghost use Rattle.load_recording.specs.Claims.{LoadRecorded};

use load::{after, before, control_of, is_received, lines_of, params_of, pulses_of, rows_of};
use recorder::{append_lost, append_received, begin};
use refusal::Refusal;

// One frame more behind frames that are written. recorder's `append` makes this choice of a record, and post_recording's of numbers: a trait of a frame's
// parts, each with its law, would be longer than the three.
fn append_drawn(
    bytes: &mut [u8],
    frames: usize,
    rate: i32,
    subframes: i32,
    x: i32,
) -> Result<(), Refusal>
    ensures { record { judged = result; bytes = bytes.new } ≡ append_of rate subframes bytes.old frames (recorded_of rate x) }
{
    if !is_received(x) {
        return append_lost(bytes, frames, rate, subframes);
    }
    let q = params_of(x);
    let c = control_of(x, rate);
    let rows = rows_of(x);
    let lines = lines_of(x);
    let pulses = pulses_of(x);
    append_received(bytes, frames, rate, subframes, q, c, rows, lines, &pulses)
}

// A recording of frames of a load from the first on, in lent bytes. Shape, seed and frames stand one by one, as the definitions take them.
pub fn record_load(
    bytes: &mut [u8],
    rate: i32,
    subframes: i32,
    seed: i32,
    first: u32,
    count: usize,
) -> Result<(), Refusal>
    ensures { record { judged = result; bytes = bytes.new } ≡ write_of rate subframes bytes.old (frames_from rate seed first count) }
{
    begin(bytes, rate, subframes)?;
    let mut x = before(seed, first);
    // By number, which each frame is appended by: a range of draws that follow one another would be an iterator of its own.
    for i in 0..count {
        append_drawn(bytes, i, rate, subframes, x)?;
        x = after(x);
    }
    Ok(())
}

// Any 59 frames of a load in a row, or fewer, are recorded, and read back as they were drawn.
// Its law stands in an answer: the search doesn't take it by `using`.
pub fn load_recorded()
    ensures { LoadRecorded }
{}
