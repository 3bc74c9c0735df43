// The functions of a load, which crate `post_load_c` exports for a Rust or C program.
// A contract is one equation: the answer and the slices at exit are those of the call's definition.
#![tactic(auto)]

ghost use Rattle.std.specs.Prelude.{◌≡◌, false, length};
ghost use Rattle.generator.specs.Draws.{drawn};
ghost use Rattle.generator.specs.Leaps.{undoing};
ghost use Rattle.post_load.specs.Calls.{called, short_load, framed, coefficiented, pulsed, load_frame_call};

use layout::frame::{COEFS, FRAME};
use load::{
    before, control_of, is_received, lines_of, load_refusal, params_of, pulses_of, rows_of,
};
use numbers::{put_coefs, put_frame};
use refusal::code;
use sigproc::copy_at;

// Too few numbers for a frame, or places for pulses.
#[tactic(auto, unfolding(crate::specs::Calls::short_load))]
fn short_load(frame: usize, coefs: usize, pulses: usize) -> bool
    ensures { result ≡ short_load frame coefs pulses }
{
    frame < FRAME || coefs < COEFS || pulses < 320
}

// The frame whose draws follow x, put into the slices.
#[tactic(auto, using(crate::proofs::Ends::long))]
fn put_load(
    rate: i32,
    subframes: i32,
    x: i32,
    frame: &mut [i32],
    coefs: &mut [i16],
    pulses: &mut [i16],
)
    requires { short_load (length frame.old) (length coefs.old) (length pulses.old) ≡ false }
    ensures { (frame.new ≡ framed rate subframes x frame.old)
        × (coefs.new ≡ coefficiented rate x coefs.old)
        × (pulses.new ≡ pulsed x pulses.old) }
{
    let q = params_of(x);
    let c = control_of(x, rate);
    let rows = rows_of(x);
    let lines = lines_of(x);
    let p = pulses_of(x);
    put_frame(frame, is_received(x), rate, subframes, q, c);
    put_coefs(coefs, c, rows, lines);
    copy_at(pulses, 0, &p);
}

// C interface: its parameters are post_load_c's.
pub fn post_load_frame(
    rate: i32,
    subframes: i32,
    seed: i32,
    number: u32,
    frame: &mut [i32],
    coefs: &mut [i16],
    pulses: &mut [i16],
) -> i32
    ensures { called result frame.new coefs.new pulses.new
        ≡ load_frame_call rate subframes seed number frame.old coefs.old pulses.old }
{
    if short_load(frame.len(), coefs.len(), pulses.len()) {
        return -1;
    }
    let judged = load_refusal(rate, subframes, number);
    if judged.is_ok() {
        put_load(rate, subframes, before(seed, number), frame, coefs, pulses);
    }
    code(judged)
}

// The generator after a number of draws, in one leap.
pub fn post_load_leap(seed: i32, draws: u64) -> i32
    ensures { result ≡ drawn seed draws }
{
    generator::drawn(seed, draws)
}

// How many draws undo these.
pub fn post_load_undoing(draws: u64) -> u64
    ensures { result ≡ undoing draws }
{
    generator::undoing(draws)
}
