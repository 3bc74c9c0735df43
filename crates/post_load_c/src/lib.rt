// The functions of a load and of its trial that a Rust or C program links. Each is one call of crate `post_load` or `post_trial`, with its contract.
// Only a static library exports, and no crate can depend on one, so that each stands again.
#![tactic(auto)]

ghost use Rattle.std.specs.Prelude.{◌≡◌};
ghost use Rattle.generator.specs.Draws.{drawn};
ghost use Rattle.generator.specs.Leaps.{undoing};
ghost use Rattle.post_load.specs.Calls.{called, load_frame_call};
ghost use Rattle.post_trial.specs.Call.{trial_call};

// C interface: each number and each slice is a parameter.
#[unsafe(no_mangle)]
pub extern "C" fn post_load_frame(
    rate: i32,
    subframes: i32,
    seed: i32,
    number: u32,
    frame: &mut [i32],
    coefs: &mut [i16],
    pulses: &mut [i16],
) -> i32
    ensures { called result frame.new coefs.new pulses.new
        ≡ load_frame_call rate subframes seed number frame.old coefs.old pulses.old }
{
    post_load::post_load_frame(rate, subframes, seed, number, frame, coefs, pulses)
}

// The generator after a number of draws, in one leap.
#[unsafe(no_mangle)]
pub extern "C" fn post_load_leap(seed: i32, draws: u64) -> i32
    ensures { result ≡ drawn seed draws }
{
    post_load::post_load_leap(seed, draws)
}

// How many draws undo these.
#[unsafe(no_mangle)]
pub extern "C" fn post_load_undoing(draws: u64) -> u64
    ensures { result ≡ undoing draws }
{
    post_load::post_load_undoing(draws)
}

// C interface: each number and each slice is a parameter.
#[unsafe(no_mangle)]
pub extern "C" fn post_trial(
    rate: i32,
    subframes: i32,
    seed: i32,
    squelch: i32,
    frames: u32,
    leave_good: u16,
    leave_bad: u16,
    seeds: &[i32],
    counts: &mut [u32],
) -> i32
    ensures { record { answer = result; counts = counts.new }
        ≡ trial_call rate subframes seed squelch frames leave_good leave_bad seeds.now counts.old }
{
    post_trial::post_trial(
        rate, subframes, seed, squelch, frames, leave_good, leave_bad, seeds, counts,
    )
}
