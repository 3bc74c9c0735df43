// The function of a trial, which an archive exports for a Rust or C program.
// Its contract is one equation: the answer and the slice at exit are those of the call's definition.
#![tactic(auto)]

ghost use Rattle.std.specs.Prelude.{◌≡◌, ◌≤◌, length};
ghost use Rattle.post_trial.specs.Call.{short_trial, put_counts, trial_call};

use listener::{Counts, Link, seeds_of};
use refusal::code;
use sigproc::copy_at;
use trial::run;

// Too few seeds, or places for counts.
#[tactic(auto, unfolding(crate::specs::Call::short_trial))]
fn short_trial(seeds: usize, counts: usize) -> bool
    ensures { result ≡ short_trial seeds counts }
{
    seeds < 16 || counts < 48
}

// The frames received, of each listener, then those concealed, then those squelched.
fn put_counts(counts: &mut [u32], rows: [Counts; 16])
    requires { 48 ≤ length counts.old }
    ensures { counts.new ≡ put_counts counts.old rows }
{
    let received = rows.map(
        |c: Counts| -> u32
            ensures { result ≡ c.received }
        { c.received },
    );
    let concealed = rows.map(
        |c: Counts| -> u32
            ensures { result ≡ c.concealed }
        { c.concealed },
    );
    let squelched = rows.map(
        |c: Counts| -> u32
            ensures { result ≡ c.squelched }
        { c.squelched },
    );
    copy_at(counts, 0, &received);
    copy_at(counts, 16, &concealed);
    copy_at(counts, 32, &squelched);
}

// C interface: its parameters are post_load_c's.
pub fn post_trial(
    rate: i32,
    subframes: i32,
    seed: i32,
    squelch: i32,
    frames: u32,
    leave_good: u16,
    leave_bad: u16,
    seeds: &[i32],
    counts: &mut [u32],
) -> i32
    ensures { record { answer = result; counts = counts.new }
        ≡ trial_call rate subframes seed squelch frames leave_good leave_bad seeds.now counts.old }
{
    if short_trial(seeds.len(), counts.len()) {
        return -1;
    }
    let link = Link {
        leave_good,
        leave_bad,
    };
    let listeners = seeds_of(seeds);
    match run(rate, subframes, seed, squelch, frames, link, listeners) {
        Ok(rows) => {
            put_counts(counts, rows);
            0
        }
        Err(refusal) => code(Err(refusal)),
    }
}
