// A trial: sixteen listeners follow a load, each behind a link of its own draws.
// Inner: trial_refusal.
#![tactic(auto)]

ghost use Rattle.std.specs.Prelude.{◌≡◌};
ghost use Rattle.trial.specs.Trial.{trial_refusal, trial_of};
ghost use Rattle.trial.specs.Claims.{AddsUp, AllPlayed};

use decoder::is_squelch;
use listener::{Counts, Link, sixteen};
use refusal::{Refusal, refuse_if};

#[tactic(auto, unfolding(crate::specs::Trial::trial_refusal, refusal::specs::First::first_of))]
pub fn trial_refusal(rate: i32, subframes: i32, squelch: i32, frames: u32) -> Result<(), Refusal>
    ensures { result ≡ trial_refusal rate subframes squelch frames }
{
    refuse_if(!shape::is_rate(rate), Refusal::Rate)?;
    refuse_if(!shape::is_count(subframes), Refusal::Size)?;
    refuse_if(frames > 2147483647, Refusal::Length)?;
    refuse_if(!is_squelch(squelch), Refusal::Squelch)
}

// Each listener's counts. The frames of a load are not decoded: what becomes of each follows from the links alone.
// The seven parameters meet in this call alone: a struct of them would be made for it, and taken apart in it at once.
pub fn run(
    rate: i32,
    subframes: i32,
    seed: i32,
    squelch: i32,
    frames: u32,
    link: Link,
    seeds: [i32; 16],
) -> Result<[Counts; 16], Refusal>
    ensures { result ≡ trial_of rate subframes seed squelch frames link seeds }
{
    trial_refusal(rate, subframes, squelch, frames)?;
    Ok(sixteen(seeds, squelch as u32, link, frames))
}

// The three counts of each listener add up to the frames sent, and every frame is played.
// Its law stands in an answer: the search doesn't take it by `using`.
pub fn adds_up()
    ensures { AddsUp × AllPlayed }
{}
