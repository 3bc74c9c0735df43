// The one frame that mattered: the smallest frame number of a recording whose loss alone brings a played sample beyond a limit in size.
// Inner: every function but single_loss and smallest_loss.
#![tactic(auto)]

ghost use Rattle.std.specs.Prelude.{◌≡◌};
ghost use Rattle.single_loss.specs.Answer.{loss_answer};
ghost use Rattle.single_loss.specs.Claims.{AnswerMeans, NoneExactly};

use culprit::{first_culprit, passes};
use decoder::within;
use playback::set_up_for;
use recording::read;
use refusal::{Refusal, refuse_if};

// The frame's number, counted from 1, or none.
pub fn single_loss(bytes: &[u8], limit: i32) -> Result<Option<usize>, Refusal>
    ensures { result ≡ loss_answer bytes.now limit }
{
    let r = read(bytes)?;
    refuse_if(!within(1, 32767, limit), Refusal::Limit)?;
    let s = set_up_for(r.rate, r.subframes)?;
    let frames = r.frames_in(bytes);
    let loud = passes(s, r.rate, r.subframes, &frames, limit);
    refuse_if(loud, Refusal::Limit)?;
    let found = first_culprit(s, r.rate, r.subframes, &frames, limit);
    Ok(found)
}

// The answer names the smallest such frame, and none comes exactly if no single loss does it.
// Its law stands in an answer: the search doesn't take it by `using`.
pub fn smallest_loss()
    ensures { AnswerMeans × NoneExactly }
{}
