// The function of the one frame that mattered, which an archive exports for a Rust or C program.
// Its contract is one equation: the answer and the slice at exit are those of the call's definition.
#![tactic(auto)]

ghost use Rattle.std.specs.Prelude.{◌≡◌, ◌≤◌, [], ◌∷◌, pos};
ghost use Rattle.sigproc.specs.Place.{put_at};
ghost use Rattle.refusal.specs.Refusals.{if_accepted};
ghost use Rattle.post_single_loss.specs.Call.{number_of, loss_number, loss_judged, single_loss_call};

use refusal::{Refusal, code, refuse_if};
use sigproc::copy_at;
use single_loss::single_loss;

// A frame's number, and 0 for none: the C interface's slice holds no Option.
#[tactic(auto, unfolding(crate::specs::Call::number_of))]
fn number_of(found: Option<usize>) -> i32
    requires { number_of found ≤ 60 }
    ensures { result ≡ pos (number_of found) }
{
    found.unwrap_or(0) as i32
}

// The judgement of post_single_loss, and the slice.
fn find_into(bytes: &[u8], limit: i32, number: &mut [i32]) -> Result<(), Refusal>
    ensures { (result ≡ loss_judged bytes.now limit number.old)
        × (number.new ≡ if_accepted result (put_at number.old 0 (pos (loss_number bytes.now limit) ∷ [])) number.old) }
{
    refuse_if(number.len() < 1, Refusal::Record)?;
    let found = single_loss(bytes, limit)?;
    copy_at(number, 0, &[number_of(found)]);
    Ok(())
}

// The number of the first frame whose loss alone brings a sample beyond the limit, 0 if there is none.
pub fn post_single_loss(bytes: &[u8], limit: i32, number: &mut [i32]) -> i32
    ensures { record { answer = result; number = number.new } ≡ single_loss_call bytes.now limit number.old }
{
    code(find_into(bytes, limit, number))
}
