// Lists of a load's frames.
#![tactic(auto)]

ghost use Rattle.load_lists.specs.Claims.{LoadPlayed, AnyLosses};

// No frame of a load is refused by a post that was set up for its shape, wherever the load starts and whichever frames are lost.
#[tactic(auto, using(crate::proofs::Sent::load_played, crate::proofs::Sent::any_losses_lem))]
pub fn load_played()
    ensures { LoadPlayed × AnyLosses }
{}
