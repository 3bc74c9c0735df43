// What squelch and edition change of a whole frame.
#![tactic(auto)]

ghost use Rattle.frame_settings.specs.Squelch.{StateAsBefore, SamplesAsBefore, LostAsBefore, PlaysZeros};
ghost use Rattle.frame_settings.specs.Editions.{ReceivedAlike};
ghost use Rattle.frame_settings.specs.Losses.{LostAlike};

// A squelch puts zeros in place of a lost frame's samples and changes nothing else.
#[tactic(auto, using(crate::proofs::Squelch::state_as_before, crate::proofs::Squelch::samples_as_before, crate::proofs::Squelch::lost_as_before, crate::proofs::Squelch::plays_zeros))]
pub fn squelch_silences()
    ensures { StateAsBefore × SamplesAsBefore × LostAsBefore × PlaysZeros }
{}

// A received frame is the same under both editions.
// Its law stands in an answer: the search doesn't take it by `using`.
pub fn received_alike()
    ensures { ReceivedAlike }
{}

// So is a lost one in which no step of the stability test leaves 32 bits.
// Its law stands in an answer: the search doesn't take it by `using`.
pub fn lost_alike()
    ensures { LostAlike }
{}
