// What the editions change of the stability test and of the filter from lines.
#![tactic(auto)]

ghost use Rattle.editions.specs.Tests.{EditionsAlike, OlderFits};
ghost use Rattle.editions.specs.Filters.{AlikeFilter, StableFilter};

// If no step leaves 32 bits, both editions answer alike.
#[tactic(auto, using(crate::proofs::Tests::alike))]
pub fn editions_alike()
    ensures { EditionsAlike }
{}

// The older edition never answers that a step left 32 bits.
#[tactic(auto, using(crate::proofs::Tests::older_fits))]
pub fn older_fits()
    ensures { OlderFits }
{}

// If no step of the stability test leaves 32 bits, both editions have the same filter.
#[tactic(auto, using(crate::proofs::Filters::alike_filter))]
pub fn alike_filter()
    ensures { AlikeFilter }
{}

// A filter from lines passes its own edition's stability test.
#[tactic(auto, using(crate::proofs::Stable::stable_filter))]
pub fn stable_filter()
    ensures { StableFilter }
{}
