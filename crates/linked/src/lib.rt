// Demand 3, with document 02, Note 12, and Note 6 for a program that links the library.
#![tactic(auto)]

ghost use Rattle.linked.specs.Claims.{LinkedHistory, LinkedLosses, LinkedQuiet, LinkedSooner};
ghost use Rattle.linked.specs.Announced.{AnnouncedLinked, LinesSeen};

// Whichever calls the program makes: none is refused for the post's own history, and drops can't keep the post loud,
// ordinary speech for fewer of them.
#[tactic(auto, using(crate::proofs::Lists::linked_history, crate::proofs::Lists::linked_losses, crate::proofs::Lists::linked_quiet, crate::proofs::Lists::linked_sooner))]
pub fn demand_3_linked()
    ensures { LinkedHistory × LinkedLosses × LinkedQuiet × LinkedSooner }
{}

// post_filter gives the filter of a post's noise from its lines, which the program can read in the post's slices.
#[tactic(auto, using(crate::proofs::Announced::announced_linked, crate::proofs::Announced::lines_seen))]
pub fn announced_linked()
    ensures { AnnouncedLinked × LinesSeen }
{}
