//! What the calls of a search promise, and the law that follows for whole runs of calls.
#![tactic(auto)]

ghost use Rattle.promises.specs.ChartLaw.{ProfileLaw};
ghost use Rattle.promises.specs.Law.{Law};

pub mod candidate;
pub mod order;
pub mod standing;
pub mod trip;

/// Every run of calls of a search over loads of one type keeps the law.
pub fn every_run_keeps_the_law<L>()
    ensures { Law L }
{}

/// Every run of calls of a search over profiles keeps the law, and what its charts tell is so.
pub fn every_profile_run_keeps_the_law()
    ensures { ProfileLaw }
{}
