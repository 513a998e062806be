// The theorems of `inspect`, each held by the gate as the contract of a function with an empty body; specs/Promises.antt has the statements.
ghost use Rattle.inspect.specs.Promises.{ForcedFollow, RefutedNone, PreparedRefuted, RegionGains, RegionsFit, KnowledgeAncestor, NeverRefused};

// "one open atom, it and its value join the forced list": what meets the basis rows and agrees with the region has these values
#[tactic(auto, using(crate::proofs::Inspections::forced_follow))]
pub fn forced_follow()
    ensures { ForcedFollow }
{}

// "no open atom and wrong parity, Refuted", "an atom decided otherwise, Refuted": then nothing meets the basis rows and agrees
#[tactic(auto, using(crate::proofs::Inspections::refuted_none))]
pub fn refuted_none()
    ensures { RefutedNone }
{}

// of preparation's own system, then nothing meets the rows handed in and agrees
#[tactic(auto, using(crate::proofs::Inspections::prepared_refuted))]
pub fn prepared_refuted()
    ensures { PreparedRefuted }
{}

// the region only gains decisions
#[tactic(auto, using(crate::proofs::Inspections::region_gains))]
pub fn region_gains()
    ensures { RegionGains }
{}

// after any list of calls the region is fit, and the knowledge has its atom count
pub fn regions_fit()
    ensures { RegionsFit }
{}

// knowledge is an ancestor of the region at hand and of every later one
#[tactic(auto, using(crate::proofs::Runs::knowledge_ancestor))]
pub fn knowledge_ancestor()
    ensures { KnowledgeAncestor }
{}

// over what preparation filled, no list of calls leads to a refusal
pub fn never_refused()
    ensures { NeverRefused }
{}
