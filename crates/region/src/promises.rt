// The theorems of `region`, each held by the gate as the contract of a function with an empty body; specs/Promises.antt has the statements.
ghost use Rattle.region.specs.Promises.{AcceptedStands, OthersStay, DecisionsStay, RegionHolds, DecisionsFix};

// "hand back the region with that decision made"
#[tactic(auto, using(crate::proofs::Standing::accepted_stands))]
pub fn accepted_stands()
    ensures { AcceptedStands }
{}

// a decision alters its own atom alone; "against (nothing altered)"
pub fn others_stay()
    ensures { OthersStay }
{}

// the region only gains decisions
#[tactic(auto, using(crate::proofs::Standing::decisions_stay))]
pub fn decisions_stay()
    ensures { DecisionsStay }
{}

// the masks lose nothing: decisions on up to 512 atoms come back from their region
pub fn region_holds()
    ensures { RegionHolds }
{}

// and a fit region comes back from its decisions: "against (nothing altered)" is said of the very words
pub fn decisions_fix()
    ensures { DecisionsFix }
{}
