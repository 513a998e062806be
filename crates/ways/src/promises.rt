// The theorems of `ways`, each held by the gate as the contract of a function with an empty body; specs/Ways.antt and
// specs/Instances.antt have the statements.
ghost use Rattle.ways.specs.Ways.{WaysCounted};
ghost use Rattle.ways.specs.Instances.{Instances};

// "The ways to settle all measures number exactly 2^(u - k) when the probe says yes, and 0 exactly when it says no."
#[tactic(auto, using(crate::proofs::Settling::ways_counted))]
pub fn ways_counted()
    ensures { WaysCounted }
{}

// two small systems with several calls have the theorem's setting, and the numbers are as computed
pub fn instances()
    ensures { Instances }
{}
