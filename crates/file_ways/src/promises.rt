// The theorems of `file_ways`, each held by the gate as the contract of a function with an empty body; specs/Probes.antt and specs/Calls.antt have
// the statements.
ghost use Rattle.file_ways.specs.Calls.{CallsAnswered};
ghost use Rattle.file_ways.specs.Probes.{ProbesCounted};

// "The ways to settle all measures number exactly 2^(u - k) when the probe says yes, and 0 exactly when it says no", line by line.
#[tactic(auto, using(crate::proofs::Points::probes_counted))]
pub fn probes_counted()
    ensures { ProbesCounted }
{}

// No call of a file that is taken is refused.
#[tactic(auto, using(crate::proofs::Answering::calls_answered))]
pub fn calls_answered()
    ensures { CallsAnswered }
{}
