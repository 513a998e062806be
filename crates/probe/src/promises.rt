// The theorems of `probe`, each held by the gate as the contract of a function with an empty body; specs/Promises.antt has
// the statements.
ghost use Rattle.probe.specs.Promises.{KeptFew, ProbeCounts, KeptIndependent};

// no more rows are kept than atoms are undecided
#[tactic(auto, using(crate::proofs::Counted::kept_few))]
pub fn kept_few()
    ensures { KeptFew }
{}

// on yes 2^(u - k) assignments agree with the decisions and meet every row, on no none does
#[tactic(auto, using(crate::proofs::Counted::probe_counts))]
pub fn probe_counts()
    ensures { ProbeCounts }
{}

// "they are independent: no sum of one or more different ones is empty"
#[tactic(auto, using(crate::proofs::Independent::kept_independent))]
pub fn kept_independent()
    ensures { KeptIndependent }
{}
