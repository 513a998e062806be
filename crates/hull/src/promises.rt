// The theorems of `hull`, each held by the gate as the contract of a function with an empty body; specs/Promises.antt has the statements.
ghost use Rattle.hull.specs.Promises.{SmallestAffine, EverySum, ExactIsSet, ExactIsCount, FreeEquations, TablePivots};

// "the equations are met by just the smallest affine set that holds the allowed patterns"
#[tactic(auto, using(crate::proofs::Smallest::smallest_affine))]
pub fn smallest_affine()
    ensures { SmallestAffine }
{}

// "where some pattern is allowed every parity equation true on all of them is a sum of these."
pub fn every_sum()
    ensures { EverySum }
{}

// "exact" is a promise about the patterns, not the count alone.
#[tactic(auto, using(crate::proofs::Exact::exact_is_set))]
pub fn exact_is_set()
    ensures { ExactIsSet }
{}

// "Exact means allowed patterns = 2^rank, all 2^k patterns counted."
#[tactic(auto, using(crate::proofs::Exact::exact_is_count))]
pub fn exact_is_count()
    ensures { ExactIsCount }
{}

// "Each position without a pivot, rising, yields one equation: that bit set, other non-pivot bits clear, even overlap with every pivot"
pub fn free_equations()
    ensures { FreeEquations }
{}

pub fn table_pivots()
    ensures { TablePivots }
{}
