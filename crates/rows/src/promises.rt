// The theorems of `rows`, each held by the gate as the contract of a function with an empty body; specs/Promises.antt has the statements.
ghost use Rattle.rows.specs.Promises.{RowHas, AtomsFixWords, WordsHoldAtoms, LowestIsLowest, OverlapShared, SumMet, AddSums, DecisionsLeave, TriangularLeaves};

// "Atom a is bit a mod 64 of word a div 64."
#[tactic(auto, using(crate::proofs::Rowwise::row_has))]
pub fn row_has()
    ensures { RowHas }
{}

// "each row takes W 64-bit words"
#[tactic(auto, using(crate::proofs::Digits::atoms_fix_words))]
pub fn atoms_fix_words()
    ensures { AtomsFixWords }
{}

#[tactic(auto, using(crate::proofs::Digits::words_hold_atoms))]
pub fn words_hold_atoms()
    ensures { WordsHoldAtoms }
{}

// "`first` gives the lowest set bit."
pub fn lowest_is_lowest()
    ensures { LowestIsLowest }
{}

// "count of true atoms in the set"
#[tactic(auto, using(crate::proofs::Rowwise::overlap_shared))]
pub fn overlap_shared()
    ensures { OverlapShared }
{}

// "An assignment meets it when its count of true atoms in the set is odd exactly when the constant is 1."
#[tactic(auto, using(crate::proofs::Sums::sum_met))]
pub fn sum_met()
    ensures { SumMet }
{}

// "that row is added (XOR, constants too; one addition)"
pub fn add_sums()
    ensures { AddSums }
{}

// "u counts atoms neither held nor cut."
#[tactic(auto, using(crate::proofs::Deciding::decisions_leave))]
pub fn decisions_leave()
    ensures { DecisionsLeave }
{}

// "k counts the rows kept"; the count behind demand 3, that "the ways to settle all measures number exactly 2^(u − k)"
#[tactic(auto, using(crate::proofs::Triangle::triangular_leaves))]
pub fn triangular_leaves()
    ensures { TriangularLeaves }
{}
