// The theorems of `echelon`, each held by the gate as the contract of a function with an empty body; specs/Promises.antt has the statements.
ghost use Rattle.echelon.specs.Promises.{PivotFound, LowestRises, ReductionEnds, PivotsDiffer, LeftAreSums, SolutionsKept, SoundCounts};

// "a lowest atom whose pivot is an earlier row"
#[tactic(auto, using(crate::proofs::Basis::pivot_found))]
pub fn pivot_found()
    ensures { PivotFound }
{}

// "while a row has a lowest atom whose pivot is an earlier row, that row is added": each addition makes the lowest atom rise ..
#[tactic(auto, using(crate::proofs::Lows::lowest_rises))]
pub fn lowest_rises()
    ensures { LowestRises }
{}

// .. so it ends
#[tactic(auto, using(crate::proofs::Reducing::reduction_ends))]
pub fn reduction_ends()
    ensures { ReductionEnds }
{}

// "A new lowest atom makes the row a pivot"
pub fn pivots_differ()
    ensures { PivotsDiffer }
{}

// "that row is added (XOR, constants too; one addition)"
#[tactic(auto, using(crate::proofs::Sums::left_are_sums))]
pub fn left_are_sums()
    ensures { LeftAreSums }
{}

// "A row left empty with constant 1 ends preparation as refuted"
pub fn solutions_kept()
    ensures { SolutionsKept }
{}

// sound means solvable, with 2^(n − rank) solutions
#[tactic(auto, using(crate::proofs::Solutions::sound_counts))]
pub fn sound_counts()
    ensures { SoundCounts }
{}
