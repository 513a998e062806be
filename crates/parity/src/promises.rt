// The theorems of `parity`, each held by the gate as the contract of a function with an empty body; specs/Promises.antt has the statements.
ghost use Rattle.parity.specs.Promises.{PrepareKeeps, PrepareCounts, PreparePivots, PrepareSums, ColumnTells, PrepareFits};

// "A row left empty with constant 1 ends preparation as refuted"; else the solutions are kept
pub fn prepare_keeps()
    ensures { PrepareKeeps }
{}

// sound means solvable
#[tactic(auto, using(crate::proofs::Leaving::prepare_counts))]
pub fn prepare_counts()
    ensures { PrepareCounts }
{}

// "A new lowest atom makes the row a pivot"
pub fn prepare_pivots()
    ensures { PreparePivots }
{}

// "that row is added (XOR, constants too; one addition)"
#[tactic(auto, using(crate::proofs::Leaving::prepare_sums))]
pub fn prepare_sums()
    ensures { PrepareSums }
{}

// "bit j of atom a's column is set when basis row j has a"
pub fn column_tells()
    ensures { ColumnTells }
{}

// what is left is fit to be lent again: the rows and the basis, and the index of a sound system
#[tactic(auto, using(crate::proofs::Refit::prepare_fits))]
pub fn prepare_fits()
    ensures { PrepareFits }
{}
