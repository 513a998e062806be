// The theorems of `records`, each held by the gate as the contract of a function with an empty body; specs/Promises.antt has the statements.
ghost use Rattle.records.specs.Promises.{FileFit, FileWithin, RowsCounted};

// Every row, table and decision of a file that is taken is fit.
#[tactic(auto, using(crate::proofs::Whole::file_fit))]
pub fn file_fit()
    ensures { FileFit }
{}

// It has up to 512 atoms and rows.
#[tactic(auto, using(crate::proofs::Whole::file_within))]
pub fn file_within()
    ensures { FileWithin }
{}

// Its rows are counted after tables became equations.
#[tactic(auto, using(crate::proofs::Whole::rows_counted))]
pub fn rows_counted()
    ensures { RowsCounted }
{}
