// The theorem of `by_ref`, held by the gate as the contract of a function with an empty body; specs/Promises.antt has the statement.
ghost use Rattle.by_ref.specs.Promises.{EntriesSettle};

// its atoms and its values settle a list of entries
#[tactic(auto, using(crate::proofs::Lists::entries_settle))]
pub fn entries_settle()
    ensures { EntriesSettle }
{}
