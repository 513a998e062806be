// The theorem of `snapshot`, held by the gate as the contract of a function with an empty body; specs/Promises.antt has the statement.
ghost use Rattle.snapshot.specs.Promises.{TouchedExact};

// with an index from preparation the touched rows are those that have an atom decided since
#[tactic(auto, using(crate::proofs::Touches::touched_exact))]
pub fn touched_exact()
    ensures { TouchedExact }
{}
