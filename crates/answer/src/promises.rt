// The theorems of `answer`, each held by the gate as the contract of a function with an empty body; specs/Promises.antt and
// specs/Worked.antt have the statements.
ghost use Rattle.answer.specs.Promises.{TextFits};
ghost use Rattle.answer.specs.Worked.{Worked};

// The text of every file has the room that is asked.
#[tactic(auto, using(crate::proofs::Fits::text_fits))]
pub fn text_fits()
    ensures { TextFits }
{}

// The worked example of document 01, computed.
pub fn worked()
    ensures { Worked }
{}
