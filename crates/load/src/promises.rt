// The theorems of `load`, each held by the gate as the contract of a function with an empty body; specs/Promises.antt and
// specs/Instances.antt have the statements.
ghost use Rattle.load.specs.Promises.{PartsFit, PartsCounted, LoadHasRoom, LoadHandsIn, LoadFits};
ghost use Rattle.load.specs.Instances.{Instances};

// Every row and table of a file that is taken is fit.
#[tactic(auto, using(crate::proofs::Whole::parts_fit))]
pub fn parts_fit()
    ensures { PartsFit }
{}

// Their rows are as many as the check counted.
#[tactic(auto, using(crate::proofs::Whole::parts_counted))]
pub fn parts_counted()
    ensures { PartsCounted }
{}

// 512 rows of 8 words and 512 constants are room enough for any file.
#[tactic(auto, using(crate::proofs::Promised::load_has_room))]
pub fn load_has_room()
    ensures { LoadHasRoom }
{}

// What `load` leaves are those rows.
#[tactic(auto, using(crate::proofs::Promised::load_hands_in))]
pub fn load_hands_in()
    ensures { LoadHandsIn }
{}

// And they are fit for preparation.
#[tactic(auto, using(crate::proofs::Promised::load_fits))]
pub fn load_fits()
    ensures { LoadFits }
{}

// The definitions on small files, computed.
pub fn instances()
    ensures { Instances }
{}
