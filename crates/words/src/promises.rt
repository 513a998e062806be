// The theorems behind the calls of `words`, each held by the gate as the contract of a function with an empty body.
// Document 01: the calls "have these plain set meanings"; specs/Promises.antt has the statements.
ghost use Rattle.words.specs.Promises.{AtomIsBit, SameAtoms, InsertAdds, MergeJoins, IntersectionShares, SubsetHolds, OnesCount, FirstIsLowest, StepVisits, BitsRise};

// "Atom a is bit a mod 64 of word a div 64."
#[tactic(auto, using(crate::proofs::Meaning::atom_is_bit))]
pub fn atom_is_bit()
    ensures { AtomIsBit }
{}

// Sets with the same atoms are the same number.
#[tactic(auto, using(crate::proofs::Meaning::same_atoms))]
pub fn same_atoms()
    ensures { SameAtoms }
{}

#[tactic(auto, using(crate::proofs::Meaning::insert_adds))]
pub fn insert_adds()
    ensures { InsertAdds }
{}

pub fn merge_joins()
    ensures { MergeJoins }
{}

#[tactic(auto, using(crate::proofs::Meaning::intersection_shares))]
pub fn intersection_shares()
    ensures { IntersectionShares }
{}

#[tactic(auto, using(crate::proofs::Meaning::subset_holds))]
pub fn subset_holds()
    ensures { SubsetHolds }
{}

#[tactic(auto, using(crate::proofs::Meaning::ones_count))]
pub fn ones_count()
    ensures { OnesCount }
{}

// "`first` gives the lowest set bit."
pub fn first_is_lowest()
    ensures { FirstIsLowest }
{}

#[tactic(auto, using(crate::proofs::Meaning::step_visits))]
pub fn step_visits()
    ensures { StepVisits }
{}

// A visit gives the word's atoms, rising.
#[tactic(auto, using(crate::proofs::Meaning::bits_rise))]
pub fn bits_rise()
    ensures { BitsRise }
{}
