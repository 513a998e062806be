// A region: which of n atoms are settled. Held atoms are true, cut ones false, the others open.
// Every call is total: an unfit region, or an atom not below n, is refused with document 01's number and comes back as passed.
#![tactic(auto)]

ghost use Rattle.std.specs.Prelude.{◌≡◌, ◌-◌, cond, not, eqb};
ghost use Rattle.std.specs.Iterator.{at_most};
ghost use Rattle.std.specs.Int.Bits.{bit_and};
ghost use Rattle.words.specs.Set.{set_of};
ghost use Rattle.region.specs.Masks.{decisions};
ghost use Rattle.region.specs.Visit.{next_of, Visits};
ghost use Rattle.region.specs.Calls.{region_check, decide_check, undecided_of, decide_of, hold_of, cut_of};

use fit::LIMIT;
use refusal::Refusal;
use rows::Atom;

pub mod promises;

// "n, held and cut masks": two masks and no list of decisions, since a row is met with words.
#[repr(C)]
#[derive(Clone, Copy)]
pub struct Region {
    pub atoms: usize,
    pub held: [u64; 8],
    pub cut: [u64; 8],
}

// What becomes of a decision that is not refused.
#[derive(Clone, Copy)]
pub enum Answer {
    Taken,
    Same,
    Against,
}

// "A call that wants one value's mask gets back the held or the cut words it lent, whole, and is never refused."
pub fn mask<'a>(held: &'a [u64], cut: &'a [u64], value: bool) -> &'a [u64]
    ensures { result.now ≡ cond value held.now cut.now }
{
    if value { held } else { cut }
}

// The lowest atom from `from` on in a mask of eight words, if it has one. (By place: tried with `words::first`, what it finds
// in the words left over has to be moved up by a place that the proof first bounds, which is longer.)
#[tactic(auto, using(crate::proofs::Nexts::start_none, crate::proofs::Nexts::start_found, crate::proofs::Nexts::start_past, crate::proofs::Nexts::past_found, crate::proofs::Nexts::past_next, crate::proofs::Nexts::past_none))]
pub fn next(mask: &[u64; 8], from: usize) -> Option<usize>
    ensures { result ≡ next_of (set_of mask.now) from }
{
    let first = from / 64;
    if first >= 8 {
        return None;
    }
    let rest = mask[first] >> (from % 64);
    if rest != 0 {
        return Some(from + u64::trailing_zeros(rest) as usize);
    }
    for i in first + 1..8 {
        let word = mask[i];
        if word != 0 {
            return Some(i * 64 + u64::trailing_zeros(word) as usize);
        }
    }
    None
}

// The atoms of a mask that lie in a range, to be visited from the lowest up.
#[derive(Drop)]
pub struct Atoms<'a> {
    mask: &'a [u64; 8],
    from: usize,
    end: usize,
}

// The atoms below `end` of a mask.
pub fn atoms_below(mask: &[u64; 8], end: usize) -> Atoms<'_>
    ensures mask { result.mask.now ≡ mask.now }
    ensures from { result.from ≡ 0 }
    ensures end { result.end ≡ end }
{
    Atoms { mask, from: 0, end }
}

impl<'a> Iterator for Atoms<'a> {
    type Item = usize;

    ghost next_gives = { Visits };

    ghost remaining = { λ s. at_most (s.end - s.from) };

    fn next(&mut self) -> Option<usize> {
        let atom = next(self.mask, self.from)?;
        if atom >= self.end {
            return None;
        }
        self.from = atom + 1;
        Some(atom)
    }
}

// Whether two masks have an atom in common.
fn meet(left: &[u64; 8], right: &[u64; 8]) -> bool
    ensures { result ≡ not (eqb (bit_and (set_of left.now) (set_of right.now)) 0) }
{
    left.iter().zip(right).any(|(a, b)| a & b != 0)
}

impl Region {
    // A region of n atoms, all open.
    #[tactic(auto, using(crate::proofs::Deciding::open_region), unfolding(crate::specs::Calls::undecided_of))]
    pub fn undecided(n: usize) -> Result<Region, Refusal>
        ensures { result ≡ undecided_of n }
    {
        if n > LIMIT {
            return Err(Refusal::Overfull);
        }
        Ok(Region {
            atoms: n,
            held: [0; 8],
            cut: [0; 8],
        })
    }

    // Whether the region is fit.
    #[tactic(auto, using(crate::proofs::Deciding::check_is))]
    pub fn check(&self) -> Result<(), Refusal>
        ensures { result ≡ region_check self.now }
    {
        if self.atoms > LIMIT {
            return Err(Refusal::Overfull);
        }
        if next(&self.held, self.atoms).is_some() {
            return Err(Refusal::Stray);
        }
        if next(&self.cut, self.atoms).is_some() {
            return Err(Refusal::Stray);
        }
        if meet(&self.held, &self.cut) {
            return Err(Refusal::Clash);
        }
        Ok(())
    }

    // Whether the atom can be decided.
    #[tactic(auto, using(crate::proofs::Masked::decide_is))]
    fn check_decision(&self, atom: Atom) -> Result<(), Refusal>
        ensures { result ≡ decide_check self.now atom }
    {
        self.check()?;
        if atom.0 >= self.atoms {
            return Err(Refusal::Atom);
        }
        Ok(())
    }

    // Settles an atom as true or false: what becomes of the decision, and the region with it. A refused decision, or one that is against, alters
    // nothing. (Atom and value are two: `hold` and `cut` have the value in their names. One return: at each more the region would be copied once more.)
    fn decide(mut self, atom: Atom, value: bool) -> (Result<Answer, Refusal>, Region)
        ensures { result ≡ decide_of value self atom }
    {
        let answer = if let Err(refusal) = self.check_decision(atom) {
            Err(refusal)
        } else if words::contains(mask(&self.held, &self.cut, value), atom.0) {
            Ok(Answer::Same)
        } else if words::contains(mask(&self.held, &self.cut, !value), atom.0) {
            Ok(Answer::Against)
        } else {
            if value {
                words::insert(&mut self.held, atom.0);
            } else {
                words::insert(&mut self.cut, atom.0);
            }
            Ok(Answer::Taken)
        };
        (answer, self)
    }

    // Settles an atom as true.
    #[tactic(auto, unfolding(crate::specs::Calls::hold_of))]
    pub fn hold(self, atom: Atom) -> (Result<Answer, Refusal>, Region)
        ensures { result ≡ hold_of self atom }
    {
        self.decide(atom, true)
    }

    // Settles an atom as false.
    #[tactic(auto, unfolding(crate::specs::Calls::cut_of))]
    pub fn cut(self, atom: Atom) -> (Result<Answer, Refusal>, Region)
        ensures { result ≡ cut_of self atom }
    {
        self.decide(atom, false)
    }
}
