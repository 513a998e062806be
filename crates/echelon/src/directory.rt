// The directory: the pivots so far, by their lowest atoms.
ghost use Rattle.std.specs.Prelude.{◌≡◌, ◌+◌, ◌*◌, ◌<◌, ◌≤◌, MatchOption, replicate, slice_set};
ghost use Rattle.echelon.specs.Steps.{no_pivot, head_of, IsPivotOf};

use rows::{Atom, Source};

// A pivot: its head, which is the word that has its lowest atom, and its number among the rows.
#[derive(Clone, Copy)]
pub struct Pivot {
    pub head: u64,
    pub source: Source,
}

// A row that becomes a pivot: its head and its lowest atom.
#[derive(Clone, Copy)]
pub struct NewPivot {
    pub head: u64,
    pub lowest: Atom,
}

// What an atom without a pivot has: a pivot's head is not 0.
const NONE: Pivot = Pivot {
    head: 0,
    source: Source(0),
};

// For each atom its pivot. An atom without one has `NONE` and no Option, which is a third word an entry to clear and to read: the same loops with it,
// tried in Rust, took 1.05 to 1.44 of the time where no row is added and 1.07 to 1.15 in a preparation, at 3 to 512 atoms.
#[derive(Clone, Copy)]
pub struct Directory<const N: usize> {
    pub pivots: [Pivot; N],
    pub ghost small: { N ≤ 512 },
}

impl<const N: usize> Directory<N> {
    pub fn empty() -> Directory<N>
        requires { N ≤ 512 }
        ensures { result.pivots ≡ replicate N no_pivot }
    {
        Directory { pivots: [NONE; N] }
    }

    // The pivot of the lowest atom of word i of a row, if there is one.
    #[tactic(auto, unfolding(crate::specs::Steps::head_of))]
    pub fn pivot_of(&self, i: usize, word: u64) -> Option<Pivot>
        requires { i * 64 + 64 ≤ N }
        ensures { MatchOption result (head_of self.now.pivots i word ≡ 0) (IsPivotOf self.now.pivots i word) }
    {
        if word == 0 {
            return None;
        }
        // Where word i's part begins stays as it is while the word is reduced, so it is taken first.
        let pivots = &self.pivots[..];
        let part = &pivots[i * 64..i * 64 + 64];
        let pivot = part[word.trailing_zeros() as usize];
        if pivot.head == 0 {
            return None;
        }
        Some(pivot)
    }

    // Enters a row as the pivot of its lowest atom.
    pub fn enter(&mut self, pivot: NewPivot, source: Source)
        requires { pivot.lowest.0 < N }
        ensures { self.new.pivots ≡ slice_set self.old.pivots pivot.lowest.0 (record { head = pivot.head; source = source }) }
    {
        self.pivots[pivot.lowest.0] = Pivot {
            head: pivot.head,
            source,
        };
    }
}
