// The pivots: for each atom the row kept that has it as its lowest one.
ghost use Rattle.std.specs.Prelude.{◌≡◌, ◌+◌, ◌*◌, ◌≤◌, ◌<◌, MatchOption, length, replicate, get_or, slice_set};
ghost use Rattle.std.specs.Int.Count.{count_trailing_zeros};
ghost use Rattle.probe.specs.Steps.{empty_row, pivot_at};

use crate::open_row::OpenRow;

// An atom without a pivot has the empty row, and a pivot is not empty. (No Option, for `echelon`'s reason: it would be a word more to clear and to read.)
#[derive(Clone, Copy)]
pub struct Pivots<const W: usize, const N: usize> {
    rows: [OpenRow<W>; N],
    ghost small: { (W ≤ 8) × (N ≤ 512) },
    ghost long: { length rows ≡ N },
}

impl<const W: usize, const N: usize> Pivots<W, N> {
    pub fn none() -> Pivots<W, N>
        requires { (W ≤ 8) × (N ≤ 512) }
        ensures { result.rows ≡ replicate N (empty_row W) }
    {
        Pivots {
            rows: [OpenRow::<W>::empty(); N],
        }
    }

    // The pivot of the lowest atom of word i of a row, if there is one.
    pub fn pivot_of(&self, i: usize, word: u64) -> Option<&OpenRow<W>>
        requires place { i < W }
        requires atom { 0 < word → i * 64 + count_trailing_zeros 64 word < N }
        ensures { MatchOption result (get_or (pivot_at self.now.rows i word).words i 0 ≡ 0) (λ pivot. (0 < get_or pivot.now.words i 0) × (pivot.now ≡ pivot_at self.now.rows i word)) }
    {
        if word == 0 {
            return None;
        }
        let pivot = &self.rows[i * 64 + word.trailing_zeros() as usize];
        if pivot.words[i] == 0 {
            return None;
        }
        Some(pivot)
    }

    // Enters a row as the pivot of an atom.
    pub fn enter(&mut self, atom: usize, row: OpenRow<W>)
        requires { atom < N }
        ensures { self.new.rows ≡ slice_set self.old.rows atom row.entry }
    {
        self.rows[atom] = row;
    }
}
