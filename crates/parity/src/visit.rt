// The basis rows, by their ordinals and in order.
ghost use Rattle.std.specs.Prelude.{◌≡◌, ◌-◌, ◌≤◌, ◌<◌, get_or, MatchOption};
ghost use Rattle.std.specs.Iterator.{at_most};
ghost use Rattle.parity.specs.Visit.{IsRow, NextRow};

use crate::basis::{Basis, BasisRow};
use rows::{Ordinal, Source};

// The basis rows that are still to be visited, in order.
#[derive(Drop)]
pub struct BasisRows<'a> {
    basis: Basis<'a>,
    next: usize,
}

impl<'a> Basis<'a> {
    // The number of the row that an ordinal names, where it is below the rank.
    fn source(&self, ordinal: Ordinal) -> Option<Source>
        ensures { MatchOption result (self.now.rank ≤ ordinal.0) (λ source. (ordinal.0 < self.now.rank) × (source.0 ≡ get_or self.now.entries.now ordinal.0 0)) }
    {
        if self.rank <= ordinal.0 {
            return None;
        }
        rows::source_at(self.entries, ordinal)
    }

    // That row.
    pub fn row(&self, ordinal: Ordinal) -> Option<BasisRow<'a>>
        ensures { MatchOption result (self.now.rank ≤ ordinal.0) (λ row. (ordinal.0 < self.now.rank) × IsRow self.now ordinal.0 row) }
    {
        let source = self.source(ordinal)?;
        let width = rows::width(self.atoms);
        let start = source.0 * width;
        Some(BasisRow {
            ordinal,
            words: &self.rows[start..start + width],
            constant: self.constants[source.0],
        })
    }

    // All of them, in basis order.
    pub fn in_order(&self) -> BasisRows<'a>
        ensures basis { result.basis ≡ self.now }
        ensures next { result.next ≡ 0 }
    {
        BasisRows {
            basis: *self,
            next: 0,
        }
    }
}

impl<'a> Iterator for BasisRows<'a> {
    type Item = BasisRow<'a>;

    ghost next_gives = { NextRow };

    ghost remaining = { λ s. at_most (s.basis.rank - s.next) };

    fn next(&mut self) -> Option<BasisRow<'a>> {
        let row = self.basis.row(Ordinal(self.next))?;
        self.next += 1;
        Some(row)
    }
}
