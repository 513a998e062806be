// The basis rows of a prepared system, lent as one value, and one of them. (visit.rt reads them.)
ghost use Rattle.std.specs.Prelude.{◌≤◌, length};
ghost use Rattle.parity.specs.Named.{Named};

use rows::Ordinal;

// So many rows over so many atoms, each named by an entry. It is made by its fields, where the checks stand: a function that makes it would have a
// `requires`, which no public one has. (`rank` stands beside entries that are lent longer, as C lends them.)
#[derive(Clone, Copy)]
pub struct Basis<'a> {
    pub atoms: usize,
    pub rank: usize,
    pub rows: &'a [u64],
    pub constants: &'a [u8],
    pub entries: &'a [usize],
    pub ghost few: { atoms ≤ 512 },
    pub ghost ranked: { rank ≤ atoms },
    pub ghost named: { Named atoms rank rows.now constants.now entries.now },
}

// A basis row: its place in the basis, its words and its constant.
#[derive(Clone, Copy)]
pub struct BasisRow<'a> {
    pub ordinal: Ordinal,
    pub words: &'a [u64],
    pub constant: u8,
    pub ghost few: { length words.now ≤ 8 },
}
