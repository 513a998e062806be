// "units are the basis rows of one atom, in basis order", and the index: one visit of the basis lists the units and enters the rows, since a row's atoms are
// counted where they are entered. A port of collect_units and build_index of parity.rs.
ghost use Rattle.std.specs.Prelude.{◌≡◌, ◌++◌, ◌*◌, ◌≤◌, length, drop};
ghost use Rattle.std.specs.Int.Count.{ones};
ghost use Rattle.words.specs.Set.{set_of};
ghost use Rattle.index.specs.Index.{column_width, index_of, incidences_of};
ghost use Rattle.parity.specs.Basis.{rows_of, units_of, unit_atoms_of, unit_values_of};
ghost use Rattle.parity.specs.Unit.{unit_of};

use crate::basis::{Basis, BasisRow};
use crate::incidence::enter_row;

// How many units there are, and how many bits of the index are set.
#[derive(Clone, Copy)]
pub struct Counts {
    pub units: usize,
    pub incidences: usize,
}

// The atom and the value of a basis row that is a unit; how many atoms it has is known.
fn unit(row: &BasisRow, count: usize) -> Option<(usize, u8)>
    requires { count ≡ ones (set_of row.now.words.now) }
    ensures { result ≡ unit_of (set_of row.now.words.now) row.now.constant }
{
    if count != 1 {
        return None;
    }
    let atom = words::first(row.words).unwrap()?;
    Some((atom, row.constant))
}

// Enters the basis rows in an index of n columns and writes the units' atoms and values, two lists as C lends them. (The next place of the lists is
// counted: a place of one is the place of the other. Room is asked, since the caller lends it. Index and stride are passed apart, as to `enter_row`.)
fn enter_rows(
    basis: &Basis,
    atoms: &mut [usize],
    values: &mut [u8],
    index: &mut [u64],
    stride: usize,
) -> Counts
    requires atoms { basis.now.rank ≤ length atoms.old }
    requires values { basis.now.rank ≤ length values.old }
    requires wide { basis.now.rank ≤ stride * 64 }
    requires columns { length index.old ≡ basis.now.atoms * stride }
    ensures units { result.units ≡ length (units_of (rows_of basis.now)) }
    ensures atoms { atoms.new ≡ unit_atoms_of (rows_of basis.now) ++ drop result.units atoms.old }
    ensures values { values.new ≡ unit_values_of (rows_of basis.now) ++ drop result.units values.old }
    ensures incidences { result.incidences ≡ incidences_of (rows_of basis.now) basis.now.atoms }
    ensures index { index.new ≡ index_of stride (rows_of basis.now) basis.now.atoms }
{
    words::clear(index);
    let mut units = 0;
    let mut incidences = 0;
    for row in basis.in_order() {
        let count = enter_row(index, stride, words::locate(row.ordinal.0), row.words);
        incidences += count;
        if let Some((atom, value)) = unit(&row, count) {
            atoms[units] = atom;
            values[units] = value;
            units += 1;
        }
    }
    Counts { units, incidences }
}

// The same in the first n columns of what is lent, as wide as the rank asks; words past them stand.
pub fn enter_basis(
    basis: &Basis,
    atoms: &mut [usize],
    values: &mut [u8],
    index: &mut [u64],
) -> Counts
    requires atoms { basis.now.rank ≤ length atoms.old }
    requires values { basis.now.rank ≤ length values.old }
    requires columns { basis.now.atoms * column_width basis.now.rank ≤ length index.old }
    ensures units { result.units ≡ length (units_of (rows_of basis.now)) }
    ensures atoms { atoms.new ≡ unit_atoms_of (rows_of basis.now) ++ drop result.units atoms.old }
    ensures values { values.new ≡ unit_values_of (rows_of basis.now) ++ drop result.units values.old }
    ensures incidences { result.incidences ≡ incidences_of (rows_of basis.now) basis.now.atoms }
    ensures index { index.new ≡ index_of (column_width basis.now.rank) (rows_of basis.now) basis.now.atoms ++ drop (basis.now.atoms * column_width basis.now.rank) index.old }
{
    let stride = index::column_width(basis.rank);
    let end = basis.atoms * stride;
    enter_rows(basis, atoms, values, &mut index[..end], stride)
}
