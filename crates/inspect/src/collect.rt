// The touched rows read in ordinal order, and the forced list written into lent memory.
ghost use Rattle.std.specs.Prelude.{◌≡◌, Ok, map, ◌≤◌, ◌<◌, length};
ghost use Rattle.words.specs.Set.{set_of};
ghost use Rattle.rows.specs.Flat.{atoms_of};
ghost use Rattle.parity.specs.Basis.{rows_of};
ghost use Rattle.inspect.specs.Consequences.{consequences};
ghost use Rattle.region.specs.Masks.{decisions, is_held, is_open};
ghost use Rattle.region.specs.Calls.{region_check};
ghost use Rattle.inspect.specs.Steps.{count_noted, atoms_noted, values_noted, Gathered};

use super::says::read;
use super::{Contradiction, Forced, Masks};
use parity::Basis;
use region::Region;
use rows::Ordinal;
use snapshot::Ordinals;

// Writes what a row forces as entry `at` of the list, and says how long the list is then. (The place is counted: C lends two lists, of atoms
// and of values.)
fn note(said: Option<Forced>, atoms: &mut [usize], values: &mut [u8], at: usize) -> usize
    requires { (at < 512) × (at < length atoms.old) × (at < length values.old) }
    ensures count { result ≡ count_noted said at }
    ensures atoms { atoms.new ≡ atoms_noted said at atoms.old }
    ensures values { values.new ≡ values_noted said at values.old }
{
    let Some(forced) = said else {
        return at;
    };
    atoms[at] = forced.atom.0;
    values[at] = u8::from(forced.value);
    at + 1
}

// Reads the touched rows and collects the forced list, up to a wrong row. (A set of ordinals is a mask as one of atoms is. Basis and masks are no one
// struct: the one is of what is lent, the other of a region. The lists' room is asked of both functions here, since the caller lends them.)
fn collect(
    basis: &Basis,
    touched: &[u64; 8],
    masks: &Masks,
    atoms: &mut [usize],
    values: &mut [u8],
) -> Result<usize, Contradiction>
    requires { (basis.now.rank ≤ length atoms.old) × (basis.now.rank ≤ length values.old) }
    ensures { Gathered (consequences (atoms_of basis.now.atoms (set_of masks.now.held)) (atoms_of basis.now.atoms (set_of masks.now.free)) (atoms_of basis.now.rank (set_of touched.now)) (rows_of basis.now)) result atoms.old values.old atoms.new values.new }
{
    let mut forced = 0;
    for j in region::atoms_below(touched, basis.rank) {
        let Ok(said) = read(basis, Ordinal(j), masks) else {
            return Err(Contradiction { forced });
        };
        forced = note(said, atoms, values, forced);
    }
    Ok(forced)
}

// Reads the touched rows against a region. (That the region is fit is asked by four private functions: this one, `apply`, `conclude`, and `open_count`
// of `probe`. C may lend an unfit region, so `Region` cannot say it, and a type of fit ones would be made for these four.)
pub fn collect_touched(
    basis: &Basis,
    touched: Ordinals,
    region: Region,
    atoms: &mut [usize],
    values: &mut [u8],
) -> Result<usize, Contradiction>
    requires { (region_check region ≡ Ok tt) × (region.atoms ≡ basis.now.atoms) × (basis.now.rank ≤ length atoms.old) × (basis.now.rank ≤ length values.old) }
    ensures { Gathered (consequences (map is_held (decisions region)) (map is_open (decisions region)) (atoms_of basis.now.rank (set_of touched.words)) (rows_of basis.now)) result atoms.old values.old atoms.new values.new }
{
    let marked = touched.words;
    let masks = Masks::from(region);
    collect(basis, &marked, &masks, atoms, values)
}
