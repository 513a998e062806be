// Preparation and the columns of the index: the calls of `ffi`'s prepares.rt.
ghost use Rattle.std.specs.Prelude.{◌≡◌, take, drop};
ghost use Rattle.refusal.specs.Refusal.{number_in};
ghost use Rattle.parity.specs.Prepare.{lent, prepare_of};
ghost use Rattle.index.specs.Column.{column_check, wanted_column};
ghost use Rattle.ffi.specs.Answers.{atom_number, prepared_answer, column_span_of};

use ffi::Span;
use ffi::prepares::Prepared;

#[unsafe(no_mangle)]
pub extern "C" fn worzubil_prepare(
    n: usize,
    m: usize,
    rows: &mut [u64],
    constants: &mut [u8],
    basis: &mut [usize],
    unit_atoms: &mut [usize],
    unit_values: &mut [u8],
    index: &mut [u64],
) -> Prepared
    ensures { (result, lent rows.new constants.new basis.new unit_atoms.new unit_values.new index.new) ≡ prepared_answer (prepare_of n m (lent rows.old constants.old basis.old unit_atoms.old unit_values.old index.old)) }
{
    ffi::prepares::worzubil_prepare(n, m, rows, constants, basis, unit_atoms, unit_values, index)
}

// The words of a column, told by their place: a refused one has none.
#[unsafe(no_mangle)]
pub extern "C" fn worzubil_column(index: &[u64], n: usize, rank: usize, atom: usize) -> Span
    ensures place { result ≡ column_span_of index.now n rank (atom_number atom) }
    ensures words { take result.length (drop result.start index.now) ≡ wanted_column index.now n rank (atom_number atom) }
{
    ffi::prepares::worzubil_column(index, n, rank, atom)
}

#[unsafe(no_mangle)]
pub extern "C" fn worzubil_column_number(index: &[u64], n: usize, rank: usize, atom: usize) -> usize
    ensures { result ≡ number_in (column_check index.now n rank (atom_number atom)) }
{
    ffi::prepares::worzubil_column_number(index, n, rank, atom)
}
