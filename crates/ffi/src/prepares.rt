// The calls of `parity` and `index` for C.
ghost use Rattle.std.specs.Prelude.{◌≡◌, take, drop};
ghost use Rattle.refusal.specs.Refusal.{number_in};
ghost use Rattle.parity.specs.Prepare.{lent, prepare_of};
ghost use Rattle.index.specs.Column.{column_check, wanted_column};
ghost use Rattle.ffi.specs.Answers.{atom_number, prepared_told, prepared_answer, column_span_of};

use crate::Span;
use parity::System;
use refusal::Refusal;
use rows::Atom;

// What preparation answers: number 0, the system and the counts of preparation; or the number under which it is refused.
#[repr(C)]
#[derive(Clone, Copy)]
pub struct Prepared {
    pub number: usize,
    pub system: System,
    pub additions: usize,
    pub units: usize,
    pub incidences: usize,
}

impl From<Result<parity::Prepared, Refusal>> for Prepared {
    ghost from_gives = { λ answer told. told ≡ prepared_told answer };

    fn from(answer: Result<parity::Prepared, Refusal>) -> Prepared {
        match answer {
            Ok(prepared) => Prepared {
                number: 0,
                system: prepared.system,
                additions: prepared.additions,
                units: prepared.units,
                incidences: prepared.incidences,
            },
            Err(refusal) => Prepared {
                number: refusal.number(),
                system: System {
                    atoms: 0,
                    rows: 0,
                    rank: 0,
                    refuted: false,
                },
                additions: 0,
                units: 0,
                incidences: 0,
            },
        }
    }
}

pub fn worzubil_prepare(
    n: usize,
    m: usize,
    rows: &mut [u64],
    constants: &mut [u8],
    basis: &mut [usize],
    unit_atoms: &mut [usize],
    unit_values: &mut [u8],
    index: &mut [u64],
) -> Prepared
    ensures { (result, lent rows.new constants.new basis.new unit_atoms.new unit_values.new index.new) ≡ prepared_answer (prepare_of n m (lent rows.old constants.old basis.old unit_atoms.old unit_values.old index.old)) }
{
    let answer = parity::prepare(n, m, rows, constants, basis, unit_atoms, unit_values, index);
    Prepared::from(answer)
}

// The words of a column, told by their place: a refused one has none.
#[tactic(auto, using(index::proofs::Wanted::wanted_within), unfolding(crate::specs::Answers::column_span_of, index::specs::Column::wanted_column))]
pub fn worzubil_column(index: &[u64], n: usize, rank: usize, atom: usize) -> Span
    ensures place { result ≡ column_span_of index.now n rank (atom_number atom) }
    ensures words { take result.length (drop result.start index.now) ≡ wanted_column index.now n rank (atom_number atom) }
{
    let length = index::column_width(rank);
    let fit = index::check_column(index, n, rank, Atom(atom)).ok();
    Span::from(fit.map(|()| (atom * length, length)))
}

// The number under which a column is refused, or 0, for C, which has no Result.
pub fn worzubil_column_number(index: &[u64], n: usize, rank: usize, atom: usize) -> usize
    ensures { result ≡ number_in (column_check index.now n rank (atom_number atom)) }
{
    crate::number(index::check_column(index, n, rank, Atom(atom)))
}
