// The calls on tables: those of `ffi`'s hulls.rt.
ghost use Rattle.std.specs.Prelude.{◌≡◌, cond, take};
ghost use Rattle.hull.specs.Propose.{limit, proposal_of};
ghost use Rattle.embed.specs.Written.{writable, written_words, written_constants};
ghost use Rattle.ffi.specs.Answers.{row_number, proposal_answer};

use ffi::hulls::Proposal;
use hull::Hull;

#[unsafe(no_mangle)]
pub extern "C" fn worzubil_propose(k: usize, forbidden: &[u64]) -> Proposal
    ensures { result ≡ proposal_answer (proposal_of limit k forbidden.now) }
{
    ffi::hulls::worzubil_propose(k, forbidden)
}

#[unsafe(no_mangle)]
pub extern "C" fn worzubil_write(
    hull: Hull,
    names: &[usize],
    width: usize,
    rows: &mut [u64],
    constants: &mut [u8],
    first: usize,
) -> bool
    ensures done { result ≡ writable width rows.old constants.old hull names.now (row_number first) }
    ensures words { rows.new ≡ cond result (written_words width rows.old (take hull.count hull.equations) names.now (row_number first)) rows.old }
    ensures constants { constants.new ≡ cond result (written_constants constants.old (take hull.count hull.equations) (row_number first)) constants.old }
{
    ffi::hulls::worzubil_write(hull, names, width, rows, constants, first)
}
