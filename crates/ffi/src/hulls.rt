// The calls of `hull` and `embed` for C.
ghost use Rattle.std.specs.Prelude.{◌≡◌, cond, take};
ghost use Rattle.hull.specs.Propose.{limit, proposal_of};
ghost use Rattle.embed.specs.Written.{writable, written_words, written_constants};
ghost use Rattle.ffi.specs.Answers.{row_number, proposal_answer};

use hull::{Hull, LocalEquation};
use refusal::Refusal;
use rows::Source;

// What `propose` answers of a table: number 0 and its hull, or the number under which it is refused.
#[repr(C)]
#[derive(Clone, Copy)]
pub struct Proposal {
    pub number: usize,
    pub hull: Hull,
}

// The hull that stands beside a refusal: 0 in every field.
const NO_HULL: Hull = Hull {
    equations: [LocalEquation {
        coefficients: 0,
        constant: false,
    }; 8],
    count: 0,
    exact: false,
};

impl From<Result<Hull, Refusal>> for Proposal {
    ghost from_gives = { λ answer told. told ≡ proposal_answer answer };

    fn from(answer: Result<Hull, Refusal>) -> Proposal {
        match answer {
            Ok(hull) => Proposal { number: 0, hull },
            Err(refusal) => Proposal {
                number: refusal.number(),
                hull: NO_HULL,
            },
        }
    }
}

pub fn worzubil_propose(k: usize, forbidden: &[u64]) -> Proposal
    ensures { result ≡ proposal_answer (proposal_of limit k forbidden.now) }
{
    Proposal::from(hull::propose(k, forbidden))
}

pub fn worzubil_write(
    hull: Hull,
    names: &[usize],
    width: usize,
    rows: &mut [u64],
    constants: &mut [u8],
    first: usize,
) -> bool
    ensures done { result ≡ writable width rows.old constants.old hull names.now (row_number first) }
    ensures words { rows.new ≡ cond result (written_words width rows.old (take hull.count hull.equations) names.now (row_number first)) rows.old }
    ensures constants { constants.new ≡ cond result (written_constants constants.old (take hull.count hull.equations) (row_number first)) constants.old }
{
    embed::write(hull, names, width, rows, constants, Source(first))
}
