// The calls on files for C: those of `records`, `load` and `answer`. specs/Files.antt says how each answer is told.
ghost use Rattle.std.specs.Prelude.{◌≡◌, MatchResult};
ghost use Rattle.records.specs.Check.{check_of};
ghost use Rattle.load.specs.Load as load;
ghost use Rattle.answer.specs.Answer as answer;
ghost use Rattle.ffi.specs.Files.{taken, refused, not_loaded, checked_told, loaded_told, answered_told};

use answer::NoRoom;
use load::LoadError;
use record::Fault;

// A file that was checked: number 0 with its atoms and rows, or the number of its fault with the offset, or 9.
#[repr(C)]
#[derive(Clone, Copy)]
pub struct Checked {
    pub number: usize,
    pub offset: usize,
    pub atoms: usize,
    pub rows: usize,
}

// An answered file: number 0 and the length of its text, or 9.
#[repr(C)]
#[derive(Clone, Copy)]
pub struct Answered {
    pub number: usize,
    pub length: usize,
}

impl From<records::Checked> for Checked {
    ghost from_gives = { λ found told. told ≡ taken found };

    fn from(found: records::Checked) -> Checked {
        Checked {
            number: 0,
            offset: 0,
            atoms: found.atoms,
            rows: found.rows,
        }
    }
}

impl From<Fault> for Checked {
    ghost from_gives = { λ fault told. told ≡ refused fault };

    fn from(fault: Fault) -> Checked {
        Checked {
            number: fault.kind.number(),
            offset: fault.offset,
            atoms: 0,
            rows: 0,
        }
    }
}

impl From<LoadError> for Checked {
    ghost from_gives = { λ error told. told ≡ not_loaded error };

    fn from(error: LoadError) -> Checked {
        match error {
            LoadError::Unfit(fault) => Checked::from(fault),
            LoadError::Short => Checked {
                number: 9,
                offset: 0,
                atoms: 0,
                rows: 0,
            },
        }
    }
}

// What was found, or why nothing was.
impl<E: Into<Checked>> From<Result<records::Checked, E>> for Checked {
    ghost from_gives = { λ answered told. MatchResult answered (λ found. told ≡ taken found) (λ e. E.converts e told) };

    fn from(answered: Result<records::Checked, E>) -> Checked {
        match answered {
            Ok(found) => Checked::from(found),
            Err(error) => error.into(),
        }
    }
}

impl From<Result<usize, NoRoom>> for Answered {
    ghost from_gives = { λ answered told. told ≡ answered_told answered };

    fn from(answered: Result<usize, NoRoom>) -> Answered {
        match answered {
            Ok(length) => Answered { number: 0, length },
            Err(NoRoom) => Answered {
                number: 9,
                length: 0,
            },
        }
    }
}

pub fn worzubil_check(file: &[u8]) -> Checked
    ensures { result ≡ checked_told (check_of file.now) }
{
    Checked::from(records::check(file))
}

pub fn worzubil_load(file: &[u8], rows: &mut [u64], constants: &mut [u8]) -> Checked
    ensures told { result ≡ loaded_told (load.load_of file.now rows.old constants.old).result }
    ensures rows { rows.new ≡ (load.load_of file.now rows.old constants.old).rows }
    ensures constants { constants.new ≡ (load.load_of file.now rows.old constants.old).constants }
{
    Checked::from(load::load(file, rows, constants))
}

// Named as it is because C has worzubil_answer for an answer.
pub fn worzubil_answer_file(file: &[u8], out: &mut [u8]) -> Answered
    ensures told { result ≡ answered_told (answer.answer_of file.now out.old).result }
    ensures out { out.new ≡ (answer.answer_of file.now out.old).out }
{
    Answered::from(answer::answer(file, out))
}
