// The calls on files: those of `ffi`'s files.rt.
ghost use Rattle.std.specs.Prelude.{◌≡◌};
ghost use Rattle.records.specs.Check.{check_of};
ghost use Rattle.load.specs.Load as load;
ghost use Rattle.answer.specs.Answer as answer;
ghost use Rattle.ffi.specs.Files.{checked_told, loaded_told, answered_told};

use ffi::files::{Answered, Checked};

#[unsafe(no_mangle)]
pub extern "C" fn worzubil_check(file: &[u8]) -> Checked
    ensures { result ≡ checked_told (check_of file.now) }
{
    ffi::files::worzubil_check(file)
}

#[unsafe(no_mangle)]
pub extern "C" fn worzubil_load(file: &[u8], rows: &mut [u64], constants: &mut [u8]) -> Checked
    ensures told { result ≡ loaded_told (load.load_of file.now rows.old constants.old).result }
    ensures rows { rows.new ≡ (load.load_of file.now rows.old constants.old).rows }
    ensures constants { constants.new ≡ (load.load_of file.now rows.old constants.old).constants }
{
    ffi::files::worzubil_load(file, rows, constants)
}

// Named as it is because C has worzubil_answer for an answer.
#[unsafe(no_mangle)]
pub extern "C" fn worzubil_answer_file(file: &[u8], out: &mut [u8]) -> Answered
    ensures told { result ≡ answered_told (answer.answer_of file.now out.old).result }
    ensures out { out.new ≡ (answer.answer_of file.now out.old).out }
{
    ffi::files::worzubil_answer_file(file, out)
}
