// A file answered: checked whole, refused with a line, or loaded, prepared and answered line by line. (Lines are put by hand and not by `write!`, as
// `text` says; so a Display would have no reader.)
#![tactic(auto)]

ghost use Rattle.std.specs.Prelude.{◌≡◌, Ok, ◌≤◌, length, take, IfOk};
ghost use Rattle.parity.specs.Prepare.{prepare_check};
ghost use Rattle.text.specs.Puts.{Puts};
ghost use Rattle.answer.specs.Text.{refusal_line, sound_word, system_line, memory_of, answers_of, text_of};
ghost use Rattle.answer.specs.Answer.{room_of, outcome, answer_of};

use inspect::PreparedSystem;
use load::LoadError;
use parity::Prepared;
use records::{Checked, FILE_LIMIT};
use text::Text;

pub mod promises;

// The memory lent for the text of a file is shorter than `room` says.
#[derive(Clone, Copy, Debug, PartialEq, Eq)]
pub struct NoRoom;

// The room that the text of a file of so many bytes is asked.
pub fn room(bytes: usize) -> usize
    ensures { result ≡ room_of bytes }
{
    64 + bytes.min(FILE_LIMIT) * 8
}

// How the line of a system ends.
fn sound_word(refuted: bool) -> &'static [u8]
    ensures { result.now ≡ sound_word refuted }
{
    if refuted { b" refuted\n" } else { b" sound\n" }
}

// "system": atoms, rows, rank, additions, units, incidences, sound or refuted.
fn put_system(text: &mut Text, prepared: Prepared)
    ensures { Puts text.old (system_line prepared) text.new }
{
    let system = prepared.system;
    text.put_two(b"system ", system.atoms, b" ", system.rows, b" ");
    text.put_two(b"", system.rank, b" ", prepared.additions, b" ");
    let end = sound_word(system.refuted);
    text.put_two(b"", prepared.units, b" ", prepared.incidences, end);
}

// The lines of a file whose rows are loaded: preparation takes them. Each list is memory of its own, as `prepare` is lent them.
fn put_answers(
    file: &[u8],
    checked: Checked,
    rows: &mut [u64],
    constants: &mut [u8],
    text: &mut Text,
)
    requires { prepare_check checked.atoms checked.rows (memory_of rows.old constants.old) ≡ Ok tt }
    ensures { Puts text.old (answers_of file.now checked.atoms checked.rows rows.old constants.old) text.new }
{
    let mut basis = [0usize; 512];
    let mut unit_atoms = [0usize; 512];
    let mut unit_values = [0u8; 512];
    let mut index = [0u64; 4096];
    let prepared = parity::prepare(
        checked.atoms,
        checked.rows,
        rows,
        constants,
        &mut basis,
        &mut unit_atoms,
        &mut unit_values,
        &mut index,
    )
    .unwrap();
    put_system(text, prepared);
    let system = PreparedSystem::checked(prepared.system, rows, constants, &basis, &index);
    lines::put_lines(file, &system, text);
}

// The line that refuses a file; memory that is too short has none.
fn put_refusal(text: &mut Text, error: LoadError)
    ensures { Puts text.old (refusal_line error) text.new }
{
    match error {
        LoadError::Unfit(fault) => {
            let number = fault.kind.number();
            text.put_two(b"refused ", number, b" at ", fault.offset, b"\n");
        }
        LoadError::Short => {}
    }
}

// The text of a file. The memory lent here has room for the most rows.
fn put_text(file: &[u8], text: &mut Text)
    ensures { Puts text.old (text_of file.now) text.new }
{
    let mut rows = [0u64; 4096];
    let mut constants = [0u8; 512];
    match load::load(file, &mut rows, &mut constants) {
        Ok(checked) => put_answers(file, checked, &mut rows, &mut constants, text),
        Err(error) => put_refusal(text, error),
    }
}

// Answers a file: its text is written into out, and its length told, or out has less room than `room` says, and nothing is touched.
pub fn answer(file: &[u8], out: &mut [u8]) -> Result<usize, NoRoom>
    ensures is { outcome result out.new ≡ answer_of file.now out.old }
    ensures within { IfOk result (λ n. (n ≤ length out.new) × (n ≡ length (take n out.new))) }
{
    if out.len() < room(file.len()) {
        return Err(NoRoom);
    }
    let mut text = Text::new(out, 0);
    put_text(file, &mut text);
    Ok(text.at)
}
