// Loading a file: the whole file is checked, then its rows and tables are written as rows into lent memory.
#![tactic(auto)]

ghost use Rattle.std.specs.Prelude.{◌≡◌, [], ◌∷◌, ◌≤◌, length, replicate};
ghost use Rattle.hull.specs.Propose.{limit};
ghost use Rattle.embed.specs.Embed.{Rising};
ghost use Rattle.embed.specs.Parts.{table, rows_of, all_rows};
ghost use Rattle.format.specs.Format.{constant_at, row_atoms, k_at, table_atoms, table_at};
ghost use Rattle.format.specs.Starts.{starts};
ghost use Rattle.records.specs.Promises.{AllBelow, RecordFit, RecordsFit};
ghost use Rattle.load.specs.Parts.{row_in, parts_at, parts_of};
ghost use Rattle.load.specs.Load.{outcome, load_of};
ghost use Rattle.load.specs.Steps.{inserted_all, RoomFor, Adds};
ghost use Rattle.load.specs.declared.LoadError.TheVariants.{Unfit};

use format::{Kind, Record, Records};
use record::Fault;
use records::Checked;
use rows::Source;

pub mod promises;

// Why a file is not loaded: it has a fault, or lent memory is too short.
#[derive(Clone, Copy, Debug, PartialEq, Eq)]
pub enum LoadError {
    Unfit(Fault),
    Short,
}

impl From<Fault> for LoadError {
    ghost from_gives = { λ fault e. e ≡ Unfit fault };

    fn from(fault: Fault) -> LoadError {
        LoadError::Unfit(fault)
    }
}

// Memory that is filled with rows over so many atoms, and the number of the next one: lent, so two slices and no Vec.
#[derive(Drop)]
struct Filling<'a> {
    atoms: usize,
    words: &'a mut [u64],
    constants: &'a mut [u8],
    next: usize,
}

// Writes a row's words: those of the atoms that its record names. A range, since a record is asked for its atoms by number, here as in `read_atoms` of
// `format` and in the checks of `record`: an iterator of them would be a struct, a relation and a measure beside that.
#[tactic(auto, using(crate::proofs::Inserted::inserted_next, crate::proofs::Inserted::inserted_end))]
fn fill_row(at: Record, row: &mut [u64])
    ensures { row.new ≡ inserted_all (row_atoms at.entry.file.now at.entry.offset) (replicate (length row.old) 0) }
{
    words::clear(row);
    for i in 0..at.atom_count() {
        words::insert(row, usize::from(at.atom(usize::from(i))));
    }
}

// (Each method asks for room: it is room for the rows that come, so no type of what stands can have it.)
impl Filling<'_> {
    // Writes the row of such a record.
    fn put_row(&mut self, at: Record)
        requires small { constant_at at.file.now at.offset ≤ 1 }
        requires below { AllBelow self.old.atoms (row_atoms at.file.now at.offset) }
        requires room { RoomFor self.old (row_in at.file.now self.old.atoms at.offset ∷ []) }
        ensures { Adds self.old (row_in at.entry.file.now self.old.atoms at.entry.offset ∷ []) self.new }
    {
        let width = rows::width(self.atoms);
        let start = self.next * width;
        let end = start + width;
        fill_row(at, &mut self.words[start..end]);
        self.constants[self.next] = at.constant();
        self.next += 1;
    }

    // Writes the equations of a table's record.
    fn put_table(&mut self, at: Record)
        requires few { k_at at.file.now at.offset ≤ limit }
        requires rising { Rising 0 self.old.atoms (table_atoms at.file.now at.offset) }
        requires room { RoomFor self.old (rows_of self.old.atoms (table (table_atoms at.file.now at.offset) (table_at at.file.now at.offset))) }
        ensures { Adds self.old (rows_of self.old.atoms (table (table_atoms at.entry.file.now at.entry.offset) (table_at at.entry.file.now at.entry.offset))) self.new }
    {
        let mut atoms = [0usize; 8];
        let names = &mut atoms[..usize::from(at.k())];
        at.read_atoms(names);
        let hull = at.table().unwrap();
        embed::write(
            hull,
            names,
            rows::width(self.atoms),
            self.words,
            self.constants,
            Source(self.next),
        );
        self.next += hull.count;
    }

    // Writes the rows that a record hands in. (One without a kind, which a checked file has none of, hands in none.)
    fn put_record(&mut self, at: Record)
        requires fit { RecordFit at.file.now self.old.atoms at.offset }
        requires room { RoomFor self.old (all_rows self.old.atoms (parts_at at.file.now self.old.atoms at.offset)) }
        ensures { Adds self.old (all_rows self.old.atoms (parts_at at.entry.file.now self.old.atoms at.entry.offset)) self.new }
    {
        let Ok(kind) = at.kind() else {
            return;
        };
        match kind {
            Kind::Row => self.put_row(at),
            Kind::Table => self.put_table(at),
            _ => {}
        }
    }

    // Writes the rows that a file's records hand in.
    fn put_records(&mut self, file: &[u8])
        requires fit { RecordsFit file.now self.old.atoms (starts file.now 0) }
        requires room { RoomFor self.old (all_rows self.old.atoms (parts_of file.now self.old.atoms)) }
        ensures { Adds self.old (all_rows self.old.atoms (parts_of file.now self.old.atoms)) self.new }
    {
        for record in Records::of(file) {
            self.put_record(record);
        }
    }
}

// Checks a file and writes its rows. Where the file is unfit or the memory too short, all lent memory stands. (Rows and constants are passed one by
// one, as C lends them.)
pub fn load(file: &[u8], rows: &mut [u64], constants: &mut [u8]) -> Result<Checked, LoadError>
    ensures { outcome result rows.new constants.new ≡ load_of file.now rows.old constants.old }
{
    let checked = records::check(file)?;
    let count = checked.rows;
    if rows.len() < count * rows::width(checked.atoms) || constants.len() < count {
        return Err(LoadError::Short);
    }
    let mut filling = Filling {
        atoms: checked.atoms,
        words: rows,
        constants,
        next: 0,
    };
    filling.put_records(file);
    Ok(checked)
}
