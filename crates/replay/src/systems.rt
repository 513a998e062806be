// A recorded system: n, m, row words and constants, then what `prepare` answers and what it leaves in memory that had 7 everywhere else.
use super::tape::Tape;
use parity::Prepared;
use refusal::Refusal;

// The memory that is lent to preparation: one for all cases, which each case clears.
#[derive(Drop)]
pub struct Memory {
    pub rows: [u64; 4096],
    pub constants: [u8; 512],
    pub basis: [usize; 512],
    pub atoms: [usize; 512],
    pub values: [u8; 512],
    pub index: [u64; 4096],
}

impl Memory {
    pub fn new() -> Memory {
        Memory {
            rows: [7; 4096],
            constants: [7; 512],
            basis: [7; 512],
            atoms: [7; 512],
            values: [7; 512],
            index: [7; 4096],
        }
    }

    // 7 everywhere.
    pub fn clear(&mut self) {
        self.rows.fill(7);
        self.constants.fill(7);
        self.basis.fill(7);
        self.atoms.fill(7);
        self.values.fill(7);
        self.index.fill(7);
    }

    pub fn prepare(&mut self, n: usize, m: usize) -> Result<Prepared, Refusal> {
        parity::prepare(
            n,
            m,
            &mut self.rows,
            &mut self.constants,
            &mut self.basis,
            &mut self.atoms,
            &mut self.values,
            &mut self.index,
        )
    }

    // Compares an answer and the memory behind it.
    pub fn compare(&self, tape: &mut Tape, said: Result<Prepared, Refusal>) {
        tape.compare(&told(said), 0);
        tape.compare(&self.rows, 7);
        tape.compare(&self.constants, 7);
        tape.compare(&self.basis, 7);
        tape.compare(&self.atoms, 7);
        tape.compare(&self.values, 7);
        tape.compare(&self.index, 7);
    }
}

// What preparation answers: number, atoms, rows, rank, refuted, additions, units and incidences. A refused call has its number and else 0. (No From:
// neither array nor Result is this crate's own.)
fn told(said: Result<Prepared, Refusal>) -> [usize; 8] {
    match said {
        Ok(prepared) => [
            0,
            prepared.system.atoms,
            prepared.system.rows,
            prepared.system.rank,
            usize::from(prepared.system.refuted),
            prepared.additions,
            prepared.units,
            prepared.incidences,
        ],
        Err(refusal) => [refusal.number(), 0, 0, 0, 0, 0, 0, 0],
    }
}

pub fn prepare(tape: &mut Tape, memory: &mut Memory) {
    let n = tape.read();
    let m = tape.read();
    memory.clear();
    tape.fill_room(&mut memory.rows);
    tape.fill_room(&mut memory.constants);
    let said = memory.prepare(n, m);
    memory.compare(tape, said);
}
