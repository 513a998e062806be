// A recorded file: its length and bytes, then its text; where it is taken, what preparation answers and leaves, and its calls, each with the
// region, the forced list and the knowledge that it leaves.
use super::systems::Memory;
use super::tape::{Recorded, Tape};
use parity::System;
use region::Region;
use rows::Atom;
use snapshot::Snapshot;

// A call, recorded as its number, from 0 on, and its atom. (A closed set, which one `match` takes apart; any number above 2 is read as a probe.)
enum Call {
    Cut(Atom),
    Hold(Atom),
    Inspect,
    Probe,
}

impl Recorded for Call {
    const SIZE: usize = 4;

    fn read(tape: &mut Tape) -> Call {
        let number: usize = tape.read();
        let atom = Atom(tape.read());
        match number {
            0 => Call::Cut(atom),
            1 => Call::Hold(atom),
            2 => Call::Inspect,
            _ => Call::Probe,
        }
    }
}

// What stands between calls: region and knowledge, and what the last inspection told, in memory that had 7 everywhere: two lists, as `inspect` is lent
// them, and the count that it answers.
#[derive(Drop)]
struct Run {
    region: Region,
    known: Snapshot,
    forced: usize,
    atoms: [usize; 512],
    values: [u8; 512],
}

impl Run {
    // This region and fresh knowledge.
    fn new(region: Region) -> Run {
        Run {
            region,
            known: Snapshot::fresh(),
            forced: 0,
            atoms: [7; 512],
            values: [7; 512],
        }
    }

    // A call that is no inspection leaves an empty list.
    fn clear(&mut self) {
        self.forced = 0;
        self.atoms = [7; 512];
        self.values = [7; 512];
    }

    // Region and knowledge as `lines` has them after an inspection; there the forced list is looked at by none, here it is compared.
    fn inspect(&mut self, system: System, memory: &Memory) {
        let said = inspect::inspect(
            system,
            &memory.rows,
            &memory.constants,
            &memory.basis,
            &memory.index,
            self.region,
            self.known,
            &mut self.atoms,
            &mut self.values,
        );
        if let Ok(seen) = said {
            self.region = seen.region;
            self.known = seen.known;
            self.forced = seen.forced;
        }
    }

    // Makes a call; a probe, or a call that is refused, leaves region and knowledge as they were.
    fn call(&mut self, call: Call, system: System, memory: &Memory) {
        self.clear();
        match call {
            Call::Cut(atom) => self.region = self.region.cut(atom).1,
            Call::Hold(atom) => self.region = self.region.hold(atom).1,
            Call::Inspect => self.inspect(system, memory),
            Call::Probe => {}
        }
    }

    // Compares what a call leaves: the region, the forced list, and its length with the knowledge.
    fn compare(&self, tape: &mut Tape) {
        let region = self.region;
        let known = self.known;
        tape.compare(&region.held, 0);
        tape.compare(&region.cut, 0);
        tape.compare(&self.atoms, 7);
        tape.compare(&self.values, 7);
        tape.compare(
            &[self.forced, usize::from(known.initialized), known.atoms],
            0,
        );
        tape.compare(&known.held, 0);
        tape.compare(&known.cut, 0);
    }
}

// The text that the library answers, in memory that had 7 everywhere.
fn text(tape: &mut Tape, file: &[u8]) {
    let mut out = buffer::filled::<524352>(7);
    let _ = answer::answer(file, &mut out);
    tape.compare(&out, 7);
}

// What preparation leaves of the rows that a file's load leaves, and then the calls, behind their number.
fn internals(tape: &mut Tape, memory: &mut Memory, file: &[u8]) {
    memory.clear();
    let Ok(checked) = load::load(file, &mut memory.rows, &mut memory.constants) else {
        return;
    };
    let said = memory.prepare(checked.atoms, checked.rows);
    memory.compare(tape, said);
    let (Ok(prepared), Ok(region)) = (said, Region::undecided(checked.atoms)) else {
        return;
    };
    let count: usize = tape.read();
    let mut run = Run::new(region);
    for _ in 0..count {
        run.call(tape.read(), prepared.system, memory);
        run.compare(tape);
    }
}

pub fn answer(tape: &mut Tape, memory: &mut Memory) {
    let size: u64 = tape.read();
    let file = tape.part(size as usize).rest();
    text(tape, file);
    internals(tape, memory, file);
}
