// The lines of a file's calls: each record of a decision, an inspection or a probe is a call over one region and one knowledge, and adds its line.
// (What is read, the file or what is lent, and the text that is written are passed apart.)
#![tactic(auto)]

ghost use Rattle.std.specs.Prelude.{◌≡◌};
ghost use Rattle.inspect.specs.Inspect.{filled};
ghost use Rattle.inspect.specs.Run.{begins};
ghost use Rattle.format.specs.Starts.{starts};
ghost use Rattle.text.specs.Puts.{Puts};
ghost use Rattle.lines.specs.Lines.{decision_at, inspection, lines_from};
ghost use Rattle.lines.specs.Steps.{state_of, Called, Turned};

use format::{Kind, Record, Records};
use inspect::PreparedSystem;
use region::Region;
use rows::Atom;
use snapshot::Snapshot;
use text::Text;

mod print;

// Region and knowledge, as the last call left them, and the memory that inspections are lent for their forced lists.
#[derive(Drop)]
struct State {
    region: Region,
    known: Snapshot,
    forced_atoms: [usize; 512],
    forced_values: [u8; 512],
}

impl State {
    // Above 512 atoms there is no region; the one of no atoms stands for it, since `put_lines` asks nothing of the system that it is lent.
    fn begin(atoms: usize) -> State
        ensures { state_of result ≡ begins atoms }
    {
        State {
            region: Region::undecided(atoms).unwrap_or(Region {
                atoms: 0,
                held: [0; 8],
                cut: [0; 8],
            }),
            known: Snapshot::fresh(),
            forced_atoms: [0; 512],
            forced_values: [0; 512],
        }
    }

    // A decision: its line, and the region with it made.
    fn decide(&mut self, at: Record, text: &mut Text)
        ensures { Called (state_of self.old) (decision_at at.entry.file.now at.entry.offset) text.old text.new self.new }
    {
        let atom = usize::from(at.decided());
        let holds = at.value() == 1;
        let (answer, region) = if holds {
            self.region.hold(Atom(atom))
        } else {
            self.region.cut(Atom(atom))
        };
        self.region = region;
        print::put_decision(text, atom, usize::from(holds), answer);
    }

    // An inspection: its line, and region and knowledge as it leaves them.
    fn inspect(&mut self, prepared: &PreparedSystem, text: &mut Text)
        ensures { Called (state_of self.old) (inspection prepared.now.system (filled prepared.now.rows.now prepared.now.constants.now prepared.now.basis.now prepared.now.index.now)) text.old text.new self.new }
    {
        let inspected = prepared.inspect(
            self.region,
            self.known,
            &mut self.forced_atoms,
            &mut self.forced_values,
        );
        if let Ok(inspected) = inspected {
            self.region = inspected.region;
            self.known = inspected.known;
        }
        print::put_inspection(text, inspected);
    }

    // A record: its line if its kind has one, and region and knowledge as its call leaves them.
    fn turn(&mut self, at: Record, prepared: &PreparedSystem, text: &mut Text)
        ensures { Turned at.entry.file.now prepared.now.system (filled prepared.now.rows.now prepared.now.constants.now prepared.now.basis.now prepared.now.index.now) (state_of self.old) at.entry.offset text.old text.new self.new }
    {
        let Ok(kind) = at.kind() else {
            return;
        };
        match kind {
            Kind::Decide => self.decide(at, text),
            Kind::Inspect => self.inspect(prepared, text),
            Kind::Probe => {
                let probed = probe::probe(
                    prepared.system,
                    prepared.rows,
                    prepared.constants,
                    prepared.basis,
                    self.region,
                );
                print::put_probe(text, probed);
            }
            _ => {}
        }
    }
}

// The lines of all records.
pub fn put_lines(file: &[u8], prepared: &PreparedSystem, text: &mut Text)
    ensures { Puts text.old (lines_from file.now prepared.now.system (filled prepared.now.rows.now prepared.now.constants.now prepared.now.basis.now prepared.now.index.now) (begins prepared.now.system.atoms) (starts file.now 0)) text.new }
{
    let mut state = State::begin(prepared.system.atoms);
    for record in Records::of(file) {
        state.turn(record, prepared, text);
    }
}
