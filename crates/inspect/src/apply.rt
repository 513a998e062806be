// The forced list applied in order: "an open atom is decided and counted as held or cut; an atom decided otherwise, Refuted with earlier
// ones standing".
ghost use Rattle.std.specs.Prelude.{◌≡◌, ◌<◌};
ghost use Rattle.region.specs.Masks.{decisions};
ghost use Rattle.inspect.specs.Batch.{begun, applied};
ghost use Rattle.inspect.specs.Steps.{Applicable, forced_in, applied_of, Forcing};

use region::Region;
use rows::Atom;

// How many atoms were decided as held and as cut, and whether one was decided otherwise: a flag and no Result, since the counts, and the
// decisions before that, stand in either case.
#[derive(Clone, Copy)]
pub struct Tally {
    pub held: usize,
    pub cut: usize,
    pub against: bool,
}

// A region with forced atoms decided.
#[derive(Clone, Copy)]
pub struct Applied {
    pub region: Region,
    pub tally: Tally,
}

// One forced atom decided in the masks. (Not by `hold` and `cut`: they check the whole region at every atom, and here it was checked once.)
fn force(held: &mut [u64; 8], cut: &mut [u64; 8], tally: Tally, atom: Atom, value: bool) -> Tally
    requires { (tally.held < 512) × (tally.cut < 512) }
    ensures { Forcing atom.0 value held.old cut.old tally held.new cut.new result }
{
    if words::contains(held, atom.0) {
        return Tally {
            against: !value,
            ..tally
        };
    }
    if words::contains(cut, atom.0) {
        return Tally {
            against: value,
            ..tally
        };
    }
    if value {
        words::insert(held, atom.0);
        return Tally {
            held: tally.held + 1,
            cut: tally.cut,
            against: false,
        };
    }
    words::insert(cut, atom.0);
    Tally {
        held: tally.held,
        cut: tally.cut + 1,
        against: false,
    }
}

// The whole list applied, up to an atom decided otherwise. (Two lists, as C lends them, and how many entries `collect` wrote.)
pub fn apply(region: Region, forced: usize, atoms: &[usize], values: &[u8]) -> Applied
    requires { Applicable region forced atoms.now values.now }
    ensures { result ≡ applied_of (applied (begun (decisions region)) (forced_in atoms.now values.now forced)) }
{
    let mut held = region.held;
    let mut cut = region.cut;
    let mut tally = Tally {
        held: 0,
        cut: 0,
        against: false,
    };
    for (atom, value) in atoms[..forced].iter().zip(&values[..forced]) {
        tally = force(&mut held, &mut cut, tally, Atom(*atom), *value == 1);
        if tally.against {
            break;
        }
    }
    Applied {
        region: Region {
            atoms: region.atoms,
            held,
            cut,
        },
        tally,
    }
}
