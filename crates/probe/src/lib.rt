// The probe: whether the rest can come out, a port of consistent_in_reserved of parity/runtime.rs over lent memory.
#![tactic(auto)]

ghost use Rattle.std.specs.Prelude.{◌≡◌, Ok, ◌≤◌, length, take};
ghost use Rattle.std.specs.Int.Count.{ones};
ghost use Rattle.words.specs.Set.{set_of};
ghost use Rattle.rows.specs.Decisions.{undecided};
ghost use Rattle.region.specs.Masks.{decisions};
ghost use Rattle.region.specs.Calls.{region_check};
ghost use Rattle.probe.specs.Probe.{probe_of};

use inspect::Masks;
use parity::{Basis, System};
use refusal::Refusal;
use region::Region;

mod checks;
mod eliminate;
mod open_row;
mod pivots;
pub mod promises;

// What the probe answers: yes or no, u (the atoms neither held nor cut) and k (the rows kept). The counts stand on no as on yes, so a flag is
// beside them.
#[derive(Clone, Copy)]
pub struct Probed {
    pub yes: bool,
    pub undecided: usize,
    pub kept: usize,
}

// How many atoms the first words of a mask have.
fn size(mask: &[u64], width: usize) -> usize
    requires { (width ≤ 8) × (width ≤ length mask.now) }
    ensures { result ≡ ones (set_of (take width mask.now)) }
{
    words::count(&mask[..width]).unwrap()
}

// "u counts atoms neither held nor cut." No mask has one past the words that the atoms take.
fn open_count(region: &Region) -> usize
    requires { region_check region.now ≡ Ok tt }
    ensures { result ≡ undecided (decisions region.now) }
{
    let width = rows::width(region.atoms);
    let held = size(&region.held, width);
    let cut = size(&region.cut, width);
    region.atoms - held - cut
}

// Whether the open atoms can still come out so that every basis row of a prepared system is met. Lists are lent one by one, as C lends them.
#[tactic(auto, unfolding(crate::specs::Probe::probe_of))]
pub fn probe(
    system: System,
    rows: &[u64],
    constants: &[u8],
    basis: &[usize],
    region: Region,
) -> Result<Probed, Refusal>
    ensures { result ≡ probe_of system rows.now constants.now basis.now region }
{
    checks::check(system, rows, constants, basis, &region)?;
    let undecided = open_count(&region);
    if system.refuted {
        return Ok(Probed {
            yes: false,
            undecided,
            kept: 0,
        });
    }
    let lent = Basis {
        atoms: system.atoms,
        rank: system.rank,
        rows,
        constants,
        entries: basis,
    };
    let left = eliminate::eliminate(lent, Masks::from(region));
    Ok(Probed {
        yes: left.sound,
        undecided,
        kept: left.kept,
    })
}
