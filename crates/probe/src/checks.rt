// Whether what `probe` is asked is fit: document 01's numbers 10, 13 for the rank, 9, 11, 12, 13 for a basis entry, 15. What is lent is passed one by
// one, as `probe` is lent it.
ghost use Rattle.std.specs.Prelude.{◌≡◌};
ghost use Rattle.probe.specs.Probe.{probe_check};

use fit::LIMIT;
use parity::System;
use refusal::Refusal;
use region::Region;

// The checks in their order. (The first is `Snapshot::overfull` of `snapshot` without its knowledge, which a probe has none of.)
#[tactic(auto, unfolding(crate::specs::Probe::probe_check))]
pub fn check(
    system: System,
    rows: &[u64],
    constants: &[u8],
    basis: &[usize],
    region: &Region,
) -> Result<(), Refusal>
    ensures { result ≡ probe_check system rows.now constants.now basis.now region.now }
{
    if system.atoms > LIMIT || system.rows > LIMIT || region.atoms > LIMIT {
        return Err(Refusal::Overfull);
    }
    let entries = system.rows.min(system.atoms);
    if system.rank > entries {
        return Err(Refusal::Basis);
    }
    if basis.len() < entries {
        return Err(Refusal::Short);
    }
    inspect::check_lent(system, rows, constants, basis, region)?;
    if region.atoms != system.atoms {
        return Err(Refusal::Unequal);
    }
    Ok(())
}
