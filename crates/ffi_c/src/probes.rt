// The probe: the call of `ffi`'s probes.rt.
ghost use Rattle.std.specs.Prelude.{◌≡◌};
ghost use Rattle.probe.specs.Probe.{probe_of};
ghost use Rattle.ffi.specs.Answers.{probed_answer};

use ffi::probes::Probed;
use parity::System;
use region::Region;

#[unsafe(no_mangle)]
pub extern "C" fn worzubil_probe(
    system: System,
    rows: &[u64],
    constants: &[u8],
    basis: &[usize],
    region: Region,
) -> Probed
    ensures { result ≡ probed_answer (probe_of system rows.now constants.now basis.now region) }
{
    ffi::probes::worzubil_probe(system, rows, constants, basis, region)
}
