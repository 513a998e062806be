// The call of `probe` for C.
ghost use Rattle.std.specs.Prelude.{◌≡◌};
ghost use Rattle.probe.specs.Probe.{probe_of};
ghost use Rattle.ffi.specs.Answers.{probed_answer};

use parity::System;
use refusal::Refusal;
use region::Region;

// What the probe answers: number 0, yes or no, how many atoms are undecided and how many rows were kept; or the number under which it is
// refused.
#[repr(C)]
#[derive(Clone, Copy)]
pub struct Probed {
    pub number: usize,
    pub yes: bool,
    pub undecided: usize,
    pub kept: usize,
}

impl From<Result<probe::Probed, Refusal>> for Probed {
    ghost from_gives = { λ answer told. told ≡ probed_answer answer };

    fn from(answer: Result<probe::Probed, Refusal>) -> Probed {
        match answer {
            Ok(probed) => Probed {
                number: 0,
                yes: probed.yes,
                undecided: probed.undecided,
                kept: probed.kept,
            },
            Err(refusal) => Probed {
                number: refusal.number(),
                yes: false,
                undecided: 0,
                kept: 0,
            },
        }
    }
}

pub fn worzubil_probe(
    system: System,
    rows: &[u64],
    constants: &[u8],
    basis: &[usize],
    region: Region,
) -> Probed
    ensures { result ≡ probed_answer (probe_of system rows.now constants.now basis.now region) }
{
    Probed::from(probe::probe(system, rows, constants, basis, region))
}
