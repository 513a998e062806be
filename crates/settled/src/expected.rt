// What is expected of a call.
ghost use Rattle.std.specs.Prelude.{IsTrue, IsOk};

use std::io;

// A caller is proved only where it holds. The run tests it besides: of a compiled call that answers otherwise it makes an error, which `main` returns.
pub fn expect(holds: bool) -> io::Result<()>
    requires { IsTrue holds }
    ensures { IsOk result }
{
    if holds {
        return Ok(());
    }
    Err(io::Error::other("a settled example answers otherwise"))
}
