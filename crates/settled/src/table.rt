// The settled examples marked [t], held by the gate as the contract of a function with an empty body.
ghost use Rattle.settled.specs.Settled.{Settled};

// "Marked [t]: proved together as a table with a lone statement over the definitions."
pub fn settled()
    ensures { Settled }
{}
