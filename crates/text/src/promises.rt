// The theorem of `text`, held by the gate as the contract of a function with an empty body; specs/Promises.antt has the statement.
ghost use Rattle.text.specs.Promises.{WrittenWhole};

// Where there is room nothing is cut off.
pub fn written_whole()
    ensures { WrittenWhole }
{}
