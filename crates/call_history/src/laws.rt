//! What histories say, whatever the turns were. Each law is a function with an empty body: who
//! wants it calls it, and has its clauses.

ghost use Rattle.call_history.specs.Laws.{KeepsItsPage, KeepsOtherPages, TellsPhase, TellsAccount, GoesOn, NamesItsOp, GotGrows, CountsGrow};

/// A piece that is carried out keeps what its page shows; a piece on another page changes nothing
/// there.
pub fn pieces_keep()
    ensures here { KeepsItsPage }
    ensures elsewhere { KeepsOtherPages }
{}

/// A history with one more piece still follows its program, whose next piece is of the operation
/// that it names, and has what was read and counted before and what the piece has read and counts.
pub fn histories_go_on()
    ensures follows { GoesOn }
    ensures named { NamesItsOp }
    ensures got { GotGrows }
    ensures counted { CountsGrow }
{}

/// Finished histories that agree with the orders of the pages are a phase that the plain disk
/// allows, where the account's counters are sums over orders and ends; and these are then the
/// statistics of the rest that the phase leaves.
pub fn histories_tell()
    ensures phase { TellsPhase }
    ensures account { TellsAccount }
{}
