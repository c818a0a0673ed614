//! Laws of served connections.
ghost use Rattle.dpe_connections.specs.Observed.{EndingIsObserved, OneEnding, ClosedWhereNothingFailed};

/// Does nothing. Of a connection that began without a fault, the ending is seen from the outside, but for the ticket of a
/// full journal.
pub fn one_ending()
    ensures observed { EndingIsObserved }
    ensures one { OneEnding }
{}

/// Does nothing. A connection ends as closed where its bytes end behind a whole frame and nothing failed.
pub fn closed_where_nothing_failed()
    ensures { ClosedWhereNothingFailed }
{}
