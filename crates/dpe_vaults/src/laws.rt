//! What holds of all lists of calls.
ghost use Rattle.dpe_vaults.specs.Laws.{EachAlone, KeptInOrder, OneStatus};

/// Two lists of calls whose calls of a locality are equal, in order, have equal replies to them.
pub fn each_alone()
    ensures { EachAlone }
{}

/// What is kept stands in ascending bytewise order of the names.
pub fn kept_in_order()
    ensures { KeptInOrder }
{}

/// Bytes have one status, where no call fails.
pub fn one_status()
    ensures { OneStatus }
{}
