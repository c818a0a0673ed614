//! What holds of the keys and boxes of all versions.
ghost use Rattle.dpe_ratchets.specs.Laws.{IsRatchet, OpensFromItsVersionOn};

/// The key of the top version is the CDI's, and each lower one follows from the key above it.
pub fn each_key_follows()
    ensures { IsRatchet }
{}

/// What was sealed at a version opens at that version and at each later one, and is too new below it.
pub fn opens_from_its_version_on()
    ensures { OpensFromItsVersionOn }
{}
