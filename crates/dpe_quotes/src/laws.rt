//! What holds of the signatures in each legal history, and of what is read as a quote.
ghost use Rattle.dpe_quotes.specs.Laws.{SignsProve};
ghost use Rattle.dpe_quotes.specs.Spelled.{ReadsSpelled};

/// The signature of an accepted Sign under the label `DPE-QUOTE`, of a message of 8 to 64 bytes, makes with the path at its
/// entry a quote that proves this path.
pub fn signs_prove()
    ensures { SignsProve }
{}

/// A quote is read of bytes exactly where they are its encoding and it is one: its lengths, its depth and its modes are in
/// range.
pub fn quotes_are_read()
    ensures { ReadsSpelled }
{}
