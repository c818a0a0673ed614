//! Quotes: symmetric evidence of what was booted. A quote is a nonce, a claimed path, and the tag that a Sign under the
//! label `DPE-QUOTE` gave for the nonce; a holder of the seed checks it. Nothing here takes memory.
#![tactic(auto)]

mod laws;
mod parts;
mod program;
mod stored;
mod verifying;
mod words;
mod writing;

pub use laws::{quotes_are_read, signs_prove};
pub use program::quote_main;
pub use verifying::{QuoteFault, verify};
pub use writing::write_quote;
