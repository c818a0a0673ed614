//! A vault of boxes under names, apart for each locality: what one locality asks for never shows in what another gets. All
//! memory is taken when a vault is made, and threads can share it by the desk.
#![tactic(auto)]

mod call;
mod entry;
mod item;
mod laws;
mod piece;
mod program;
mod reply;
mod shared;
mod storage;
mod table;
mod vault;
mod words;

pub use call::{Op, VaultCall};
pub use entry::VaultEntry;
pub use laws::{each_alone, kept_in_order, one_status};
pub use program::vault_main;
pub use reply::VaultReply;
pub use shared::seen_is_legal;
pub use vault::Vault;
