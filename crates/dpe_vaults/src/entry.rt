//! A call and its reply, stored.
ghost use Rattle.std.specs.Prelude.{◌≡◌};

use crate::call::VaultCall;
use crate::reply::VaultReply;

/// A call, who made it, and the reply to it.
#[derive(Drop)]
pub struct VaultEntry {
    pub caller: u32,
    pub call: VaultCall,
    pub reply: VaultReply,
}

impl VaultEntry {
    // An entry of nothing.
    pub(crate) fn blank() -> VaultEntry {
        VaultEntry {
            caller: 0,
            call: VaultCall::blank(),
            reply: VaultReply::new(),
        }
    }

    // Stores copies of these.
    pub(crate) fn store(&mut self, caller: u32, call: &VaultCall, reply: &VaultReply)
        ensures { self.new ≡ record { caller = caller; call = call.now; reply = reply.now } }
    {
        self.caller = caller;
        self.call
            .store(call.locality(), call.op(), call.name(), call.sealed());
        self.reply.store(reply);
    }
}
