//! What a vault replies.
ghost use Rattle.std.specs.Prelude.{◌≡◌, []};

use dpe_io::Packet;

/// A code, and the box or the names that were asked for. 0 done; 22 what is put hasn't the form of a box; 30 the name isn't
/// there; 31 there are 32 names already.
#[derive(Drop)]
pub struct VaultReply {
    pub code: u8,
    pub bytes: Packet,
}

impl VaultReply {
    /// Code 0 and no bytes.
    pub fn new() -> VaultReply
        ensures { result ≡ record { code = 0; bytes = [] } }
    {
        VaultReply {
            code: 0,
            bytes: Packet::new(),
        }
    }

    // Makes it the same as another.
    pub(crate) fn store(&mut self, from: &VaultReply)
        ensures { self.new ≡ from.now }
    {
        self.code = from.code;
        self.bytes.set(from.bytes.bytes());
    }
}
