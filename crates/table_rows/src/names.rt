use crate::fault::RowFault;
use std::alloc::Global;

#[derive(Drop)]
struct Named {
    name: String,
    bytes: Vec<u8>,
}

/// The bytes that a table gave names to.
#[derive(Drop)]
pub struct Names {
    all: Vec<Named>,
}

impl Names {
    /// No name yet.
    // no clause: the rows show it, whose stored runs are compared.
    pub fn new(alloc: Global) -> Names {
        Names {
            all: Vec::new(alloc),
        }
    }

    /// Gives a name to bytes, in place of those that had it.
    // no clause: the rows show it, whose stored runs are compared.
    pub fn name(&mut self, alloc: Global, name: &str, bytes: Vec<u8>) -> Result<(), RowFault> {
        for named in &mut self.all {
            if named.name.as_str() == name {
                named.bytes = bytes;
                return Ok(());
            }
        }
        let name = String::from_str(alloc, name)?;
        self.all.push(Named { name, bytes })?;
        Ok(())
    }

    /// The bytes of a name, if it has been given.
    // no clause: the rows show it, whose stored runs are compared.
    pub fn get(&self, name: &str) -> Option<&[u8]> {
        for named in &self.all {
            if named.name.as_str() == name {
                return Some(&named.bytes);
            }
        }
        None
    }
}
