/// The localities (bits 0 to 7) and the modes (bits 0 to 3) that a box admits.
#[derive(Clone, Copy, Debug, PartialEq, Eq)]
pub struct Policy {
    pub localities: u8,
    pub modes: u8,
}

/// Why `unseal` gave no data.
#[derive(Clone, Copy, Debug, PartialEq, Eq)]
pub enum Unopened {
    /// It hasn't the form of a box.
    Malformed,
    /// Its tag is another.
    Refused,
    /// Its masks lack the locality or the mode.
    PolicyRefused,
}

/// What `open_box` found: how many bytes of data, and for whom.
#[derive(Clone, Copy, Debug, PartialEq, Eq)]
pub struct Opened {
    pub len: usize,
    pub policy: Policy,
}

/// Why `open_box` gave no data.
#[derive(Clone, Copy, Debug, PartialEq, Eq)]
pub enum NotOpened {
    /// It hasn't the form of a box.
    Malformed,
    /// Its tag is another.
    Refused,
}
