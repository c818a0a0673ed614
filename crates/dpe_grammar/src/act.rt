//! The commands of a script, lent from its text.
use crate::value::Value;

/// The configuration of a derived context.
#[derive(Clone, Copy)]
pub enum Config<'a> {
    /// The configuration input itself.
    Inline([u8; 64]),
    /// A descriptor of at most 1,024 bytes.
    Descriptor(Value<'a>),
}

/// `derive`: `keep` is the name of the parent's new handle, where the parent is retained. As in each command, `old` is
/// none where the handle is left out.
#[derive(Clone, Copy)]
pub struct Derive<'a> {
    pub old: Option<&'a [u8]>,
    pub fresh: &'a [u8],
    pub code: [u8; 64],
    pub config: Config<'a>,
    pub authority: [u8; 64],
    /// The DICE mode, 0 to 3.
    pub mode: u8,
    pub hidden: Option<[u8; 64]>,
    pub keep: Option<&'a [u8]>,
    /// The locality of the child, 0 to 7.
    pub locality: Option<u8>,
    /// Whether the child may not be derived from.
    pub is_final: bool,
    /// Whether the child is to be its locality's default.
    pub is_default: bool,
}

/// `sign`: a message of at most 2,048 bytes under a label of at most 64.
#[derive(Clone, Copy)]
pub struct Sign<'a> {
    pub old: Option<&'a [u8]>,
    pub message: Value<'a>,
    pub label: Value<'a>,
    pub keep: Option<&'a [u8]>,
}

/// `seal`: a plaintext of at most 2,048 bytes under a label of at most 64; `sealed` is the name of the box.
#[derive(Clone, Copy)]
pub struct Seal<'a> {
    pub old: Option<&'a [u8]>,
    pub sealed: &'a [u8],
    pub plain: Value<'a>,
    pub label: Value<'a>,
    /// Bit i admits locality i.
    pub localities: u8,
    /// Bit i admits mode i; at most 15.
    pub modes: u8,
    pub keep: Option<&'a [u8]>,
}

/// `unseal`: the box of this name under a label of at most 64 bytes.
#[derive(Clone, Copy)]
pub struct Unseal<'a> {
    pub old: Option<&'a [u8]>,
    pub sealed: &'a [u8],
    pub label: Value<'a>,
    pub keep: Option<&'a [u8]>,
}

/// A command of a script. `old` is the name of the handle that is used, none where the handle is left out, and `fresh`
/// that of a new one, whose context is to be its locality's default where `is_default`.
#[derive(Clone, Copy)]
pub enum Act<'a> {
    Profile,
    Initialize {
        fresh: &'a [u8],
        is_default: bool,
    },
    Derive(Derive<'a>),
    Sign(Sign<'a>),
    Seal(Seal<'a>),
    Unseal(Unseal<'a>),
    Rotate {
        old: Option<&'a [u8]>,
        fresh: &'a [u8],
        is_default: bool,
    },
    Destroy {
        old: Option<&'a [u8]>,
        recursive: bool,
    },
    /// A payload of at most 4,000 bytes, sent as it is.
    Raw(Value<'a>),
}
