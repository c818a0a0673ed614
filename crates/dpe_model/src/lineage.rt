use dpe_inputs::Input;

/// One derivation on the way from the root to a context: the serial of the handle that the child was born
/// with, and the input that was folded into its CDIs.
#[derive(Clone, Copy, Debug, PartialEq, Eq)]
pub struct Birth {
    pub serial: u64,
    pub input: Input,
}
