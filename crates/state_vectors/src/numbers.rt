//! Words of a row that stand for numbers.
use table_rows::RowFault;

/// A number in decimal digits.
pub(crate) fn number(text: &str) -> Result<u64, RowFault> {
    match text.parse::<u64>() {
        Ok(number) => Ok(number),
        Err(_) => Err(RowFault::Unreadable),
    }
}

/// A number below 256.
pub(crate) fn small(text: &str) -> Result<u8, RowFault> {
    match text.parse::<u8>() {
        Ok(number) => Ok(number),
        Err(_) => Err(RowFault::Unreadable),
    }
}
