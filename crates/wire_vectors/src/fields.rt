//! Answers of several fields, told at once.
use table_rows::{Told, flag, number, put, show};

/// What stands behind the name of a field.
#[derive(Clone, Copy)]
pub(crate) enum Value<'a> {
    Bytes(&'a [u8]),
    Number(u64),
    Flag(bool),
    /// `none`.
    Missing,
}

// Tells a field: its name, and what stands behind it.
fn tell_field(name: &str, value: Value<'_>, told: &mut String) -> Told {
    match value {
        Value::Number(value) => number(told, name, value),
        Value::Flag(holds) => flag(told, name, holds),
        Value::Bytes(bytes) => {
            put(told, name)?;
            show(told, bytes)
        }
        Value::Missing => {
            put(told, name)?;
            put(told, "none")
        }
    }
}

/// Tells fields one behind the other.
pub(crate) fn tell_fields(fields: &[(&str, Value<'_>)], told: &mut String) -> Told {
    for (name, value) in fields {
        tell_field(name, *value, told)?;
    }
    Ok(())
}
