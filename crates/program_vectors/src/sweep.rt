//! Runs a row, or one run for each call that fails.
use crate::job::Job;
use crate::options::{Call, Options};
use crate::outcome::Outcome;
use crate::row::Fault;
use std::alloc::{AllocError, Global};

// Appends how often a status and so many bytes came.
fn tell(
    alloc: Global,
    text: &mut String,
    times: u32,
    status: u8,
    len: usize,
) -> Result<(), AllocError> {
    let separator = if text.is_empty() { "" } else { ", " };
    let line = format!(in alloc; "{separator}{times} x {status} with {len}")?;
    text.push_str(line.as_str())
}

// Runs once for each call of a kind, which fails. Told are the status and how many bytes stand in the output, which are the
// first of the output of `whole`.
fn each(
    alloc: Global,
    job: &Job<'_>,
    whole: &Outcome,
    call: Call,
    count: u32,
) -> Result<String, Fault> {
    let mut text = String::new(alloc);
    let mut times = 0u32;
    let mut last = (0u8, 0usize);
    for number in 0..count {
        let outcome = job.run(alloc, job.options.failing(call, number))?;
        if !whole.output.starts_with(&outcome.output) {
            return Ok(outcome.shown(alloc)?);
        }
        let now = (outcome.status, outcome.output.len());
        if times > 0 && now != last {
            tell(alloc, &mut text, times, last.0, last.1)?;
            times = 0;
        }
        last = now;
        times = times.saturating_add(1);
    }
    tell(alloc, &mut text, times, last.0, last.1)?;
    Ok(text)
}

/// What came of a row.
pub(crate) fn outcomes(alloc: Global, job: &Job<'_>) -> Result<String, Fault> {
    let whole = job.run(alloc, job.options)?;
    match job.options.each {
        Some((call, count)) => each(alloc, job, &whole, call, count),
        None => Ok(whole.shown(alloc)?),
    }
}
