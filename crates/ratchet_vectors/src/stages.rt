//! The rows of a stage that went down to versions one after another.
use dpe_box::Policy;
use dpe_ratchets::{RatchetFault, Stage, top};
use std::alloc::Global;
use table_rows::{RowFault, Told, Word, number, put, show_alike};

// The stage of a CDI that went down to these versions.
fn stage_of(alloc: Global, cdi: &Word<'_>, downs: &Word<'_>) -> Result<Stage, RowFault> {
    let mut stage = top(&cdi.array()?);
    for version in &downs.numbers(alloc)? {
        if *version > u32::from(stage.version()) {
            return Err(RowFault::Unreadable);
        }
        stage = stage.down(*version as u16);
    }
    Ok(stage)
}

/// `CDI DOWNS V LABEL LOCALITIES MODES SALT PLAIN`: the box of version V, by a stage that went down to the versions DOWNS.
pub(crate) fn seal(alloc: Global, words: &[Word<'_>], told: &mut String) -> Told {
    let [cdi, downs, others @ ..] = words else {
        return Err(RowFault::Unreadable);
    };
    let stage = stage_of(alloc, cdi, downs)?;
    seal_by(&stage, others, told)
}

fn seal_by(stage: &Stage, words: &[Word<'_>], told: &mut String) -> Told {
    let [version, label, localities, modes, salt, plain] = words else {
        return Err(RowFault::Unreadable);
    };
    let version = version.number::<u16>()?;
    if version > stage.version() {
        return Err(RowFault::Unreadable);
    }
    let label = label.at_most(64)?;
    let localities = localities.number_to(255)?;
    let modes = modes.number_to(15)?;
    let salt = salt.array()?;
    let plain = plain.at_most(2048)?;
    let policy = Policy { localities, modes };
    let mut out = [0; 4096];
    let len = stage.seal(version, label, &policy, &salt, plain, &mut out);
    show_alike(told, &out[..len])
}

/// `CDI DOWNS LABEL LOCALITY MODE SEALED`: what a stage that went down to the versions DOWNS makes of bytes.
pub(crate) fn open(alloc: Global, words: &[Word<'_>], told: &mut String) -> Told {
    let [cdi, downs, others @ ..] = words else {
        return Err(RowFault::Unreadable);
    };
    let stage = stage_of(alloc, cdi, downs)?;
    open_by(&stage, others, told)
}

fn open_by(stage: &Stage, words: &[Word<'_>], told: &mut String) -> Told {
    let [label, locality, mode, sealed] = words else {
        return Err(RowFault::Unreadable);
    };
    let label = label.at_most(64)?;
    let locality = locality.number_to(255)?;
    let mode = mode.number_to(255)?;
    let sealed = sealed.bytes()?;
    let mut out = [0; 2048];
    match stage.open_box(label, sealed, locality, mode, &mut out) {
        Ok(len) => {
            put(told, "gives ")?;
            show_alike(told, &out[..len])
        }
        Err(fault) => tell_fault(&fault, told),
    }
}

fn tell_fault(fault: &RatchetFault, told: &mut String) -> Told {
    match fault {
        RatchetFault::Malformed => put(told, "malformed"),
        RatchetFault::TooNew { version } => number(told, "too new ", u64::from(*version)),
        RatchetFault::Refused => put(told, "refused"),
        RatchetFault::PolicyRefused => put(told, "policy refused"),
    }
}
