//! The names of a script: those that a command uses, and those that it introduces.
ghost use Rattle.std.specs.Prelude.{◌≡◌, ◌+◌, ◌≤◌, OnOk, length, Some, None, vec_len, nat_lt};
ghost use Rattle.std.specs.Option.{option_map};
ghost use Rattle.dpe_grammar.specs.Values.{texts};
ghost use Rattle.dpe_grammar.specs.Acts.{act_of};
ghost use Rattle.dpe_script.specs.Names.{old_of as old_name, opened_of as opened_name, fresh_of as fresh_name, keep_of as keep_name, sealed_of as sealed_name, is_among as is_name_among, is_known as is_name_known, with_name, knows as knows_names, introduced, no_names, count};
ghost use Rattle.dpe_script.specs.CodeNames.{names_of};

use dpe_grammar::Act;
use std::alloc::{AllocError, Global};

// The handle's name that a command uses, none where it leaves the handle out.
fn old_of<'a>(act: &Act<'a>) -> Option<&'a [u8]>
    ensures { option_map (λ t. t.now) result ≡ old_name (act_of act.now) }
{
    match act {
        Act::Profile => None,
        Act::Initialize { .. } => None,
        Act::Derive(derive) => derive.old,
        Act::Sign(sign) => sign.old,
        Act::Seal(seal) => seal.old,
        Act::Unseal(unseal) => unseal.old,
        Act::Rotate { old, .. } => *old,
        Act::Destroy { old, .. } => *old,
        Act::Raw(_) => None,
    }
}

// The name of the box that `unseal` uses.
fn opened_of<'a>(act: &Act<'a>) -> Option<&'a [u8]>
    ensures { option_map (λ t. t.now) result ≡ opened_name (act_of act.now) }
{
    match act {
        Act::Profile => None,
        Act::Initialize { .. } => None,
        Act::Derive(_) => None,
        Act::Sign(_) => None,
        Act::Seal(_) => None,
        Act::Unseal(unseal) => Some(unseal.sealed),
        Act::Rotate { .. } => None,
        Act::Destroy { .. } => None,
        Act::Raw(_) => None,
    }
}

/// The name that the new handle of a command gets.
pub fn fresh_of<'a>(act: &Act<'a>) -> Option<&'a [u8]>
    ensures { option_map (λ t. t.now) result ≡ fresh_name (act_of act.now) }
{
    match act {
        Act::Profile => None,
        Act::Initialize { fresh, .. } => Some(fresh),
        Act::Derive(derive) => Some(derive.fresh),
        Act::Sign(_) => None,
        Act::Seal(_) => None,
        Act::Unseal(_) => None,
        Act::Rotate { fresh, .. } => Some(fresh),
        Act::Destroy { .. } => None,
        Act::Raw(_) => None,
    }
}

/// The name that the new handle of a retained context gets.
pub fn keep_of<'a>(act: &Act<'a>) -> Option<&'a [u8]>
    ensures { option_map (λ t. t.now) result ≡ keep_name (act_of act.now) }
{
    match act {
        Act::Profile => None,
        Act::Initialize { .. } => None,
        Act::Derive(derive) => derive.keep,
        Act::Sign(sign) => sign.keep,
        Act::Seal(seal) => seal.keep,
        Act::Unseal(unseal) => unseal.keep,
        Act::Rotate { .. } => None,
        Act::Destroy { .. } => None,
        Act::Raw(_) => None,
    }
}

/// The name that the box of `seal` gets.
pub fn sealed_of<'a>(act: &Act<'a>) -> Option<&'a [u8]>
    ensures { option_map (λ t. t.now) result ≡ sealed_name (act_of act.now) }
{
    match act {
        Act::Profile => None,
        Act::Initialize { .. } => None,
        Act::Derive(_) => None,
        Act::Sign(_) => None,
        Act::Seal(seal) => Some(seal.sealed),
        Act::Unseal(_) => None,
        Act::Rotate { .. } => None,
        Act::Destroy { .. } => None,
        Act::Raw(_) => None,
    }
}

/// The most names of a script.
const MAX_NAMES: usize = 1_024;

/// The names that were introduced, each once: handles and boxes are two sets.
#[derive(Drop)]
pub struct Names<'a> {
    pub handles: Vec<&'a [u8]>,
    pub boxes: Vec<&'a [u8]>,
}

// Whether a name is one of these.
fn is_among(names: &[&[u8]], name: &[u8]) -> bool
    ensures { result ≡ is_name_among (texts names.now) name.now }
{
    for other in names {
        if *other == name {
            return true;
        }
    }
    false
}

// Whether a name that is used was introduced.
fn is_known(names: &[&[u8]], name: Option<&[u8]>) -> bool
    ensures { result ≡ is_name_known (texts names.now) (option_map (λ t. t.now) name.entry) }
{
    match name {
        None => true,
        Some(name) => is_among(names, name),
    }
}

// Adds a name, where it is a new one.
fn add_name<'a>(names: &mut Vec<&'a [u8]>, name: Option<&'a [u8]>) -> Result<(), AllocError>
    ensures { OnOk result (texts names.new.items ≡ with_name (texts names.old.items) (option_map (λ t. t.now) name.entry)) }
{
    match name {
        None => Ok(()),
        Some(name) => {
            if is_among(names, name) {
                return Ok(());
            }
            names.push(name)?;
            Ok(())
        }
    }
}

impl<'a> Names<'a> {
    /// No name.
    pub fn new(alloc: Global) -> Names<'a>
        ensures { names_of result ≡ no_names }
    {
        Names {
            handles: Vec::new(alloc),
            boxes: Vec::new(alloc),
        }
    }

    /// Whether the names that a command uses were introduced.
    pub fn knows(&self, act: &Act<'a>) -> bool
        ensures { result ≡ knows_names (names_of self.now) (act_of act.now) }
    {
        is_known(&self.handles, old_of(act)) && is_known(&self.boxes, opened_of(act))
    }

    /// Adds the names that a command introduces. It may answer want of memory.
    pub fn introduce(&mut self, act: &Act<'a>) -> Result<(), AllocError>
        ensures { OnOk result (names_of self.new ≡ introduced (names_of self.old) (act_of act.now)) }
    {
        add_name(&mut self.handles, fresh_of(act))?;
        add_name(&mut self.handles, keep_of(act))?;
        add_name(&mut self.boxes, sealed_of(act))
    }

    /// Whether there are more than 1,024 names.
    pub fn are_too_many(&self) -> bool
        ensures { result ≡ nat_lt 1024 (count (names_of self.now)) }
    {
        let handles = self.handles.len();
        handles > MAX_NAMES || self.boxes.len() > MAX_NAMES - handles
    }
}
