//! The values of a script's names: the bytes of handles and of boxes.
ghost use Rattle.std.specs.Prelude.{◌≡◌, ◌≤◌, ◌<◌, ◌++◌, true, IfNone, ℕ, List, IfOk, OnErr, IfSome, length, Some, None, [], replicate};
ghost use Rattle.dpe_grammar.specs.Values.{texts};
ghost use Rattle.std.specs.Option.{option_map};
ghost use Rattle.dpe_grammar.specs.Acts.{act_of, name_if};
ghost use Rattle.dpe_script.specs.Names.{HasNames, is_among, is_known};
ghost use Rattle.dpe_script.specs.Meaning.{no_values, taken, new_handle, kept_handle, made_bytes, after, response};
ghost use Rattle.dpe_script.specs.CodeValues.{place_of, handle_in, box_in, handles_of, boxes_of, values_of, IsTable, HasShortBoxes, AreShort};
ghost use Rattle.dpe_script.specs.CodeNames.{names_of};
ghost use Rattle.dpe_messages.specs.Replies.{response_of};

use crate::names::{Names, fresh_of, keep_of, sealed_of};
use dpe_grammar::Act;
use dpe_io::Packet;
use dpe_messages::Reply;
use std::alloc::{AllocError, Global};

/// The names of a script and their values, place by place.
#[derive(Drop)]
pub struct Values<'a> {
    pub names: Names<'a>,
    pub handles: Vec<[u8; 16]>,
    pub boxes: Vec<Packet>,
}

// Where a name stands.
fn place(names: &[&[u8]], name: &[u8]) -> Option<usize>
    ensures place { result ≡ place_of (texts names.now) name.now }
    ensures within { IfSome result (λ at. at < length names.now) }
{
    for (at, other) in names.iter().enumerate() {
        if *other == name {
            return Some(at);
        }
    }
    None
}

impl<'a> Values<'a> {
    /// The names without a value yet. It may answer want of memory.
    pub fn new(alloc: Global, names: Names<'a>) -> Result<Values<'a>, AllocError>
        ensures none { IfOk result (λ v. (name : List ℕ) → (handles_of v name ≡ no_values.handles name) × (boxes_of v name ≡ [])) }
        ensures names { IfOk result (λ v. names_of v.names ≡ names_of names.entry) }
        ensures table { IfOk result IsTable }
        ensures short { IfOk result HasShortBoxes }
    {
        let handles = zero_handles(alloc, names.handles.len())?;
        let boxes = empty_boxes(alloc, names.boxes.len())?;
        Ok(Values {
            names,
            handles,
            boxes,
        })
    }

    /// The handle of a name, 16 zeros where it has none.
    pub fn handle(&self, name: &[u8]) -> [u8; 16]
        ensures { result ≡ handles_of self.now name.now }
    {
        match place(&self.names.handles, name) {
            None => [0; 16],
            Some(at) => match self.handles.get(at) {
                None => [0; 16],
                Some(handle) => *handle,
            },
        }
    }

    /// The handle of a name, none where there is no name.
    pub fn handle_if(&self, name: Option<&[u8]>) -> Option<[u8; 16]>
        ensures { result ≡ option_map (handles_of self.now) (name_if name.entry) }
    {
        match name {
            None => None,
            Some(name) => Some(self.handle(name)),
        }
    }

    /// The box of a name, no bytes where it has none.
    pub fn sealed(&self, name: &[u8]) -> &[u8]
        ensures value { result.now ≡ boxes_of self.now name.now }
        ensures short { HasShortBoxes self.now → length result.now ≤ 3900 }
    {
        match place(&self.names.boxes, name) {
            None => &[],
            Some(at) => match self.boxes.get(at) {
                None => &[],
                Some(sealed) => sealed.bytes(),
            },
        }
    }
}

// So many handles of zeros.
fn zero_handles(alloc: Global, count: usize) -> Result<Vec<[u8; 16]>, AllocError>
    ensures { IfOk result (λ handles. handles.items ≡ replicate count (replicate 16 0)) }
{
    vec![in alloc; [0; 16]; count]
}

// So many boxes of no bytes.
fn empty_boxes(alloc: Global, count: usize) -> Result<Vec<Packet>, AllocError>
    ensures { IfOk result (λ boxes. boxes.items ≡ replicate count []) }
{
    let mut boxes = Vec::new(alloc);
    for _at in 0..count {
        boxes.push(Packet::new())?;
    }
    Ok(boxes)
}

// The new handle that a reply carries: the root's, the child's, or that of the same context.
fn new_handle_of(reply: &Reply<'_>) -> Option<[u8; 16]>
    ensures { result ≡ new_handle (response_of reply.now) }
{
    match reply {
        Reply::Refused(_) => None,
        Reply::Profile => None,
        Reply::Handle(handle) => Some(*handle),
        Reply::Derived { child, .. } => Some(*child),
        Reply::Made { .. } => None,
        Reply::Done => None,
    }
}

// The new handle of a context that was retained.
fn kept_handle_of(reply: &Reply<'_>) -> Option<[u8; 16]>
    ensures { result ≡ kept_handle (response_of reply.now) }
{
    match reply {
        Reply::Refused(_) => None,
        Reply::Profile => None,
        Reply::Handle(_) => None,
        Reply::Derived { parent, .. } => *parent,
        Reply::Made { handle, .. } => *handle,
        Reply::Done => None,
    }
}

/// The signature, the box or the plaintext that a reply carries.
pub fn made_bytes_of<'a>(reply: &Reply<'a>) -> Option<&'a [u8]>
    ensures { option_map (λ t. t.now) result ≡ made_bytes (response_of reply.now) }
{
    match reply {
        Reply::Refused(_) => None,
        Reply::Profile => None,
        Reply::Handle(_) => None,
        Reply::Derived { .. } => None,
        Reply::Made { bytes, .. } => Some(bytes),
        Reply::Done => None,
    }
}

// Puts a handle at the place of its name.
fn put_handle(names: &[&[u8]], handles: &mut [[u8; 16]], name: &[u8], handle: [u8; 16])
    requires table { length handles.old ≡ length names.now }
    requires known { is_among (texts names.now) name.now ≡ true }
    ensures { handle_in names.now handles.new ≡ taken (Some name.now) (Some handle) (handle_in names.now handles.old) }
{
    match place(names, name) {
        None => {}
        Some(at) => handles[at] = handle,
    }
}

// Puts a box at the place of its name.
fn put_box(names: &[&[u8]], boxes: &mut [Packet], name: &[u8], sealed: &[u8])
    requires table { length boxes.old ≡ length names.now }
    requires known { is_among (texts names.now) name.now ≡ true }
    requires short { AreShort boxes.old }
    requires few { length sealed.now ≤ 3900 }
    ensures put { box_in names.now boxes.new ≡ taken (Some name.now) (Some sealed.now) (box_in names.now boxes.old) }
    ensures short { AreShort boxes.new }
{
    match place(names, name) {
        None => {}
        Some(at) => boxes[at].set(sealed),
    }
}

impl<'a> Values<'a> {
    // A name takes a handle, where both are there.
    fn take_handle(&mut self, name: Option<&[u8]>, handle: Option<[u8; 16]>)
        requires table { IsTable self.old }
        requires known { is_known (texts self.old.names.handles.items) (option_map (λ t. t.now) name) ≡ true }
        ensures handles { handles_of self.new ≡ taken (option_map (λ t. t.now) name.entry) handle (handles_of self.old) }
        ensures boxes { self.new.boxes ≡ self.old.boxes }
        ensures names { self.new.names ≡ self.old.names }
        ensures table { IsTable self.new }
    {
        match name {
            None => {}
            Some(name) => match handle {
                None => {}
                Some(handle) => put_handle(&self.names.handles, &mut self.handles, name, handle),
            },
        }
    }

    // A name takes a box, where both are there.
    fn take_box(&mut self, name: Option<&[u8]>, sealed: Option<&[u8]>)
        requires table { IsTable self.old }
        requires known { is_known (texts self.old.names.boxes.items) (option_map (λ t. t.now) name) ≡ true }
        requires short { HasShortBoxes self.old }
        requires few { IfSome sealed (λ b. length b.now ≤ 3900) }
        ensures boxes { boxes_of self.new ≡ taken (option_map (λ t. t.now) name.entry) (option_map (λ t. t.now) sealed.entry) (boxes_of self.old) }
        ensures handles { self.new.handles ≡ self.old.handles }
        ensures names { self.new.names ≡ self.old.names }
        ensures table { IsTable self.new }
        ensures short { HasShortBoxes self.new }
    {
        match name {
            None => {}
            Some(name) => match sealed {
                None => {}
                Some(sealed) => put_box(&self.names.boxes, &mut self.boxes, name, sealed),
            },
        }
    }

    /// Gives the names of a command what its reply carries.
    pub fn take(&mut self, act: &Act<'_>, reply: &Reply<'_>)
        requires table { IsTable self.old }
        requires known { HasNames (names_of self.old.names) (act_of act.now) }
        requires short { HasShortBoxes self.old }
        requires few { IfSome (made_bytes (response_of reply.now)) (λ b. length b ≤ 3900) }
        ensures values { values_of self.new ≡ after (values_of self.old) (act_of act.now) (response (response_of reply.now)) }
        ensures names { self.new.names ≡ self.old.names }
        ensures table { IsTable self.new }
        ensures short { HasShortBoxes self.new }
    {
        self.take_handle(fresh_of(act), new_handle_of(reply));
        self.take_handle(keep_of(act), kept_handle_of(reply));
        self.take_box(sealed_of(act), made_bytes_of(reply));
    }
}
