//! The live contexts: the table of their handles beside the arena of their secrets.
ghost use Rattle.std.specs.Prelude.{ℕ, Bool, true, false, ◌≡◌, ◌<◌, ◌≤◌, ◌+◌, ◌++◌, ◌∷◌, [], length, filter, remove, IfOk, IfSome, IfNone, Some, None, slice_get};
ghost use Rattle.std.specs.Option.{option_map};
ghost use Rattle.dpe_inputs.specs.Meters.{counted};
ghost use Rattle.dpe_messages.specs.Commands.{name_of};
ghost use Rattle.dpe_messages.specs.Replies.{context_limit, depth_limit};
ghost use Rattle.dpe_model.specs.State.{depth, serial};
ghost use Rattle.dpe_model.specs.Verdict.{row_for, is_taken as is_taken_by};
ghost use Rattle.dpe_model.specs.Step.{root as root_of, renamed, marked, taken_out, family_out};
ghost use Rattle.dpe_model.specs.LiveRows.{live_of};
ghost use Rattle.dpe_handles.specs.Rows.{IsAscending, OneDefaultEach};
ghost use Rattle.dpe_tree.specs.Tree.{context, live_count};
ghost use Rattle.dpe_core.specs.Kept.{IsOwnedBut, Ends, is_outside, row_of_child};
ghost use Rattle.dpe_core.specs.Contexts.{Kept, Of, IsMeantAt, IsMarkable, IsAfter, IsUnborn, AreCdis, derived_beside, derived_from, with_rows};

use dpe_handles::{Row, Steps, Table};
use dpe_inputs::{Cdis, Input, Meter, first, next};
use dpe_model::LiveRow;
use dpe_tree::{Place, Tree};
use std::alloc::{AllocError, Global};
use std::marker::Model;

/// What a derivation says of the child: its handle, the locality that it is bound to, whether it may be derived
/// from, and whether it is the default of its locality.
#[derive(Clone, Copy)]
pub struct Child {
    pub handle: [u8; 16],
    pub locality: u8,
    pub may_derive: bool,
    pub default: bool,
}

impl Child {
    // The row of the child, whose context is at a place.
    fn row_at(&self, place: Place) -> Row
        ensures { result ≡ row_of_child self.now place.0 }
    {
        Row {
            handle: self.handle,
            locality: self.locality,
            may_derive: self.may_derive,
            place: place.0,
            default: self.default,
        }
    }
}

/// The live contexts of a seed, each with its CDIs.
#[derive(Drop)]
pub struct Contexts {
    seed: [u8; 32],
    tree: Tree,
    table: Table,
}

impl Model for Contexts {
    ghost use Rattle.dpe_core.specs.Contexts.{Kept};
    ghost use Rattle.dpe_core.specs.Kept.{kept_of, IsKept};

    ghost Value = { Kept };

    ghost view = { kept_of };

    ghost invariant = { IsKept };
}

// Takes the row at a place out of the table. What holds of each table is told too, for the callers' proofs.
fn spend(table: &mut Table, at: usize) -> Row
    requires { at < length table.old }
    ensures rising { IsAscending table.old }
    ensures marks { OneDefaultEach table.old }
    ensures row { slice_get table.old at ≡ Some result }
    ensures rest { table.new ≡ remove table.old at }
    ensures room { length table.new < context_limit }
{
    let _rows = table.len();
    table.spend(at)
}

// Ends the contexts below one whose row is out of the table already. Its place is live until all of them are ended.
fn end_below(tree: &mut Tree, table: &mut Table, above: Place)
    requires owned { IsOwnedBut (context tree.old) table.old above.0 }
    requires many { live_count tree.old ≡ length table.old + 1 }
    ensures rows { table.new ≡ filter (is_outside (context tree.old) above.0) table.old }
    ensures owned { IsOwnedBut (context tree.new) table.new above.0 }
    ensures ends { Ends (context tree.old) (context tree.new) }
    ensures many { live_count tree.new ≡ length table.new + 1 }
{
    let mut at = table.len();
    while at > 0 {
        at -= 1;
        let place = Place(table.row(at).place);
        if tree.below(above, place) {
            table.spend(at);
            tree.retire(place);
        }
    }
}

impl Contexts {
    /// No context yet. All memory that contexts ever use is taken here.
    pub fn make(alloc: Global, seed: &[u8; 32]) -> Result<Contexts, AllocError>
        ensures { IfOk result (λ contexts. contexts ≡ record { seed = seed.now; rows = [] }) }
    {
        let tree = Tree::make(alloc)?;
        let table = Table::make(alloc)?;
        Ok(Contexts {
            seed: *seed,
            tree,
            table,
        })
    }

    /// How many contexts live, at most 1,024.
    pub fn len(&self) -> usize
        ensures length { result ≡ length self.now.rows }
        ensures most { result ≤ context_limit }
    {
        self.table.len()
    }

    // The place of the context with this handle, or `None` exactly where none has it.
    fn named(&self, handle: &[u8; 16]) -> Option<usize>
        ensures found { (locality : ℕ) → IfSome result (IsMeantAt self.now.rows locality (Some handle.now)) }
        ensures absent { (locality : ℕ) → IfNone result (row_for self.now.rows locality (Some handle.now) ≡ None) }
    {
        let _rows = self.table.len();
        self.table.find(handle, &mut Steps::new())
    }

    /// The place of the default context of a locality, or `None` exactly where it has none.
    pub fn default_at(&self, locality: u8) -> Option<usize>
        ensures found { IfSome result (IsMeantAt self.now.rows locality None) }
        ensures absent { IfNone result (row_for self.now.rows locality None ≡ None) }
    {
        let _rows = self.table.len();
        self.table.default_at(locality)
    }

    /// The place of the context that a caller at a locality means: the one with this handle, or, without a handle, the
    /// default of the locality. `None` exactly where there is none.
    pub fn meant(&self, locality: u8, handle: Option<&[u8; 16]>) -> Option<usize>
        ensures found { IfSome result (IsMeantAt self.now.rows locality (name_of handle.entry)) }
        ensures absent { IfNone result (row_for self.now.rows locality (name_of handle.entry) ≡ None) }
    {
        match handle {
            Some(handle) => self.named(handle),
            None => self.default_at(locality),
        }
    }

    /// Whether a locality has another default than the context at a place, or has this one and it stays beside its
    /// child.
    pub fn is_taken(&self, locality: u8, at: usize, stays: bool) -> bool
        requires { at < length self.now.rows }
        ensures { Of self.now.rows at (λ row. result ≡ is_taken_by self.now.rows stays row locality) }
    {
        let _rows = self.table.len();
        match self.table.default_at(locality) {
            None => false,
            Some(other) => stays || other != at,
        }
    }

    /// The locality that the context at a place is bound to.
    pub fn locality(&self, at: usize) -> u8
        requires { at < length self.now.rows }
        ensures { option_map (λ row. row.locality) (slice_get self.now.rows at) ≡ Some result }
    {
        self.table.row(at).locality
    }

    /// What is told of the context at a place.
    pub fn row(&self, at: usize) -> LiveRow
        requires { at < length self.now.rows }
        ensures { option_map live_of (slice_get self.now.rows at) ≡ Some result }
    {
        let row = self.table.row(at);
        let place = Place(row.place);
        LiveRow {
            handle: row.handle,
            locality: row.locality,
            depth: self.tree.depth(place),
            mode: self.tree.mode(place),
            may_derive: row.may_derive,
        }
    }

    /// The CDIs of the context at a place.
    pub fn cdis(&self, at: usize) -> &Cdis
        requires { at < length self.now.rows }
        ensures { Of self.now.rows at (AreCdis self.now.seed result.now) }
    {
        self.tree.shape();
        self.tree.cdis(Place(self.table.row(at).place))
    }

    /// Makes the root, at locality 0.
    pub fn root(&mut self, handle: [u8; 16], default: bool)
        requires { self.old.rows ≡ [] }
        ensures { self.new ≡ with_rows self.old (root_of handle default ∷ []) }
    {
        self.tree.shape();
        let place = self.tree.root(&first(&self.seed));
        self.table.issue(Row {
            handle,
            locality: 0,
            may_derive: true,
            place: place.0,
            default,
        });
    }

    /// Gives the context at a place a new handle, whose serial is greater than all others.
    pub fn rename(&mut self, at: usize, handle: [u8; 16])
        requires place { at < length self.old.rows }
        requires last { IsAfter self.old.rows (serial handle) }
        ensures { Of self.old.rows at (λ row. self.new
            ≡ with_rows self.old (taken_out row self.old.rows ++ renamed row handle ∷ [])) }
    {
        let row = spend(&mut self.table, at);
        self.table.issue(Row { handle, ..row });
    }

    /// The same, where it is then the default of its locality, or isn't.
    pub fn rotate(&mut self, at: usize, handle: [u8; 16], default: bool)
        requires place { at < length self.old.rows }
        requires last { IsAfter self.old.rows (serial handle) }
        requires marks { Of self.old.rows at (λ row. IsMarkable self.old.rows default false row.locality row) }
        ensures { Of self.old.rows at (λ row. self.new
            ≡ with_rows self.old (taken_out row self.old.rows ++ marked (renamed row handle) default ∷ [])) }
    {
        let row = spend(&mut self.table, at);
        self.table.issue(Row {
            handle,
            default,
            ..row
        });
    }

    /// Ends the context at a place. Those below it stay.
    pub fn take_out(&mut self, at: usize)
        requires { at < length self.old.rows }
        ensures { Of self.old.rows at (λ row. self.new ≡ with_rows self.old (taken_out row self.old.rows)) }
    {
        let row = spend(&mut self.table, at);
        self.tree.retire(Place(row.place));
    }

    /// Ends the context at a place, and all those below it.
    pub fn take_family(&mut self, at: usize)
        requires { at < length self.old.rows }
        ensures { Of self.old.rows at (λ row. self.new
            ≡ with_rows self.old (family_out row (taken_out row self.old.rows))) }
    {
        let row = spend(&mut self.table, at);
        let place = Place(row.place);
        end_below(&mut self.tree, &mut self.table, place);
        self.tree.retire(place);
    }

    /// Puts a child, born with a serial and an input, in the place of its parent. The meter counts one fold.
    pub fn derive<M: Meter>(
        &mut self,
        at: usize,
        birth: u64,
        input: &Input,
        child: &Child,
        meter: &mut M,
    )
        requires place { at < length self.old.rows }
        requires depth { Of self.old.rows at (λ row. depth row < depth_limit) }
        requires unborn { IsUnborn self.old.rows birth }
        requires last { IsAfter self.old.rows (serial child.now.handle) }
        requires marks { Of self.old.rows at (IsMarkable self.old.rows child.now.default false child.now.locality) }
        ensures contexts { Of self.old.rows at (λ row. self.new
            ≡ derived_from self.old row child.now birth input.now) }
        ensures counted { M.count meter.new ≡ counted (M.count meter.old) }
    {
        self.tree.shape();
        let row = spend(&mut self.table, at);
        let parent = Place(row.place);
        let cdis = next(self.tree.cdis(parent), input, meter);
        let place = self.tree.replace(parent, birth, input, &cdis);
        self.table.issue(child.row_at(place));
    }

    /// Adds a child, born with a serial and an input, and gives its parent a new handle, whose serial is greater than
    /// the child's. The meter counts one fold.
    pub fn derive_retaining<M: Meter>(
        &mut self,
        at: usize,
        birth: u64,
        input: &Input,
        child: &Child,
        parent: [u8; 16],
        meter: &mut M,
    )
        requires place { at < length self.old.rows }
        requires depth { Of self.old.rows at (λ row. depth row < depth_limit) }
        requires room { length self.old.rows < context_limit }
        requires unborn { IsUnborn self.old.rows birth }
        requires last { IsAfter self.old.rows (serial child.now.handle) }
        requires rising { serial child.now.handle < serial parent }
        requires marks { Of self.old.rows at (IsMarkable self.old.rows child.now.default true child.now.locality) }
        ensures contexts { Of self.old.rows at (λ row. self.new
            ≡ derived_beside self.old row child.now birth input.now parent) }
        ensures counted { M.count meter.new ≡ counted (M.count meter.old) }
    {
        self.tree.shape();
        let row = spend(&mut self.table, at);
        let above = Place(row.place);
        let cdis = next(self.tree.cdis(above), input, meter);
        let place = self.tree.add_child(above, birth, input, &cdis);
        self.table.issue(child.row_at(place));
        self.table.issue(Row {
            handle: parent,
            ..row
        });
    }
}
