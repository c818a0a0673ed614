ghost use Rattle.std.specs.Prelude.{◌≡◌, ℕ, ◌+◌, ◌≤◌, Some, IfOk, All, [], ◌∷◌};
ghost use Rattle.dpe_io.specs.Causes.{one_more};
ghost use Rattle.dpe_io.specs.Memory.{CountsBack, IsFaultless, OpensAt};
ghost use Rattle.dpe_io.specs.Told.{all_unopened, IsOpening, Returns, Placed, KeepsPlaces};

use crate::doors::MemConn;
use crate::memory::{MemSource, call_fails};
use crate::outside::Dock;
use crate::stock::Stock;
use crate::traits::Failed;
use std::alloc::{AllocError, Global};
use std::marker::Model;

/// A dock in memory: a script and links, of which each opening hands out the script or the next link.
#[derive(Drop)]
pub struct MemDock {
    scripts: Stock<MemSource>,
    links: Stock<MemConn>,
    failing: Vec<u32>,
    calls: u64,
}

impl Model for MemDock {
    ghost use Rattle.dpe_io.specs.Memory.{InDock};

    ghost Value = { InDock };

    ghost view = { λ d. record { scripts = d.scripts; links = d.links; failing = d.failing.items; calls = d.calls } };
}

impl MemDock {
    /// A dock of this script and these links. The openings whose numbers `failing` lists fail, those of both kinds
    /// counted together from 0. It may answer want of memory.
    pub fn new(
        alloc: Global,
        script: MemSource,
        links: Vec<MemConn>,
        failing: &[u32],
    ) -> Result<MemDock, AllocError>
        requires script { script.faults ≡ 0 }
        requires links { All IsFaultless links.items }
        ensures { IfOk result (λ dock. dock ≡ record {
          scripts = all_unopened (script ∷ []);
          links = all_unopened links.items;
          failing = failing.now;
          calls = 0;
        }) }
    {
        Ok(MemDock {
            scripts: Stock::of_one(alloc, script)?,
            links: Stock::new(alloc, links)?,
            failing: Vec::from_slice(alloc, failing)?,
            calls: 0,
        })
    }

    /// The links that were handed back, in order.
    pub fn links(&self) -> &[MemConn]
        ensures { self.now.links.back ≡ Some result.now }
    {
        self.links.back()
    }
}

impl Dock for MemDock {
    type File = MemSource;

    type Link = MemConn;

    ghost scripts = { λ d. d.scripts };

    ghost links = { λ d. d.links };

    fn script(&mut self, _path: &str) -> Result<MemSource, Failed>
        ensures opens { IsOpening self.old.scripts self.new.scripts result }
        ensures faultless { IfOk result (λ script. script.faults ≡ 0) }
        ensures links { self.new.links ≡ self.old.links }
        ensures exact { OpensAt self.old.failing self.old.calls self.old.scripts self.new.scripts result }
        ensures calls { (self.new.calls ≡ one_more self.old.calls) × (self.new.failing ≡ self.old.failing) }
    {
        let fails = call_fails(&self.failing, &mut self.calls);
        self.scripts.open(fails)
    }

    fn link(&mut self, _path: &str) -> Result<MemConn, Failed>
        ensures opens { IsOpening self.old.links self.new.links result }
        ensures faultless { IfOk result IsFaultless }
        ensures scripts { self.new.scripts ≡ self.old.scripts }
        ensures exact { OpensAt self.old.failing self.old.calls self.old.links self.new.links result }
        ensures calls { (self.new.calls ≡ one_more self.old.calls) × (self.new.failing ≡ self.old.failing) }
    {
        let fails = call_fails(&self.failing, &mut self.calls);
        self.links.open(fails)
    }

    fn take_script(&mut self, script: MemSource)
        requires { 1 ≤ self.old.scripts.out }
        ensures back { Returns self.old.scripts script.faults script self.new.scripts }
        ensures places { KeepsPlaces self.old.scripts self.new.scripts }
        ensures counts { CountsBack script.faults self.old.scripts.faults self.new.scripts.faults }
        ensures links { self.new.links ≡ self.old.links }
        ensures calls { (self.new.calls ≡ self.old.calls) × (self.new.failing ≡ self.old.failing) }
    {
        self.scripts.take_back(script)
    }

    fn take_link(&mut self, place: u32, link: MemConn)
        requires { 1 ≤ self.old.links.out }
        ensures back { Returns self.old.links (link.source.faults + link.sink.faults) link self.new.links }
        ensures places { Placed self.old.links place self.new.links }
        ensures counts { CountsBack (link.source.faults + link.sink.faults)
            self.old.links.faults self.new.links.faults }
        ensures scripts { self.new.scripts ≡ self.old.scripts }
        ensures calls { (self.new.calls ≡ self.old.calls) × (self.new.failing ≡ self.old.failing) }
    {
        self.links.take_back_at(place, link)
    }
}
