//! Opens the links, runs the lines on them, and hands them back.
ghost use Rattle.std.specs.Prelude.{◌≡◌, ◌+◌, ◌≤◌, ◌<◌, All, OnErr, OnOk, [], length};
ghost use Rattle.std.specs.Vec.{vec_capacity};
ghost use Rattle.dpe_script.specs.Client.{AllOpen, AllReturn, HasLinesCause, LinesEnd, OpensFront};
ghost use Rattle.dpe_script.specs.CodeNames.{names_of};
ghost use Rattle.dpe_script.specs.CodeScript.{IsLineInRange, IsLineKnown, lines_are};
ghost use Rattle.dpe_script.specs.CodeValues.{IsReady, values_of};
ghost use Rattle.dpe_script.specs.Meaning.{no_values};

use crate::run::{Cause, LineFault, run};
use crate::script::Line;
use crate::values::Values;
use dpe_io::{Dock, Failed, Sink};

// Opens links in order. After a failed opening those before it stand in the list.
fn open_links<D: Dock>(dock: &mut D, paths: &[&str], links: &mut Vec<D::Link>) -> Result<(), Failed>
    requires none { links.old.items ≡ [] }
    requires room { length paths.now ≤ vec_capacity links.old }
    ensures opened { OnOk result (AllOpen (D.links dock.old) links.new.items (D.links dock.new)) }
    ensures all { OnOk result (length links.new.items ≡ length paths.now) }
    ensures fewer { OnErr result (OpensFront (length paths.now) (D.links dock.old) links.new.items (D.links dock.new)) }
    ensures faultless { All (λ link. ((D.Link.told link).read_faults ≡ 0) × ((D.Link.told link).write_faults ≡ 0)) links.new.items }
    ensures scripts { D.scripts dock.new ≡ D.scripts dock.old }
{
    for path in paths {
        match dock.link(path) {
            Ok(link) => links.push_reserved(link),
            Err(Failed) => return Err(Failed),
        }
    }
    Ok(())
}

// Hands links back in order.
fn take_links<D: Dock>(dock: &mut D, links: Vec<D::Link>)
    requires out { length links.items ≤ (D.links dock.old).out }
    requires few { length links.items ≤ 8 }
    ensures returned { AllReturn D.Link.told 0 (D.links dock.old) links.items (D.links dock.new) }
    ensures scripts { D.scripts dock.new ≡ D.scripts dock.old }
{
    let mut links = links.into_iter();
    let mut place = 0;
    while let Some(link) = links.next() {
        dock.take_link(place, link);
        place += 1;
    }
    links.destroy_empty();
}

/// Opens the links in order, runs the lines on them, and hands them back in order. The list has room for the links.
pub fn run_on_links<D: Dock, O: Sink>(
    dock: &mut D,
    paths: &[&str],
    mut links: Vec<D::Link>,
    lines: &[Line<'_>],
    values: &mut Values<'_>,
    out: &mut O,
) -> Result<(), LineFault>
    requires none { links.items ≡ [] }
    requires room { length paths.now ≤ vec_capacity links }
    requires few { length paths.now ≤ 8 }
    requires ready { IsReady values.old }
    requires known { All (IsLineKnown (names_of values.old.names)) lines.now }
    requires range { All IsLineInRange lines.now }
    requires link { All (λ l. l.link < length paths.now) lines.now }
    requires fresh { values_of values.old ≡ no_values }
    ensures ends { LinesEnd D.Link.told (length paths.now) (lines_are lines.now) (D.links dock.old) (D.links dock.new)
        (O.bytes out.old) (O.bytes out.new) result }
    ensures cause { HasLinesCause result (D.links dock.old) (D.links dock.new) (O.faults out.old) (O.faults out.new) }
    ensures back { (D.links dock.new).out ≡ (D.links dock.old).out }
    ensures scripts { D.scripts dock.new ≡ D.scripts dock.old }
{
    match open_links(dock, paths, &mut links) {
        Ok(()) => {
            let ended = run(lines, &mut links, values, out);
            take_links(dock, links);
            ended
        }
        Err(Failed) => {
            take_links(dock, links);
            Err(LineFault {
                line: 0,
                cause: Cause::Link,
            })
        }
    }
}
