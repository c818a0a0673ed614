//! The server's call over a house in memory.
ghost use Rattle.std.specs.Prelude.{◌≡◌, All, IfOk};
ghost use Rattle.dpe_io.specs.Memory.{IsUnused};

use crate::connections::{door_of, sent_of};
use crate::house::Asked;
use crate::told::{bytes, only};
use dpe_io::{MemDoor, MemEntropy, MemHouse, MemSink, MemSource};
use dpe_serve::serve_main;
use std::alloc::{AllocError, Global};
use std::sync::Wait;
use std::thread::Threads;
use table_rows::{RowFault, Told, Word, put};

// What stands between the parts of a row: the server's words, where `-` stands for an empty one, and then parts that say
// what differs from a house with a seed of zeros and no door, of which no call fails.
static BETWEEN: &str = ";";

// The kinds of calls that can fail.
static KINDS: [&str; 8] = [
    "openings", "seed", "door", "reads", "writes", "draws", "journal", "out",
];

// The calls that fail of a kind; those of doors, connections and entropies at each of them.
#[derive(Drop)]
struct Fails<'a> {
    kind: &'a str,
    calls: Vec<u32>,
}

// What a row says: the server's words, the seed, what the connections of each door send, the byte that each entropy's
// first word is made of, and the calls that fail.
#[derive(Drop)]
struct Plan<'a> {
    words: Vec<&'a str>,
    seed: &'a [u8],
    doors: Vec<Vec<&'a [u8]>>,
    random: &'a [u8],
    fails: Vec<Fails<'a>>,
}

impl<'a> Plan<'a> {
    fn new(alloc: Global) -> Plan<'a> {
        Plan {
            words: Vec::new(alloc),
            seed: &[0; 32],
            doors: Vec::new(alloc),
            random: &[],
            fails: Vec::new(alloc),
        }
    }

    // Takes a part behind the server's words in.
    fn add(&mut self, alloc: Global, part: &'a [Word<'a>]) -> Result<(), RowFault> {
        let Some((what, words)) = part.split_first() else {
            return Err(RowFault::Unreadable);
        };
        match what.text {
            "seed" => self.seed = only(words)?,
            "door" => self.doors.push(sent_of(alloc, words)?)?,
            "random" => self.random = only(words)?,
            "fail" => self.add_fails(alloc, words)?,
            _ => return Err(RowFault::Unreadable),
        }
        Ok(())
    }

    // These calls of a kind fail.
    fn add_fails(&mut self, alloc: Global, words: &'a [Word<'a>]) -> Result<(), RowFault> {
        let [kind, calls] = words else {
            return Err(RowFault::Unreadable);
        };
        if !KINDS.iter().any(|known| *known == kind.text) {
            return Err(RowFault::Unreadable);
        }
        let calls = calls.numbers(alloc)?;
        self.fails.push(Fails {
            kind: kind.text,
            calls,
        })?;
        Ok(())
    }

    // The calls that fail of a kind.
    fn fails(&self, kind: &str) -> &[u32] {
        for fails in &self.fails {
            if fails.kind == kind {
                return &fails.calls;
            }
        }
        &[]
    }

    // Takes the server's words in.
    fn set_words(&mut self, words: &'a [Word<'a>]) -> Result<(), AllocError> {
        for word in words {
            let word = if word.whole == "-" { "" } else { word.whole };
            self.words.push(word)?;
        }
        Ok(())
    }
}

// What the words of a row say.
fn plan_of<'a>(alloc: Global, row: &'a [Word<'a>]) -> Result<Plan<'a>, RowFault> {
    let mut plan = Plan::new(alloc);
    let mut parts = row.split(|word| word.whole == BETWEEN);
    if let Some(words) = parts.next() {
        plan.set_words(words)?;
    }
    for part in parts {
        plan.add(alloc, part)?;
    }
    Ok(plan)
}

fn doors_of(alloc: Global, plan: &Plan<'_>) -> Result<Vec<MemDoor>, AllocError>
    ensures { IfOk result (λ doors. All IsUnused doors.items) }
{
    let nexts = plan.fails("door");
    let reads = plan.fails("reads");
    let writes = plan.fails("writes");
    let mut doors = Vec::new(alloc);
    for sent in &plan.doors {
        doors.push(door_of(alloc, sent, nexts, reads, writes)?)?;
    }
    Ok(doors)
}

// An entropy for each door.
fn entropies_of(alloc: Global, plan: &Plan<'_>) -> Result<Vec<MemEntropy>, AllocError>
    ensures { IfOk result (λ entropies. All (λ entropy. entropy.faults ≡ 0) entropies.items) }
{
    let draws = plan.fails("draws");
    let mut entropies = Vec::new(alloc);
    for place in 0..plan.doors.len() {
        let byte = plan.random.get(place).copied().unwrap_or(0);
        entropies.push(MemEntropy::new(alloc, &[[byte; 32]], draws)?)?;
    }
    Ok(entropies)
}

// The house of a row. Its seed gives 20 bytes at most in a read, its journal takes 100 in a write.
fn house_of(alloc: Global, plan: &Plan<'_>) -> Result<MemHouse, RowFault> {
    let openings = plan.fails("openings");
    let doors = doors_of(alloc, plan)?;
    let entropies = entropies_of(alloc, plan)?;
    let seed = MemSource::new(alloc, plan.seed, 20, plan.fails("seed"))?;
    let journal = MemSink::new(alloc, 9_000, 100, plan.fails("journal"))?;
    Ok(MemHouse::new(alloc, seed, journal, doors, entropies, openings)?)
}

// Tells the lines of a summary, with a comma between two.
fn tell_summary(told: &mut String, printed: &[u8]) -> Told {
    let text = str::from_utf8(printed).unwrap_or("no text");
    if text.is_empty() {
        return put(told, "nothing");
    }
    for (number, line) in text.lines().enumerate() {
        if number > 0 {
            put(told, ", ")?;
        }
        put(told, line)?;
    }
    Ok(())
}

// Tells what each connection got and left that came back to a door.
fn tell_ended(told: &mut String, door: &MemDoor) -> Told {
    put(told, "; door")?;
    for conn in door.ended() {
        bytes(told, " got ", conn.sink().bytes())?;
        bytes(told, " left ", conn.source().left())?;
    }
    Ok(())
}

// Tells what is left of a house: the connections that each door got back, with what they got and left; how many entropies
// came back; and what the journal got.
fn tell_house(told: &mut String, house: &MemHouse) -> Told {
    for door in house.doors() {
        tell_ended(told, door)?;
    }
    write!(told, "; entropies {}", house.entropies().len())?;
    match house.journal_sink() {
        Some(sink) => bytes(told, "; journal ", sink.bytes()),
        None => put(told, "; no journal"),
    }
}

/// What the server answers: its status, the paths that it asked for, what it printed, and what is left of the house.
pub(crate) fn serve<R: Threads + Wait + Sync>(
    rt: &R,
    alloc: Global,
    row: &[Word<'_>],
    told: &mut String,
) -> Told {
    let plan = plan_of(alloc, row)?;
    let mut out = MemSink::new(alloc, 200, 20, plan.fails("out"))?;
    let mut asked = Asked {
        house: house_of(alloc, &plan)?,
        paths: String::new(alloc),
    };
    let status = serve_main(rt, alloc, &plan.words, &mut asked, &mut out);
    write!(told, "status {status}; asked{}; printed ", asked.paths)?;
    tell_summary(told, out.bytes())?;
    tell_house(told, &asked.house)
}
