//! Rows of doors, houses, shelves and docks in memory: what comes of opening and serving, and what was handed back.
ghost use Rattle.std.specs.Prelude.{◌≡◌, IfOk, All};
ghost use Rattle.dpe_io.specs.Memory.{IsFaultless, IsUnused};

use dpe_io::{
    Dock, Door, Duplex, Entropy, Failed, House, MemConn, MemDock, MemDoor, MemEntropy, MemHouse,
    MemShelf, MemSink, MemSource, Shelf, Sink, Source,
};
use std::alloc::{AllocError, Global};
use table_rows::{RowFault, Told, Word, field, number, put, separate, show};

/// Tells a row about objects that open others.
pub(crate) fn tell(alloc: Global, call: &str, words: &[Word<'_>], told: &mut String) -> Told {
    let [failing, calls, given @ ..] = words else {
        return Err(RowFault::Unreadable);
    };
    let failing = failing.numbers(alloc)?;
    let calls = calls.number()?;
    match call {
        "door" => door_row(alloc, &failing, calls, given, told),
        "house" => house_row(alloc, &failing, calls, told),
        "shelf" => shelf_row(alloc, &failing, calls, given, told),
        "dock" => dock_row(alloc, &failing, calls, given, told),
        _ => Err(RowFault::Unreadable),
    }
}

// A door at which these connections wait, served so many times.
fn door_row(
    alloc: Global,
    failing: &[u32],
    calls: u32,
    given: &[Word<'_>],
    told: &mut String,
) -> Told {
    let mut door = MemDoor::new(alloc, connections(alloc, given)?, failing)?;
    serve_all(&mut door, calls, told)?;
    put(told, "; ended ")?;
    written(door.ended(), told)?;
    number(told, ", faults ", door.faults())
}

// A house, visited so many times.
fn house_row(alloc: Global, failing: &[u32], visits: u32, told: &mut String) -> Told {
    let mut house = one_door(alloc, failing)?;
    visit_all(&mut house, visits, told)?;
    handed_back(&house, told)
}

// A shelf of these files, asked so many times.
fn shelf_row(
    alloc: Global,
    failing: &[u32],
    calls: u32,
    given: &[Word<'_>],
    told: &mut String,
) -> Told {
    let mut shelf = MemShelf::new(alloc, files(alloc, given)?, failing)?;
    read_files(&mut shelf, calls, told)
}

// A dock with this script and one link, asked so many times.
fn dock_row(
    alloc: Global,
    failing: &[u32],
    calls: u32,
    given: &[Word<'_>],
    told: &mut String,
) -> Told {
    let [script] = given else {
        return Err(RowFault::Unreadable);
    };
    let script = MemSource::new(alloc, script.bytes()?, 4, &[])?;
    let mut dock = MemDock::new(alloc, script, one_connection(alloc, &[], &[])?, failing)?;
    call_all(&mut dock, calls, told)?;
    put(told, "; links ")?;
    written(dock.links(), told)
}

// A connection that reads these bytes, and of which these writes fail.
fn connection(alloc: Global, bytes: &[u8], failing: &[u32]) -> Result<MemConn, AllocError>
    ensures { IfOk result IsFaultless }
{
    let source = MemSource::new(alloc, bytes, 4, &[])?;
    let sink = MemSink::new(alloc, 16, 4, failing)?;
    Ok(MemConn::new(source, sink))
}

// Such a connection alone.
fn one_connection(alloc: Global, bytes: &[u8], failing: &[u32]) -> Result<Vec<MemConn>, RowFault>
    ensures { IfOk result (λ waiting. All IsFaultless waiting.items) }
{
    let mut waiting = Vec::new(alloc);
    waiting.push(connection(alloc, bytes, failing)?)?;
    Ok(waiting)
}

// A connection for each of these bytes.
fn connections(alloc: Global, given: &[Word<'_>]) -> Result<Vec<MemConn>, RowFault>
    ensures { IfOk result (λ waiting. All IsFaultless waiting.items) }
{
    let mut waiting = Vec::new(alloc);
    for word in given {
        waiting.push(connection(alloc, word.bytes()?, &[])?)?;
    }
    Ok(waiting)
}

// A file of each of these bytes.
fn files(alloc: Global, given: &[Word<'_>]) -> Result<Vec<MemSource>, RowFault>
    ensures { IfOk result (λ files. All (λ file. file.faults ≡ 0) files.items) }
{
    let mut files = Vec::new(alloc);
    for word in given {
        files.push(MemSource::new(alloc, word.bytes()?, 4, &[])?)?;
    }
    Ok(files)
}

// What was written to each connection.
fn written(connections: &[MemConn], told: &mut String) -> Told {
    if connections.is_empty() {
        return put(told, "none");
    }
    for conn in connections {
        separate(told)?;
        show(told, conn.sink().bytes())?;
    }
    Ok(())
}

// Reads once and writes what was read, through the bound alone.
fn echo_once<C: Duplex>(conn: &mut C) -> Result<usize, Failed> {
    let mut room = [0; 8];
    let count = conn.read(&mut room)?;
    conn.write(&room[..count])
}

// Serves one connection, through the bound alone.
fn serve_once<D: Door>(door: &mut D) -> Result<&'static str, Failed> {
    match door.next()? {
        Some(mut conn) => {
            let echoed = echo_once(&mut conn);
            door.done(conn);
            match echoed {
                Ok(_) => Ok("served"),
                Err(Failed) => Ok("cut"),
            }
        }
        None => Ok("nobody"),
    }
}

fn serve_all<D: Door>(door: &mut D, calls: u32, told: &mut String) -> Told {
    for _ in 0..calls {
        separate(told)?;
        put(told, serve_once(door).unwrap_or("failed"))?;
    }
    Ok(())
}

// A door at which one connection waits whose first write fails.
fn waited_at(alloc: Global) -> Result<Vec<MemDoor>, RowFault>
    ensures { IfOk result (λ doors. All IsUnused doors.items) }
{
    let waiting = one_connection(alloc, &[3, 4], &[0])?;
    let mut doors = Vec::new(alloc);
    doors.push(MemDoor::new(alloc, waiting, &[])?)?;
    Ok(doors)
}

// One entropy, of one word.
fn one_word(alloc: Global) -> Result<Vec<MemEntropy>, AllocError>
    ensures { IfOk result (λ entropies. All (λ entropy. entropy.faults ≡ 0) entropies.items) }
{
    let mut entropies = Vec::new(alloc);
    entropies.push(MemEntropy::new(alloc, &[[1; 32]], &[])?)?;
    Ok(entropies)
}

// A house whose seed has three bytes, with one door and one entropy.
fn one_door(alloc: Global, failing: &[u32]) -> Result<MemHouse, RowFault> {
    let doors = waited_at(alloc)?;
    let entropies = one_word(alloc)?;
    let seed = MemSource::new(alloc, &[5; 3], 8, &[])?;
    let journal = MemSink::new(alloc, 8, 8, &[])?;
    Ok(MemHouse::new(alloc, seed, journal, doors, entropies, failing)?)
}

// Reads the seed, and hands it back.
fn visit_seed<H: House>(house: &mut H) -> Result<u8, Failed> {
    let mut room = [0; 8];
    let mut seed = house.seed("seed")?;
    let read = seed.read(&mut room);
    house.take_seed(seed);
    read?;
    Ok(room[0])
}

// Writes a byte to the journal, and hands it back.
fn visit_journal<H: House>(house: &mut H, byte: u8) -> Result<usize, Failed> {
    let mut journal = house.journal("journal")?;
    let written = journal.write(&[byte]);
    house.take_journal(journal);
    written
}

// Draws once, and hands the entropy back.
fn visit_entropy<H: House>(house: &mut H) -> Result<(), Failed> {
    let mut entropy = house.entropy()?;
    let drawn = entropy.draw(&mut [0; 32]);
    house.take_entropy(0, entropy);
    drawn
}

// Serves a connection, and hands the door back.
fn visit_door<H: House>(house: &mut H) -> Result<&'static str, Failed> {
    let mut door = house.door("door")?;
    let served = serve_once(&mut door);
    house.take_door(0, door);
    served
}

// Opens one of each kind, through the bound alone.
fn visit<H: House>(house: &mut H) -> Result<&'static str, Failed> {
    let byte = visit_seed(house)?;
    visit_journal(house, byte)?;
    visit_entropy(house)?;
    visit_door(house)
}

fn visit_all<H: House>(house: &mut H, visits: u32, told: &mut String) -> Told {
    for _ in 0..visits {
        separate(told)?;
        put(told, visit(house).unwrap_or("failed"))?;
    }
    Ok(())
}

// What a house was handed back.
fn handed_back(house: &MemHouse, told: &mut String) -> Told {
    match house.journal_sink() {
        Some(journal) => field(told, "; journal ", journal.bytes())?,
        None => put(told, "; journal none")?,
    }
    number(told, ", entropies ", house.entropies().len() as u64)?;
    put(told, ", doors ")?;
    tell_doors(house.doors(), told)
}

fn tell_doors(doors: &[MemDoor], told: &mut String) -> Told {
    if doors.is_empty() {
        return put(told, "none");
    }
    for door in doors {
        separate(told)?;
        number(told, "", door.ended().len() as u64)?;
        put(told, " ended")?;
    }
    Ok(())
}

// Opens a file, reads it once and hands it back, through the bound alone.
fn read_file<F: Shelf>(shelf: &mut F, room: &mut [u8; 4]) -> Result<usize, Failed> {
    let mut file = shelf.file("file")?;
    let read = file.read(room);
    shelf.take_file(0, file);
    read
}

fn read_files<F: Shelf>(shelf: &mut F, calls: u32, told: &mut String) -> Told {
    for _ in 0..calls {
        separate(told)?;
        let mut room = [0; 4];
        let read = read_file(shelf, &mut room);
        tell_read(read, &room, told)?;
    }
    Ok(())
}

// The front that was read into a room.
fn tell_read(read: Result<usize, Failed>, room: &[u8; 4], told: &mut String) -> Told {
    match read {
        Ok(count) if count <= 4 => show(told, &room[..count]),
        _ => put(told, "failed"),
    }
}

// Opens the script and a link, writes a byte to it and hands both back, through the bound alone.
fn call_once<D: Dock>(dock: &mut D, room: &mut [u8; 4]) -> Result<usize, Failed> {
    let read = read_script(dock, room)?;
    write_link(dock)?;
    Ok(read)
}

fn read_script<D: Dock>(dock: &mut D, room: &mut [u8; 4]) -> Result<usize, Failed> {
    let mut script = dock.script("script")?;
    let read = script.read(room);
    dock.take_script(script);
    read
}

fn write_link<D: Dock>(dock: &mut D) -> Result<usize, Failed> {
    let mut link = dock.link("link")?;
    let written = link.write(&[8]);
    dock.take_link(0, link);
    written
}

fn call_all<D: Dock>(dock: &mut D, calls: u32, told: &mut String) -> Told {
    for _ in 0..calls {
        separate(told)?;
        let mut room = [0; 4];
        let read = call_once(dock, &mut room);
        tell_read(read, &room, told)?;
    }
    Ok(())
}
