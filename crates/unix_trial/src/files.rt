use dpe_io::{Dock, Entropy, Failed, House, Shelf, Sink, Source};
use dpe_unix::{FILE_AHEAD, FileDock, FileShelf, UnixHouse, Urandom};
use std::fs::{self, File, Files};
use std::net::Net;
use std::os::unix::fs::PermissionsExt;

/// Prints a fact, and whether it holds.
pub(crate) fn tell<P: Print>(rt: &P, fact: &str, holds: bool) {
    let answer = if holds { "yes" } else { "NO" };
    let _ = println!(rt; "{answer} {fact}");
}

/// Whether one read gives just these bytes.
pub(crate) fn gives<S: Source>(source: &mut S, bytes: &[u8]) -> bool {
    let mut room = [0; 64];
    match source.read(&mut room) {
        Ok(count) => &room[..count] == bytes,
        Err(Failed) => false,
    }
}

/// Whether a read fails.
pub(crate) fn fails<S: Source>(source: &mut S) -> bool {
    let mut room = [0; 64];
    source.read(&mut room).is_err()
}

/// A seed's file, one that isn't there, and a folder in its place.
pub(crate) fn try_a_seed<P, R>(rt: &P, files: R)
where
    P: Print,
    R: Files<File = File> + Net + Copy + Drop,
{
    let mut house = UnixHouse::new(files, None);
    tell(
        rt,
        "a seed that isn't there can't be opened",
        house.seed("seed").is_err(),
    );
    if let Ok(mut folder) = house.seed(".") {
        tell(
            rt,
            "a folder can be opened, and no byte of it read",
            fails(&mut folder),
        );
        tell(rt, "that is counted", folder.faults() == 1);
        house.take_seed(folder);
    }
    tell(
        rt,
        "a file is written",
        fs::write(&files, "seed", [7; 33].as_slice()).is_ok(),
    );
    if let Ok(mut seed) = house.seed("seed") {
        tell(rt, "a seed gives its bytes", gives(&mut seed, &[7; 33]));
        tell(rt, "and then its end", gives(&mut seed, &[]));
        house.take_seed(seed);
    }
}

/// A journal: it is new, its owner's alone, and isn't written over.
pub(crate) fn try_a_journal<P, R>(rt: &P, files: R)
where
    P: Print,
    R: Files<File = File> + Net + Copy + Drop,
{
    let mut house = UnixHouse::new(files, None);
    if let Ok(mut journal) = house.journal("journal") {
        tell(rt, "a journal takes bytes", journal.write(b"abc") == Ok(3));
        tell(rt, "and a flush", journal.flush() == Ok(()));
        house.take_journal(journal);
    }
    tell(
        rt,
        "none is made over it",
        house.journal("journal").is_err(),
    );
    if let Ok(mut written) = house.seed("journal") {
        tell(rt, "its bytes are in the file", gives(&mut written, b"abc"));
        house.take_seed(written);
    }
    if let Ok(found) = fs::metadata(&files, "journal") {
        tell(
            rt,
            "its owner alone may read it",
            found.permissions().mode() & 0o777 == 0o600,
        );
    }
}

/// Words of the system's random bytes, and of a file that ends within a word.
pub(crate) fn try_entropy<P, R>(rt: &P, files: R)
where
    P: Print,
    R: Files<File = File> + Net + Copy + Drop,
{
    let mut house = UnixHouse::new(files, None);
    let (mut first, mut second) = ([0; 32], [0; 32]);
    if let Ok(mut entropy) = house.entropy() {
        let drawn = entropy.draw(&mut first).is_ok() && entropy.draw(&mut second).is_ok();
        tell(rt, "random bytes are drawn", drawn && first != [0; 32]);
        tell(rt, "each time others", first != second);
        house.take_entropy(0, entropy);
    }
    tell(
        rt,
        "a file of 40 bytes is written",
        fs::write(&files, "short", [9; 40].as_slice()).is_ok(),
    );
    if let Ok(file) = File::open(&files, "short") {
        let mut short = Urandom::new(file);
        tell(
            rt,
            "it has one word",
            short.draw(&mut first).is_ok() && first == [9; 32],
        );
        tell(
            rt,
            "and no second one",
            short.draw(&mut first).is_err() && short.faults() == 1,
        );
    }
}

// Whether an entropy gives these bytes word by word, and then fails.
fn gives_words(entropy: &mut Urandom, bytes: &[u8]) -> bool {
    let mut word = [0; 32];
    for expected in bytes.chunks(32) {
        if entropy.draw(&mut word).is_err() || word.as_slice() != expected {
            return false;
        }
    }
    entropy.draw(&mut word).is_err() && entropy.faults() == 1
}

/// Words of two blocks and a half: each comes once and in order, over the blocks' ends too.
pub(crate) fn try_blocks<P, R>(rt: &P, files: R)
where
    P: Print,
    R: Files<File = File> + Copy + Drop,
{
    let mut bytes = [0; 10_240];
    for (place, byte) in bytes.iter_mut().enumerate() {
        *byte = byte_at(place);
    }
    tell(
        rt,
        "a file of 320 words is written",
        fs::write(&files, "words", bytes.as_slice()).is_ok(),
    );
    if let Ok(file) = File::open(&files, "words") {
        let mut entropy = Urandom::new(file);
        tell(
            rt,
            "each of its words comes once, in order, and then no other",
            gives_words(&mut entropy, &bytes),
        );
    }
}

/// A script.
pub(crate) fn try_a_script<P, R>(rt: &P, files: R)
where
    P: Print,
    R: Files<File = File> + Net + Copy + Drop,
{
    let mut dock = FileDock::new(files, None);
    tell(
        rt,
        "a script is written",
        fs::write(&files, "script", b"rotate".as_slice()).is_ok(),
    );
    if let Ok(mut script) = dock.script("script") {
        tell(rt, "it gives its bytes", gives(&mut script, b"rotate"));
        tell(rt, "and then its end", gives(&mut script, &[]));
        dock.take_script(script);
    }
}

/// A byte that tells its place among many.
pub(crate) fn byte_at(place: usize) -> u8 {
    (place % 251) as u8
}

/// Whether a source gives just the bytes at the places below this one, and then its end.
pub(crate) fn gives_places<S: Source>(file: &mut S, end: usize) -> bool {
    let mut room = [0; 1_000];
    let mut place = 0;
    for _ in 0..100 {
        let Ok(count) = file.read(&mut room) else {
            return false;
        };
        for byte in &room[..count] {
            if place >= end || *byte != byte_at(place) {
                return false;
            }
            place += 1;
        }
    }
    place == end
}

/// A file that is longer than what is read ahead, and a folder in its place.
pub(crate) fn try_a_shelf<P, R>(rt: &P, files: R)
where
    P: Print,
    R: Files<File = File> + Copy + Drop,
{
    let mut bytes = [0; FILE_AHEAD + 1_000];
    for (place, byte) in bytes.iter_mut().enumerate() {
        *byte = byte_at(place);
    }
    tell(
        rt,
        "a long file is written",
        fs::write(&files, "long", bytes.as_slice()).is_ok(),
    );
    let mut shelf = FileShelf::new(files);
    if let Ok(mut file) = shelf.file("long") {
        tell(
            rt,
            "it gives every byte, in order",
            gives_places(&mut file, bytes.len()),
        );
        shelf.take_file(0, file);
    }
    if let Ok(mut folder) = shelf.file(".") {
        tell(
            rt,
            "of a folder no byte is read",
            fails(&mut folder) && folder.faults() == 1,
        );
        shelf.take_file(1, folder);
    }
}
