ghost use Rattle.std.specs.Prelude.{◌≡◌, ℕ, ◌+◌, ◌≤◌, List, [], IfOk, IfSome, MatchResult, Option};
ghost use Rattle.dpe_io.specs.Causes.{HasCause};
ghost use Rattle.dpe_io.specs.Told.{Told, Draws, Lists, GivesNext, CountsOut, ComesBack};
ghost use Rattle.dpe_io.specs.Told.{Kind, IsOpening, Returns, Placed, KeepsPlaces};

use crate::traits::{Failed, Sink, Source};

/// A source and a sink of one object. What stands beside each is the other: its bytes and its count of faults.
pub trait Duplex: Source + Sink {
    // what it tells in both directions
    ghost told: { Self → Told };

    ghost told_is: { (x : Self) → told x ≡ record {
      left = Self.Source.left x;
      written = Self.Sink.bytes x;
      read_faults = Self.Source.faults x;
      write_faults = Self.Sink.faults x;
    } };

    ghost beside_source: { (x : Self) → Self.Source.beside x ≡ record { bytes = Self.Sink.bytes x; faults = Self.Sink.faults x } };

    ghost beside_sink: { (x : Self) → Self.Sink.beside x ≡ record { bytes = Self.Source.left x; faults = Self.Source.faults x } };
}

/// Where random bytes come from.
pub trait Entropy {
    // the words that it will give before zeros, where they are told
    ghost words: { Self → Option (List (List ℕ)) };
    // how often a call has failed
    ghost faults: { Self → ℕ };

    /// Fills the room with the next 32 bytes.
    ///
    /// Answers `Failed` only where the count of faults rose in the call. Then no word that is told was taken, and the room
    /// may hold anything.
    fn draw(&mut self, room: &mut [u8; 32]) -> Result<(), Failed>
        ensures words { MatchResult result (λ _. Draws (words self.old) (words self.new) room.new)
            (λ _. words self.new ≡ words self.old) }
        ensures cause { HasCause (faults self.old) (faults self.new) result };
}

/// Where connections come in.
pub trait Door {
    type Conn: Duplex;

    // the connections that wait and those that were handed back, where they are told
    ghost lists: { Self → Option (Lists Self.Conn) };
    // how often a call has failed
    ghost faults: { Self → ℕ };
    // how many connections are out
    ghost out: { Self → ℕ };

    /// The next connection, whose counts are 0. `None` comes where none waits for good, and only from a door that tells
    /// its connections: one that doesn't, as a real door, never answers it.
    ///
    /// Answers `Failed` only where the count of faults rose in the call. Then no connection went out.
    fn next(&mut self) -> Result<Option<Self::Conn>, Failed>
        ensures gives { GivesNext (lists self.old) (lists self.new) result }
        ensures faultless { IfOk result (λ given. IfSome given (λ conn.
            ((Self.Conn.told conn).read_faults ≡ 0) × ((Self.Conn.told conn).write_faults ≡ 0))) }
        ensures out { CountsOut (out self.old) (out self.new) result }
        ensures cause { HasCause (faults self.old) (faults self.new) result };

    /// Takes an ended connection back.
    fn done(&mut self, conn: Self::Conn)
        requires { 1 ≤ out self.old }
        ensures back { ComesBack (lists self.old) conn (lists self.new) }
        ensures out { out self.new + 1 ≡ out self.old }
        ensures faults { faults self.new ≡ faults self.old };
}

/// What a server is given: a seed, a journal, entropies and doors. Each object that was opened is handed back by the
/// call of its kind. A place counts the objects of its kind that were opened, from 0. An opening answers `Failed` only
/// where the count of failed openings of its kind rose.
pub trait House {
    type Seed: Source;

    type Door: Door;

    type Journal: Sink;

    type Entropy: Entropy;

    // what is told and counted of each kind of objects
    ghost seeds: { Self → Kind Self.Seed };

    ghost journals: { Self → Kind Self.Journal };

    ghost entropies: { Self → Kind Self.Entropy };

    ghost doors: { Self → Kind Self.Door };

    /// Opens the seed, whose count is 0.
    fn seed(&mut self, path: &str) -> Result<Self::Seed, Failed>
        ensures opens { IsOpening (seeds self.old) (seeds self.new) result }
        ensures faultless { IfOk result (λ seed. Self.Seed.faults seed ≡ 0) }
        ensures journals { journals self.new ≡ journals self.old }
        ensures entropies { entropies self.new ≡ entropies self.old }
        ensures doors { doors self.new ≡ doors self.old };

    /// Opens the journal, whose count is 0 and which has no bytes.
    fn journal(&mut self, path: &str) -> Result<Self::Journal, Failed>
        ensures opens { IsOpening (journals self.old) (journals self.new) result }
        ensures faultless { IfOk result (λ journal. Self.Journal.faults journal ≡ 0) }
        ensures empty { IfOk result (λ journal. IfSome (Self.Journal.bytes journal) (λ bytes. bytes ≡ [])) }
        ensures seeds { seeds self.new ≡ seeds self.old }
        ensures entropies { entropies self.new ≡ entropies self.old }
        ensures doors { doors self.new ≡ doors self.old };

    /// Opens an entropy, whose count is 0.
    fn entropy(&mut self) -> Result<Self::Entropy, Failed>
        ensures opens { IsOpening (entropies self.old) (entropies self.new) result }
        ensures faultless { IfOk result (λ entropy. Self.Entropy.faults entropy ≡ 0) }
        ensures seeds { seeds self.new ≡ seeds self.old }
        ensures journals { journals self.new ≡ journals self.old }
        ensures doors { doors self.new ≡ doors self.old };

    /// Opens a door, whose count is 0 and to which no connection was handed back.
    fn door(&mut self, path: &str) -> Result<Self::Door, Failed>
        ensures opens { IsOpening (doors self.old) (doors self.new) result }
        ensures faultless { IfOk result (λ door. Self.Door.faults door ≡ 0) }
        ensures none_ended { IfOk result (λ door. IfSome (Self.Door.lists door) (λ lists. lists.ended ≡ [])) }
        ensures seeds { seeds self.new ≡ seeds self.old }
        ensures journals { journals self.new ≡ journals self.old }
        ensures entropies { entropies self.new ≡ entropies self.old };

    /// Takes the seed back.
    fn take_seed(&mut self, seed: Self::Seed)
        requires { 1 ≤ (seeds self.old).out }
        ensures back { Returns (seeds self.old) (Self.Seed.faults seed) seed (seeds self.new) }
        ensures places { KeepsPlaces (seeds self.old) (seeds self.new) }
        ensures journals { journals self.new ≡ journals self.old }
        ensures entropies { entropies self.new ≡ entropies self.old }
        ensures doors { doors self.new ≡ doors self.old };

    /// Takes the entropy of this place back.
    fn take_entropy(&mut self, place: u32, entropy: Self::Entropy)
        requires { 1 ≤ (entropies self.old).out }
        ensures back { Returns (entropies self.old) (Self.Entropy.faults entropy) entropy (entropies self.new) }
        ensures places { Placed (entropies self.old) place (entropies self.new) }
        ensures seeds { seeds self.new ≡ seeds self.old }
        ensures journals { journals self.new ≡ journals self.old }
        ensures doors { doors self.new ≡ doors self.old };

    /// Takes the door of this place back.
    fn take_door(&mut self, place: u32, door: Self::Door)
        requires { 1 ≤ (doors self.old).out }
        ensures back { Returns (doors self.old) (Self.Door.faults door) door (doors self.new) }
        ensures places { Placed (doors self.old) place (doors self.new) }
        ensures seeds { seeds self.new ≡ seeds self.old }
        ensures journals { journals self.new ≡ journals self.old }
        ensures entropies { entropies self.new ≡ entropies self.old };

    /// Takes the journal back.
    fn take_journal(&mut self, journal: Self::Journal)
        requires { 1 ≤ (journals self.old).out }
        ensures back { Returns (journals self.old) (Self.Journal.faults journal) journal (journals self.new) }
        ensures places { KeepsPlaces (journals self.old) (journals self.new) }
        ensures seeds { seeds self.new ≡ seeds self.old }
        ensures entropies { entropies self.new ≡ entropies self.old }
        ensures doors { doors self.new ≡ doors self.old };
}

/// What an auditor is given: files. An opening answers `Failed` only where the count of failed openings rose.
pub trait Shelf {
    type File: Source;

    // what is told and counted of the files
    ghost files: { Self → Kind Self.File };

    /// Opens a file, whose count is 0.
    fn file(&mut self, path: &str) -> Result<Self::File, Failed>
        ensures opens { IsOpening (files self.old) (files self.new) result }
        ensures faultless { IfOk result (λ file. Self.File.faults file ≡ 0) };

    /// Takes the file of this place back.
    fn take_file(&mut self, place: u32, file: Self::File)
        requires { 1 ≤ (files self.old).out }
        ensures back { Returns (files self.old) (Self.File.faults file) file (files self.new) }
        ensures places { Placed (files self.old) place (files self.new) };
}

/// What a client is given: a script and links. An opening answers `Failed` only where the count of failed openings of
/// its kind rose.
pub trait Dock {
    type File: Source;

    type Link: Duplex;

    // what is told and counted of each kind of objects
    ghost scripts: { Self → Kind Self.File };

    ghost links: { Self → Kind Self.Link };

    /// Opens the script, whose count is 0.
    fn script(&mut self, path: &str) -> Result<Self::File, Failed>
        ensures opens { IsOpening (scripts self.old) (scripts self.new) result }
        ensures faultless { IfOk result (λ script. Self.File.faults script ≡ 0) }
        ensures links { links self.new ≡ links self.old };

    /// Opens a link, whose counts are 0.
    fn link(&mut self, path: &str) -> Result<Self::Link, Failed>
        ensures opens { IsOpening (links self.old) (links self.new) result }
        ensures faultless { IfOk result (λ link.
            ((Self.Link.told link).read_faults ≡ 0) × ((Self.Link.told link).write_faults ≡ 0)) }
        ensures scripts { scripts self.new ≡ scripts self.old };

    /// Takes the script back.
    fn take_script(&mut self, script: Self::File)
        requires { 1 ≤ (scripts self.old).out }
        ensures back { Returns (scripts self.old) (Self.File.faults script) script (scripts self.new) }
        ensures places { KeepsPlaces (scripts self.old) (scripts self.new) }
        ensures links { links self.new ≡ links self.old };

    /// Takes the link of this place back. Its count is that for reads and that for writes together.
    fn take_link(&mut self, place: u32, link: Self::Link)
        requires { 1 ≤ (links self.old).out }
        ensures back { Returns (links self.old) ((Self.Link.told link).read_faults + (Self.Link.told link).write_faults)
            link (links self.new) }
        ensures places { Placed (links self.old) place (links self.new) }
        ensures scripts { scripts self.new ≡ scripts self.old };
}
