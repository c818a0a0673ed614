//! The server: from its words to the status that it ends with.
ghost use Rattle.std.specs.Prelude.{◌≡◌, ◌≢◌, ◌↔◌, ◌+◌, ◌≤◌, ◌<◌, [], ◌∷◌, length, map, IfOk, IfErr, IfSome, vec_len, vec_capacity};
ghost use Rattle.std.specs.List.{AllByRecursion, list_any};
ghost use Rattle.dpe_desk.specs.Passes.{Belongs, IsFresh};
ghost use Rattle.dpe_model.specs.History.{Legal};
ghost use Rattle.dpe_model.specs.Laws.{FoldedInputs, HandleLaws};
ghost use Rattle.dpe_serve.specs.Crews.{IsNear};
ghost use Rattle.dpe_io.specs.Tells.{random};
ghost use Rattle.dpe_io.specs.Tells.{entrance};
ghost use Rattle.dpe_serve.specs.Headline.{house_by, service_by, tells_by, Headline, Stands};
ghost use Rattle.dpe_serve.specs.Outcomes.{status_at, IsRead, IsStock, IsOpen, seed_of, ReturnsSpare, ReturnsPosts, Prints, RunsPosts};
ghost use Rattle.dpe_serve.specs.Outcomes.{RunsDoors, RunsNone, Finishes, FinishesEmpty, EndsFrom, Ends};
ghost use Rattle.dpe_serve.specs.Setting.{SpellNone, texts};
ghost use Rattle.dpe_serve.specs.Smallest.{HeadlineIsMet};
ghost use Rattle.dpe_serve.specs.StatusCauses.{IsStatus, StatusCause, AllBack, Completes};
ghost use Rattle.dpe_serve.specs.Words.{setting_of};

use crate::closing::write_back;
use crate::crew::{Post, serve_all};
use crate::opening::{hand_back, open_posts};
use crate::seed::{SeedRead, read_seed};
use crate::setting::{Setting, read_words};
use crate::summary::{Totals, add_up, print_summary};
use dpe_connections::{Room, Worker};
use dpe_desk::{Desk, Pass};
use dpe_io::{Door, Entropy, Failed, House, Sink};
use dpe_journal::Book;
use dpe_model::{folded_inputs, handle_laws};
use std::alloc::{AllocError, Global};
use std::sync::Wait;
use std::thread::Threads;

/// The exit status for words that aren't of the form.
const WRONG_WORDS: u8 = 2;

// How the server ends once its words were read.
#[derive(Clone, Copy)]
enum Outcome {
    /// All doors were served, the journal written, and the summary printed.
    Done,
    NoMemory,
    /// The seed couldn't be opened or read.
    UnreadSeed,
    /// A door or an entropy couldn't be opened, or a door failed later. The journal was written.
    NoService,
    /// The journal couldn't be opened or written.
    NoJournal,
    /// All but the summary was written.
    NoOutput,
    /// The seed hasn't 32 bytes.
    WrongSeed,
}

impl Outcome {
    fn status(self) -> u8
        ensures { result ≡ status_at self }
    {
        match self {
            Outcome::Done => 0,
            Outcome::NoMemory => 3,
            Outcome::UnreadSeed => 4,
            Outcome::NoService => 5,
            Outcome::NoJournal => 6,
            Outcome::NoOutput => 7,
            Outcome::WrongSeed => 8,
        }
    }
}

// All that the server needs memory for.
struct Stock<D: Door, E: Entropy> {
    desk: Desk<Book>,
    pass: Pass<Book>,
    rooms: Vec<Room>,
    posts: Vec<Post<D, E>>,
    workers: Vec<Worker<D, E>>,
}

// What is left of the workers.
#[derive(Drop)]
struct Served {
    book: Book,
    totals: Totals,
    door_failed: bool,
}

// A desk over the book with the empty history, and its pass.
fn make_desk(
    alloc: Global,
    seed: &[u8; 32],
    first: u64,
    entries: u32,
) -> Result<(Desk<Book>, Pass<Book>), AllocError>
    requires some { 1 ≤ entries }
    requires most { entries ≤ 65536 }
    ensures kind { IfOk result (λ r. r.0.terms.kind ≡ record { seed = seed.now; first = first; capacity = entries; history = [] }) }
    ensures opening { IfOk result (λ r. r.0.terms.opening ≡ []) }
    ensures capacity { IfOk result (λ r. r.0.terms.capacity ≡ entries) }
    ensures pass { IfOk result (λ r. Belongs r.0 r.1 × IsFresh r.1.view) }
    ensures name { IfOk result (λ r. (r.1.view.names ≡ 0 ∷ []) × (r.1.view.stake ≡ 65536)) }
{
    let book = Book::make(alloc, seed, first, entries)?;
    match Desk::make(alloc, book, u64::from(entries)) {
        Ok(made) => Ok(made),
        Err(_) => Err(AllocError),
    }
}

// So many rooms.
fn make_rooms(alloc: Global, count: usize) -> Result<Vec<Room>, AllocError>
    ensures { IfOk result (λ rooms. vec_len rooms ≡ count) }
{
    let mut rooms = Vec::with_capacity(alloc, count)?;
    for _ in 0..count {
        rooms.push_reserved(Room::make(alloc)?);
    }
    Ok(rooms)
}

// Empty lists of posts and of workers, with room for so many of each.
fn make_lists<D: Door, E: Entropy>(
    alloc: Global,
    count: usize,
) -> Result<(Vec<Post<D, E>>, Vec<Worker<D, E>>), AllocError>
    ensures posts { IfOk result (λ r. (r.0.items ≡ []) × (count ≤ vec_capacity r.0)) }
    ensures workers { IfOk result (λ r. (r.1.items ≡ []) × (count ≤ vec_capacity r.1)) }
{
    let posts = Vec::with_capacity(alloc, count)?;
    match Vec::with_capacity(alloc, count) {
        Ok(workers) => Ok((posts, workers)),
        Err(error) => {
            posts.destroy_empty();
            Err(error)
        }
    }
}

// Takes all memory.
fn take_stock<D: Door, E: Entropy>(
    alloc: Global,
    seed: &[u8; 32],
    setting: Setting<'_>,
) -> Result<Stock<D, E>, AllocError>
    requires read { IsRead setting }
    ensures stock { IfOk result (IsStock setting.entry) }
    ensures seed { IfOk result (λ stock. seed_of stock ≡ seed.now) }
{
    let doors = setting.doors.len();
    let rooms = make_rooms(alloc, doors)?;
    let (desk, pass) = make_desk(alloc, seed, setting.first, setting.entries)?;
    let (posts, workers) = make_lists(alloc, doors)?;
    Ok(Stock {
        desk,
        pass,
        rooms,
        posts,
        workers,
    })
}

// Gives the memory back.
fn put_away<D: Door, E: Entropy>(stock: Stock<D, E>)
    requires empty { (stock.posts.items ≡ []) × (stock.workers.items ≡ []) }
{
    let Stock {
        desk: _,
        pass: _,
        rooms: _,
        posts,
        workers,
    } = stock;
    posts.destroy_empty();
    workers.destroy_empty();
}

// Whether a door failed.
fn any_failed<D: Door, E: Entropy>(posts: &[Post<D, E>]) -> bool
    ensures { result ≡ list_any (λ p. p.tally.door_failed) posts.now }
{
    for post in posts {
        if post.tally.door_failed {
            return true;
        }
    }
    false
}

// Serves all posts, and hands their doors and entropies back.
fn serve_posts<R: Threads + Wait + Sync, H: House>(
    rt: &R,
    each: u32,
    stock: Stock<H::Door, H::Entropy>,
    house: &mut H,
) -> Served
where
    H::Door: Send,
    H::Entropy: Send,
    <H::Door as Door>::Conn: Send,
    requires open { IsOpen stock (H.doors house.old).out (H.entropies house.old).out }
    requires near { AllByRecursion IsNear stock.posts.items }
    ensures kind { record result.book { history = [] } ≡ stock.desk.terms.kind }
    ensures legal { Legal result.book.seed result.book.first result.book.history }
    ensures most { length result.book.history ≤ stock.desk.terms.capacity }
    ensures folded { FoldedInputs result.book.seed result.book.first result.book.history }
    ensures handles { HandleLaws result.book.seed result.book.first result.book.history }
    ensures runs { RunsPosts (tells_by H.Seed.Source H.Journal.Sink H.Door.Conn.told H.Door.Door H.Entropy.Entropy)
        stock.desk.terms.capacity each stock.posts.items (H.doors house.old) (H.doors house.new) (H.entropies house.old)
        (H.entropies house.new) result }
    ensures seeds { H.seeds house.new ≡ H.seeds house.old }
    ensures journals { H.journals house.new ≡ H.journals house.old }
{
    let Stock {
        desk,
        pass,
        rooms: _,
        mut posts,
        workers,
    } = stock;
    let book = serve_all(rt, desk, pass, &mut posts, each, workers);
    let totals = add_up(&book, posts.as_slice());
    let door_failed = any_failed(posts.as_slice());
    hand_back(house, &mut posts);
    posts.destroy_empty();
    Served {
        book,
        totals,
        door_failed,
    }
}

// Hands the entropy back that has no door.
fn take_spare<H: House>(house: &mut H, place: u32, entropy: Option<H::Entropy>)
    requires { IfSome entropy (λ _. 1 ≤ (H.entropies house.old).out) }
    ensures spare { ReturnsSpare H.Entropy.faults place (H.entropies house.old) entropy (H.entropies house.new) }
    ensures seeds { H.seeds house.new ≡ H.seeds house.old }
    ensures doors { H.doors house.new ≡ H.doors house.old }
    ensures journals { H.journals house.new ≡ H.journals house.old }
{
    match entropy {
        Some(entropy) => house.take_entropy(place, entropy),
        None => {}
    }
}

// Closes a desk at which nobody made a call, and gives the book of the empty history.
fn close_unused(desk: Desk<Book>, pass: Pass<Book>) -> Book
    requires opening { desk.terms.opening ≡ [] }
    requires belongs { Belongs desk pass × IsFresh pass.view }
    requires whole { (pass.view.names ≡ 0 ∷ []) × (pass.view.stake ≡ 65536) }
    ensures kind { record result { history = [] } ≡ desk.terms.kind }
    ensures empty { result.history ≡ [] }
{
    desk.close(pass)
}

// Hands back what was opened, and gives the book of the empty history.
fn give_up<H: House>(
    stock: Stock<H::Door, H::Entropy>,
    spare: Option<H::Entropy>,
    house: &mut H,
) -> Book
    requires open { IsOpen stock (H.doors house.old).out (H.entropies house.old).out }
    requires spare { IfSome spare (λ _. vec_len stock.posts + 1 ≤ (H.entropies house.old).out) }
    ensures kind { record result { history = [] } ≡ stock.desk.terms.kind }
    ensures empty { result.history ≡ [] }
    ensures returns { ReturnsPosts H.Door.faults H.Entropy.faults stock.posts.items spare
        (H.doors house.old) (H.doors house.new) (H.entropies house.old) (H.entropies house.new) }
    ensures seeds { H.seeds house.new ≡ H.seeds house.old }
    ensures journals { H.journals house.new ≡ H.journals house.old }
{
    let Stock {
        desk,
        pass,
        rooms: _,
        mut posts,
        workers,
    } = stock;
    workers.destroy_empty();
    let place = posts.len() as u32;
    hand_back(house, &mut posts);
    posts.destroy_empty();
    take_spare(house, place, spare);
    close_unused(desk, pass)
}

// Opens all doors, serves them and hands them back. Where an opening fails, the book is that of the empty history.
fn serve_doors<R: Threads + Wait + Sync, H: House>(
    rt: &R,
    setting: Setting<'_>,
    stock: Stock<H::Door, H::Entropy>,
    house: &mut H,
) -> Result<Served, Book>
where
    H::Door: Send,
    H::Entropy: Send,
    <H::Door as Door>::Conn: Send,
    requires read { IsRead setting }
    requires stock { IsStock setting stock }
    ensures served { IfOk result (RunsDoors (tells_by H.Seed.Source H.Journal.Sink H.Door.Conn.told H.Door.Door
        H.Entropy.Entropy) (setting_of setting.entry) (seed_of stock) (H.doors house.old) (H.doors house.new)
        (H.entropies house.old) (H.entropies house.new)) }
    ensures unserved { IfErr result (RunsNone (tells_by H.Seed.Source H.Journal.Sink H.Door.Conn.told H.Door.Door
        H.Entropy.Entropy) (setting_of setting.entry) (H.doors house.old) (H.doors house.new) (H.entropies house.old)
        (H.entropies house.new)) }
    ensures seeds { H.seeds house.new ≡ H.seeds house.old }
    ensures journals { H.journals house.new ≡ H.journals house.old }
{
    let mut stock = stock;
    match open_posts(house, setting.doors, &mut stock.rooms, &mut stock.posts) {
        Ok(()) => Ok(serve_posts(rt, setting.each, stock, house)),
        Err(spare) => Err(give_up(stock, spare, house)),
    }
}

// Writes the journal, and then the summary.
fn finish<H: House, O: Sink>(
    house: &mut H,
    journal: H::Journal,
    served: &Served,
    out: &mut O,
) -> Outcome
    requires { 1 ≤ (H.journals house.old).out }
    ensures ends { Finishes H.Journal.bytes H.Journal.faults
        served.now (H.journals house.old) journal (H.journals house.new) (O.bytes out.old) (O.bytes out.new) result }
    ensures prints { Prints O.faults result out.old out.new }
    ensures seeds { H.seeds house.new ≡ H.seeds house.old }
    ensures doors { H.doors house.new ≡ H.doors house.old }
    ensures entropies { H.entropies house.new ≡ H.entropies house.old }
{
    let Ok(()) = write_back(house, &served.book, journal) else {
        return Outcome::NoJournal;
    };
    if served.door_failed {
        return Outcome::NoService;
    }
    match print_summary(&served.totals, out) {
        Ok(()) => Outcome::Done,
        Err(Failed) => Outcome::NoOutput,
    }
}

// Writes the journal of the empty history.
fn finish_empty<H: House>(house: &mut H, journal: H::Journal, book: &Book) -> Outcome
    requires { 1 ≤ (H.journals house.old).out }
    ensures ends { FinishesEmpty H.Journal.bytes H.Journal.faults
        book.now (H.journals house.old) journal (H.journals house.new) result }
    ensures seeds { H.seeds house.new ≡ H.seeds house.old }
    ensures doors { H.doors house.new ≡ H.doors house.old }
    ensures entropies { H.entropies house.new ≡ H.entropies house.old }
{
    match write_back(house, book, journal) {
        Ok(()) => Outcome::NoService,
        Err(Failed) => Outcome::NoJournal,
    }
}

// Serves all doors, and writes the journal and the summary.
fn serve<R: Threads + Wait + Sync, H: House, O: Sink>(
    rt: &R,
    alloc: Global,
    setting: Setting<'_>,
    seed: &[u8; 32],
    house: &mut H,
    out: &mut O,
) -> Outcome
where
    H::Door: Send,
    H::Entropy: Send,
    <H::Door as Door>::Conn: Send,
    requires read { IsRead setting }
    ensures ends { EndsFrom (tells_by H.Seed.Source H.Journal.Sink H.Door.Conn.told H.Door.Door H.Entropy.Entropy)
        (setting_of setting.entry) seed.now (O.bytes out.old) (O.bytes out.new) (service_by H.House house.old)
        (service_by H.House house.new) result }
    ensures prints { Prints O.faults result out.old out.new }
    ensures seeds { H.seeds house.new ≡ H.seeds house.old }
{
    let Ok(stock) = take_stock(alloc, seed, setting) else {
        return Outcome::NoMemory;
    };
    let journal = match house.journal(setting.journal) {
        Ok(journal) => journal,
        Err(Failed) => {
            put_away(stock);
            return Outcome::NoJournal;
        }
    };
    match serve_doors(rt, setting, stock, house) {
        Ok(served) => finish(house, journal, &served, out),
        Err(book) => finish_empty(house, journal, &book),
    }
}

// Reads the seed, and serves.
fn run<R: Threads + Wait + Sync, H: House, O: Sink>(
    rt: &R,
    alloc: Global,
    setting: Setting<'_>,
    house: &mut H,
    out: &mut O,
) -> Outcome
where
    H::Door: Send,
    H::Entropy: Send,
    <H::Door as Door>::Conn: Send,
    requires read { IsRead setting }
    ensures ends { Ends (tells_by H.Seed.Source H.Journal.Sink H.Door.Conn.told H.Door.Door H.Entropy.Entropy)
        (setting_of setting.entry) (O.bytes out.old) (O.bytes out.new) (house_by H.House house.old)
        (house_by H.House house.new) result }
    ensures prints { Prints O.faults result out.old out.new }
{
    match read_seed(house, setting.seed) {
        SeedRead::Holds(seed) => serve(rt, alloc, setting, &seed, house, out),
        SeedRead::WrongSize => Outcome::WrongSeed,
        SeedRead::Unread => Outcome::UnreadSeed,
    }
}

/// Serves the DPE as the words ask for: `SEED JOURNAL EACH ENTRIES FIRST DOOR [DOOR ..]`. All that the workers of all doors
/// are told is one history, whose journal is written at the end; then a summary of five lines is printed. What is answered
/// is the program's exit status.
pub fn serve_main<R: Threads + Wait + Sync, H: House, O: Sink>(
    rt: &R,
    alloc: Global,
    words: &[&str],
    house: &mut H,
    out: &mut O,
) -> u8
where
    H::Door: Send,
    H::Entropy: Send,
    <H::Door as Door>::Conn: Send,
    ensures statuses { IsStatus result }

    // 2: exactly where the words aren't of the form. Nothing is opened then.
    ensures words { (result ≡ 2) ↔ SpellNone (texts words.now) }
    ensures untouched { result ≡ 2 → house.new ≡ house.old }

    // 0, the headline: the journal is one legal history, of the workers' commands alone. Each connection was served by its
    // own entries of it; signatures, boxes and unsealed texts are computed from folded inputs; no spent handle is accepted
    // again; the random bytes are the words drawn; and the summary counts it.
    ensures headline { result ≡ 0 → Headline (tells_by H.Seed.Source H.Journal.Sink H.Door.Conn.told H.Door.Door
        H.Entropy.Entropy) (texts words.now) (O.bytes out.old) (O.bytes out.new) (house_by H.House house.old)
        (house_by H.House house.new) }

    // What of it stands at each other status.
    ensures stands { Stands (tells_by H.Seed.Source H.Journal.Sink H.Door.Conn.told H.Door.Door H.Entropy.Entropy)
        (texts words.now) result (O.bytes out.old) (O.bytes out.new) (house_by H.House house.old)
        (house_by H.House house.new) }

    // 4 to 7 come only where a count rose that may bring them; 0 and 7 only where no opening, seed, door or journal failed.
    ensures cause { StatusCause result (house_by H.House house.old) (house_by H.House house.new) (O.faults out.old)
        (O.faults out.new) }
    ensures silent { result ≢ 0 → result ≢ 7 → out.new ≡ out.old }
    ensures handed_back { AllBack (house_by H.House house.old) (house_by H.House house.new) }

    // Right words and no count that rose: the status is 0 or 3, or it is 8 where the seed hasn't 32 bytes.
    ensures complete { Completes H.Seed.left (texts words.now) result (house_by H.House house.old)
        (house_by H.House house.new) (O.faults out.old) (O.faults out.new) }
{
    match read_words(words) {
        Some(setting) => run(rt, alloc, setting, house, out).status(),
        None => WRONG_WORDS,
    }
}

/// Does nothing. The headline stands of a small run, so it asks nothing that can't be.
pub fn headline_is_met()
    ensures { HeadlineIsMet }
{
    folded_inputs();
    handle_laws();
}
