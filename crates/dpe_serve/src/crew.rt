//! All workers at once, over one desk.
ghost use Rattle.std.specs.Prelude.{◌≡◌, ◌+◌, ◌≤◌, ◌<◌, [], ◌∷◌, length, map, All, vec_len, vec_capacity};
ghost use Rattle.std.specs.List.{AllZip, AllByRecursion};
ghost use Rattle.std.specs.Thread.{IsSync};
ghost use Rattle.dpe_desk.specs.Passes.{Belongs, IsFresh, own_name};
ghost use Rattle.dpe_desk.specs.Plays.{given};
ghost use Rattle.dpe_desk.specs.Views.{held};
ghost use Rattle.dpe_model.specs.History.{Legal};
ghost use Rattle.dpe_model.specs.Laws.{FoldedInputs, HandleLaws};
ghost use Rattle.dpe_io.specs.Tells.{random};
ghost use Rattle.dpe_serve.specs.Crews.{IsReady, IsHired, Works, IsNear, IsDone, Joins, Gathers, post_of};
ghost use Rattle.dpe_io.specs.Tells.{entrance};
ghost use Rattle.dpe_serve.specs.Gates.{Serve};

use dpe_connections::{Room, Tally, Worker, serve_worker};
use dpe_desk::{Desk, Pass};
use dpe_io::{Door, Entropy};
use dpe_journal::Book;
use dpe_model::{folded_inputs, handle_laws};
use std::sync::Wait;
use std::thread;
use std::thread::Threads;

/// What a worker is hired for, and what it leaves: a door, an entropy, their locality, buffers, and what was done there.
pub struct Post<D: Door, E: Entropy> {
    pub door: D,
    pub entropy: E,
    pub locality: u8,
    pub room: Room,
    pub tally: Tally,
}

// Makes a worker for a post, with a pass of its own.
fn hire<D: Door, E: Entropy>(
    desk: &Desk<Book>,
    pass: &mut Pass<Book>,
    post: Post<D, E>,
    each: u32,
) -> Worker<D, E>
    requires belongs { Belongs desk.now pass.old }
    requires stake { 1 + held pass.old.view ≤ pass.old.view.stake }
    requires near { post.locality ≤ 7 }
    ensures pass { (pass.new.desk ≡ pass.old.desk) × (pass.new.view ≡ given 1 pass.old.view) }
    ensures hired { IsHired desk.now each post result }
{
    let Post {
        door,
        entropy,
        locality,
        room,
        tally: _,
    } = post;
    let own = desk.split(pass, 1);
    Worker::new(door, entropy, own, locality, each, room)
}

/// Takes the first of a list.
pub(crate) fn take_first<T>(list: &mut Vec<T>) -> T
    requires { 0 < vec_len list.old }
    ensures first { list.old.items ≡ result ∷ list.new.items }
    ensures len { vec_len list.new + 1 ≡ vec_len list.old }
    ensures capacity { vec_capacity list.new ≡ vec_capacity list.old }
{
    list.remove(0)
}

// Makes a worker for each post, in order.
fn hire_all<D: Door, E: Entropy>(
    desk: &Desk<Book>,
    pass: &mut Pass<Book>,
    posts: &mut Vec<Post<D, E>>,
    each: u32,
    workers: &mut Vec<Worker<D, E>>,
)
    requires belongs { Belongs desk.now pass.old }
    requires stake { vec_len posts.old + held pass.old.view ≤ pass.old.view.stake }
    requires near { AllByRecursion IsNear posts.old.items }
    requires none { workers.old.items ≡ [] }
    requires room { vec_len posts.old ≤ vec_capacity workers.old }
    ensures posts { (posts.new.items ≡ []) × (vec_capacity posts.new ≡ vec_capacity posts.old) }
    ensures workers { AllZip (IsHired desk.now each) posts.old.items workers.new.items }
    ensures pass { (pass.new.desk ≡ pass.old.desk) × (pass.new.view ≡ given (vec_len posts.old) pass.old.view) }
{
    while !posts.is_empty() {
        let post = take_first(posts);
        workers.push_reserved(hire(desk, pass, post, each));
    }
}

// Serves the door of a worker.
fn work<R: Wait, D: Door, E: Entropy>(rt: &R, desk: &Desk<Book>, worker: &mut Worker<D, E>)
    requires { IsReady desk.now worker.old }
    ensures { Works D.Conn.told (entrance D.Door) (random E.Entropy) desk.now worker.old worker.new }
{
    serve_worker(rt, desk, worker);
}

// All workers work at once, each in a thread of its own where one can be made.
fn work_all<R: Threads + Wait + Sync, D: Door + Send, E: Entropy + Send>(
    rt: &R,
    desk: &Desk<Book>,
    workers: &mut [Worker<D, E>],
)
where
    D::Conn: Send,
    requires ready { All (IsReady desk.now) workers.old }
    ensures { AllZip (Works D.Conn.told (entrance D.Door) (random E.Entropy) desk.now) workers.old workers.new }
{
    let threads = workers.len().max(1);
    thread::for_each_mut(
        rt,
        workers,
        threads,
        &|_: usize, worker: &mut Worker<D, E>|
            requires { IsReady desk.now worker.old }
            ensures { Works D.Conn.told (entrance D.Door) (random E.Entropy) desk.entry.now worker.old worker.new }
        { work(rt, desk, worker) },
    );
}

// The workers of a list work at once.
fn put_to_work<R: Threads + Wait + Sync, D: Door + Send, E: Entropy + Send>(
    rt: &R,
    desk: &Desk<Book>,
    workers: &mut Vec<Worker<D, E>>,
)
where
    D::Conn: Send,
    requires ready { All (IsReady desk.now) workers.old.items }
    ensures works { AllZip (Works D.Conn.told (entrance D.Door) (random E.Entropy) desk.now) workers.old.items
        workers.new.items }
{
    work_all(rt, desk, workers.as_mut_slice());
}

// Joins the pass of a worker, and leaves its post.
fn dismiss<D: Door, E: Entropy>(
    desk: &Desk<Book>,
    pass: &mut Pass<Book>,
    worker: Worker<D, E>,
) -> Post<D, E>
    requires { Belongs desk.now pass.old × Belongs desk.now worker.pass }
    ensures belongs { Belongs desk.now pass.new }
    ensures joins { Joins pass.old.view worker.pass.view pass.new.view }
    ensures post { result ≡ post_of worker }
{
    let Worker {
        door,
        entropy,
        pass: own,
        locality,
        each: _,
        tally,
        room,
    } = worker;
    desk.join(pass, own);
    Post {
        door,
        entropy,
        locality,
        room,
        tally,
    }
}

// Joins the passes of all workers, and leaves their posts, in order.
fn dismiss_all<D: Door, E: Entropy>(
    desk: &Desk<Book>,
    pass: &mut Pass<Book>,
    workers: Vec<Worker<D, E>>,
    posts: &mut Vec<Post<D, E>>,
)
    requires belongs { Belongs desk.now pass.old }
    requires first { pass.old.view.made ≡ [] }
    requires workers { AllByRecursion (IsDone desk.now) workers.items }
    requires none { posts.old.items ≡ [] }
    requires room { vec_len workers ≤ vec_capacity posts.old }
    ensures belongs { Belongs desk.now pass.new }
    ensures gathers { Gathers pass.old.view workers.items pass.new.view }
    ensures posts { posts.new.items ≡ map post_of workers.items }
{
    // This tells that the pass's name is one of its own.
    let _name = pass.name();
    let mut workers = workers;
    while !workers.is_empty() {
        let worker = take_first(&mut workers);
        posts.push_reserved(dismiss(desk, pass, worker));
    }
    workers.destroy_empty();
}

/// Serves all posts at once: a worker is hired for each, with a pass of its own, and all work at once. Where no thread can
/// be made they work one after another. Then the passes are joined and the desk is closed. The desk must be that of an
/// empty book, with all its stake in the pass. `workers` is an empty list with room for them; no memory is taken.
pub fn serve_all<R: Threads + Wait + Sync, D: Door + Send, E: Entropy + Send>(
    rt: &R,
    desk: Desk<Book>,
    mut pass: Pass<Book>,
    posts: &mut Vec<Post<D, E>>,
    each: u32,
    mut workers: Vec<Worker<D, E>>,
) -> Book
where
    D::Conn: Send,
    requires belongs { Belongs desk pass × IsFresh pass.view }
    requires stake { (pass.view.names ≡ own_name pass.view ∷ []) × (pass.view.stake ≡ 65536) }
    requires opening { desk.terms.opening ≡ [] }
    requires few { vec_len posts.old < 65536 }
    requires near { AllByRecursion IsNear posts.old.items }
    requires none { workers.items ≡ [] }
    requires room { vec_len posts.old ≤ vec_capacity workers }

    // The book holds one legal history, of at most so many entries.
    ensures kind { record result { history = [] } ≡ desk.terms.kind }
    ensures legal { Legal result.seed result.first result.history }
    ensures most { length result.history ≤ desk.terms.capacity }
    ensures folded { FoldedInputs result.seed result.first result.history }
    ensures handles { HandleLaws result.seed result.first result.history }

    // It is what the workers served: each entry is of one of them, and each connection has its own.
    ensures served { Serve D.Conn.told (entrance D.Door) (random E.Entropy) desk.terms.capacity each result.history
        posts.old.items posts.new.items }
{
    hire_all(&desk, &mut pass, posts, each, &mut workers);
    put_to_work(rt, &desk, &mut workers);
    dismiss_all(&desk, &mut pass, workers, posts);
    folded_inputs();
    handle_laws();
    desk.close(pass)
}
