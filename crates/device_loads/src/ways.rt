//! Calls of several threads, at a desk and behind a `Mutex`, and how long they took.

ghost use Rattle.std.specs.Prelude.{◌≡◌, [], All};
ghost use Rattle.turn_desk.specs.Views.{IsSeatOf};

use crate::calls::{Question, Tally, call_locked, call_seated, look_locked, look_seated};
use history::Served;
use std::alloc::{AllocError, Global};
use std::rt::Clock;
use std::sync::{Mutex, Wait};
use std::thread::Threads;
use std::time::{Duration, Instant};
use std::{io, thread};
use turn_desk::{Desk, DeskSeat};

/// Makes calls at a desk, each thread at a seat of its own, and answers what came of them and how long they took. The error is want of memory, or of a
/// clock.
///
/// - `rt`: what makes threads, waits and tells the time.
/// - `alloc`: where the desk and its seats are.
/// - `object`: what is called, which has no steps yet.
/// - `question`: what is asked; None: how many steps there are.
/// - `calls`: how many calls each thread makes.
/// - `threads`: how many threads call; where it is 1, this one does.
pub fn at_desk<T: Served + Send + Drop, Q: Question<T> + Sync, R: Threads + Wait + Clock + Sync>(
    rt: &R,
    alloc: Global,
    object: T,
    question: Option<&Q>,
    calls: u32,
    threads: u32,
) -> io::Result<(Tally, Duration)>
    requires { T.steps object ≡ [] }
{
    let Ok((desk, first)) = Desk::new(alloc, object) else {
        return Err(out_of_memory());
    };
    let mut tasks = Vec::new(alloc);
    add_tasks(rt, &desk, question, calls, threads, first, &mut tasks)?;
    let start = Instant::now(rt)?;
    let tally = run_all(rt, tasks)?;
    let took = start.elapsed(rt)?;
    Ok((all_of(&tally), took))
}

fn out_of_memory() -> io::Error {
    io::Error::from(io::ErrorKind::OutOfMemory)
}

// What one thread does.
trait Task {
    // It may start.
    ghost may: { Self → Type 0 };

    fn run(self) -> Tally
        requires { may self };
}

// Runs the tasks, each on a thread of its own. One alone is run on this thread.
fn run_all<K: Task + Drop + Send, R: Threads + Sync>(
    rt: &R,
    tasks: Vec<K>,
) -> Result<Vec<Tally>, AllocError>
    requires { All K.may tasks.items }
{
    thread::map_vec(
        rt,
        tasks,
        &|task: K| -> Tally
            requires { K.may task }
        { task.run() },
    )
}

// Calls at a seat.
#[derive(Drop)]
struct AtSeat<'a, T: Served, Q, R> {
    rt: &'a R,
    desk: &'a Desk<T>,
    question: Option<&'a Q>,
    calls: u32,
    seat: DeskSeat<T>,
}

impl<'a, T: Served, Q: Question<T>, R: Wait> Task for AtSeat<'a, T, Q, R> {
    ghost may = { λ s. IsSeatOf s.desk.now s.seat };

    fn run(self) -> Tally {
        let AtSeat {
            rt,
            desk,
            question,
            calls,
            seat,
        } = self;
        match question {
            Some(question) => call_seated(rt, desk, question, calls, seat),
            None => look_seated(desk, calls, seat),
        }
    }
}

// Adds a task for each thread, each with a seat of its own, which is made from this one.
fn add_tasks<'a, T: Served, Q, R: Wait>(
    rt: &'a R,
    desk: &'a Desk<T>,
    question: Option<&'a Q>,
    calls: u32,
    threads: u32,
    seat: DeskSeat<T>,
    tasks: &mut Vec<AtSeat<'a, T, Q, R>>,
) -> io::Result<()>
    requires seat { IsSeatOf desk.now seat }
    requires tasks { All (λ s. IsSeatOf s.desk.now s.seat) tasks.old.items }
    ensures { All (λ s. IsSeatOf s.desk.now s.seat) tasks.new.items }
{
    let mut first = seat;
    for _ in 0..threads {
        let (back, made) = desk.another(rt, first);
        first = back;
        let Ok(seat) = made else {
            return Err(out_of_memory());
        };
        tasks.push(AtSeat {
            rt,
            desk,
            question,
            calls,
            seat,
        })?;
    }
    Ok(())
}

/// Makes calls behind a `Mutex`, and answers what came of them and how long they took. The error is want of memory, or of a clock.
///
/// - `rt`: what makes threads, waits and tells the time.
/// - `alloc`: where what came of each thread's calls is kept.
/// - `object`: what is called.
/// - `question`: what is asked; None: how many steps there are.
/// - `calls`: how many calls each thread makes.
/// - `threads`: how many threads call; where it is 1, this one does.
pub fn behind_mutex<
    T: Served + Send + Drop,
    Q: Question<T> + Sync,
    R: Threads + Wait + Clock + Sync,
>(
    rt: &R,
    alloc: Global,
    object: T,
    question: Option<&Q>,
    calls: u32,
    threads: u32,
) -> io::Result<(Tally, Duration)> {
    let object = Mutex::new(object);
    let start = Instant::now(rt)?;
    let tally = lock_threads(rt, alloc, &object, question, calls, threads)?;
    let took = start.elapsed(rt)?;
    Ok((all_of(&tally), took))
}

// Calls from so many threads.
fn lock_threads<T: Served + Send, Q: Question<T> + Sync, R: Threads + Wait + Sync>(
    rt: &R,
    alloc: Global,
    object: &Mutex<T>,
    question: Option<&Q>,
    calls: u32,
    threads: u32,
) -> Result<Vec<Tally>, AllocError> {
    match question {
        Some(question) => thread::map_indices(
            rt,
            alloc,
            threads as usize,
            &|seat| call_locked(rt, object, question, calls, seat as u32),
        ),
        None => thread::map_indices(
            rt,
            alloc,
            threads as usize,
            &|_| look_locked(rt, object, calls),
        ),
    }
}

// What came of the calls of all.
fn all_of(tally: &[Tally]) -> Tally {
    tally
        .iter()
        .fold(Tally::nothing(), |all, tally| all.and(*tally))
}
