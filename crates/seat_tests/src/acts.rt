//! What is done at two seats, each on a thread of its own.

ghost use Rattle.std.specs.Prelude.{◌≡◌, IsTrue};
ghost use Rattle.turn_desk.specs.Views.{IsSeatOf};

use history::Served;
use std::sync::Wait;
use std::sync::atomic::AtomicU64;
use std::sync::atomic::Ordering::SeqCst;
use std::thread;
use std::thread::Threads;
use turn_desk::{Desk, DeskSeat, Worker, run_both};

const MOST_TURNS: u32 = 10_000_000;

/// Two flags by which threads wait for each other, and one that is up where one of them has waited too long.
#[derive(Drop)]
pub struct Flags {
    raised: [AtomicU64; 2],
    late: AtomicU64,
}

impl Flags {
    /// All are down.
    pub fn new() -> Flags {
        Flags {
            raised: [AtomicU64::new(0), AtomicU64::new(0)],
            late: AtomicU64::new(0),
        }
    }

    /// Raises the first flag (0) or the second.
    pub fn raise(&self, flag: usize) {
        self.raised[flag % 2].store(1, SeqCst);
    }

    /// Waits for the first flag (0) or the second, so many turns at most.
    pub fn wait(&self, flag: usize) {
        for _ in 0..MOST_TURNS {
            if self.raised[flag % 2].load(SeqCst) == 1 {
                return;
            }
            thread::yield_now();
        }
        self.late.store(1, SeqCst);
    }

    /// Whether nobody has waited too long.
    pub fn are_in_time(&self) -> bool {
        self.late.load(SeqCst) == 0
    }
}

/// What is done at a seat.
#[derive(Drop)]
pub enum Act<A> {
    /// Asks, and keeps the answer.
    Ask(A),
    /// Looks at the front, and keeps how far it is.
    Look,
    /// Raises a flag.
    Raise(usize),
    /// Waits for a flag.
    Wait(usize),
}

/// A seat, the answers that were heard there, and the front that was seen last.
#[derive(Drop)]
pub struct Heard<T: Served> {
    pub seat: DeskSeat<T>,
    pub answers: Vec<T::Answer>,
    pub front: u64,
}

// All acts of a seat.
#[derive(Drop)]
struct Acts<'a, T: Served, R> {
    rt: &'a R,
    desk: &'a Desk<T>,
    flags: &'a Flags,
    acts: Vec<Act<T::Ask>>,
    heard: Heard<T>,
}

impl<'a, T: Served, R: Wait> Worker for Acts<'a, T, R>
where
    T::Ask: Drop,
    T::Answer: Drop,
{
    type Rest = Heard<T>;

    ghost may = { λ acts. IsSeatOf acts.desk.now acts.heard.seat };

    ghost finishes = { λ acts rest. IsSeatOf acts.desk.now rest.seat };

    ghost gives_up = { λ acts rest. IsSeatOf acts.desk.now rest.seat };

    fn work(self) -> Heard<T> {
        let Acts {
            rt,
            desk,
            flags,
            acts,
            mut heard,
        } = self;
        for act in &acts {
            heard = after(rt, desk, flags, act, heard);
        }
        heard
    }

    fn rest(self) -> Heard<T> {
        self.heard
    }
}

fn after<T: Served, R: Wait>(
    rt: &R,
    desk: &Desk<T>,
    flags: &Flags,
    act: &Act<T::Ask>,
    heard: Heard<T>,
) -> Heard<T>
where
    T::Answer: Drop,
    requires { IsSeatOf desk.now heard.seat }
    ensures { IsSeatOf desk.now result.seat }
{
    let Heard {
        mut seat,
        mut answers,
        mut front,
    } = heard;
    match act {
        Act::Ask(ask) => {
            let (back, answer) = desk.call(rt, seat, ask);
            seat = back;
            // who reads the answers misses one that has no room
            let _ = answers.push(answer);
        }
        Act::Look => front = desk.front(&mut seat),
        Act::Raise(flag) => flags.raise(*flag),
        Act::Wait(flag) => flags.wait(*flag),
    }
    Heard {
        seat,
        answers,
        front,
    }
}

/// Does the acts of two seats, each on a thread of its own. It says whether there was a thread for each.
pub fn act_both<T: Served + Send, R: Threads + Wait + Sync>(
    rt: &R,
    desk: &Desk<T>,
    flags: &Flags,
    first: (Heard<T>, Vec<Act<T::Ask>>),
    second: (Heard<T>, Vec<Act<T::Ask>>),
) -> (Heard<T>, Heard<T>, bool)
where
    T::Ask: Drop + Send,
    T::Answer: Drop + Send,
    requires first { IsSeatOf desk.now first.0.seat }
    requires second { IsSeatOf desk.now second.0.seat }
    ensures first { IsSeatOf desk.now result.0.seat }
    ensures second { IsSeatOf desk.now result.1.seat }
{
    let one = Acts {
        rt,
        desk,
        flags,
        acts: first.1,
        heard: first.0,
    };
    let two = Acts {
        rt,
        desk,
        flags,
        acts: second.1,
        heard: second.0,
    };
    run_both(rt, one, two)
}
