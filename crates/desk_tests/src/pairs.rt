//! Two clients on two threads.

ghost use Rattle.std.specs.Prelude.{◌≡◌};

use crate::counter::{Answer, Ask, Counter};
use crate::seats::{further, open};
use std::alloc::Global;
use std::sync::atomic::AtomicU64;
use std::sync::atomic::Ordering::SeqCst;
use std::test::Fail;
use std::thread;
use turn_desk::{Client, Gate, Party, run_clients, serve_both};

const MOST_TURNS: u32 = 10_000_000;

struct NoGate;

impl Gate for NoGate {
    fn pass(&self, _seat: u32, _k: u32) {}
}

// At its second call each seat waits here until the other is here too.
#[derive(Drop)]
struct Meeting {
    // the numbers with which each has come, one digit for each
    came: [AtomicU64; 2],
    alone: AtomicU64,
}

impl Meeting {
    fn new() -> Meeting {
        Meeting {
            came: [AtomicU64::new(0), AtomicU64::new(0)],
            alone: AtomicU64::new(0),
        }
    }

    // Whether each has come three times, and none waited for nothing.
    fn was_held(&self) -> bool {
        let [first, second] = &self.came;
        first.load(SeqCst) == 123 && second.load(SeqCst) == 123 && self.alone.load(SeqCst) == 0
    }
}

impl Gate for Meeting {
    fn pass(&self, seat: u32, k: u32) {
        let [first, second] = &self.came;
        let (mine, theirs) = if seat == 0 {
            (first, second)
        } else {
            (second, first)
        };
        let before = mine.load(SeqCst).saturating_mul(10);
        mine.store(before.saturating_add(u64::from(k)), SeqCst);
        if k != 2 {
            return;
        }
        for _ in 0..MOST_TURNS {
            if theirs.load(SeqCst) >= 12 {
                return;
            }
            thread::yield_now();
        }
        self.alone.store(1, SeqCst);
    }
}

// Adds 1 so many times, and keeps each ask with the answer that it heard. Without memory it stops.
#[derive(Drop)]
struct Adder {
    left: u32,
    said: Vec<(Ask, Option<Answer>)>,
}

impl Adder {
    fn new(alloc: Global, left: u32) -> Adder {
        Adder {
            left,
            said: Vec::new(alloc),
        }
    }

    // How many sums it heard.
    fn sums(&self) -> usize {
        let is_sum = |line: &&(Ask, Option<Answer>)| matches!(line.1, Some(Answer::Sum(_)));
        self.said.iter().filter(is_sum).count()
    }
}

impl Client<Counter> for Adder {
    ghost use Rattle.std.specs.Prelude.{◌≡◌};

    // what it adds is the same at each ask
    ghost Task = { Unit {0} };

    ghost task = { λ _. tt };

    ghost is_done = { λ adder. adder.left ≡ 0 };

    ghost transcript = { λ adder. adder.said.items };

    fn next(&mut self) -> bool {
        if self.left == 0 {
            return false;
        }
        if self.said.push((Ask::Add(1), None)).is_err() {
            self.left = 0;
            return false;
        }
        self.left -= 1;
        true
    }

    fn ask(&self) -> &Ask {
        let last = self.said.len() - 1;
        &self.said[last].0
    }

    fn hear(&mut self, answer: Answer) {
        if let Some(line) = self.said.last_mut() {
            line.1 = Some(answer);
        }
    }
}

// Each of two threads calls 1,000 times, and the history has all entries of both.
#[test]
fn two_threads_call(rt: HostRuntime) -> Result<(), Fail> {
    let counter = Counter::new(rt.alloc(), 1_000_000);
    let one = Adder::new(rt.alloc(), 1000);
    let two = Adder::new(rt.alloc(), 1000);
    let served = serve_both(&rt, rt.alloc(), counter, &NoGate, one, two);
    let (counter, one, two) = served.ok().ok_or("no memory, or seats are out")?;
    let are_told = one.sums() == 1000 && two.sums() == 1000;
    let are_entered = counter.count(0) == 1000 && counter.count(1) == 1000;
    assert!(rt; are_told && are_entered && counter.total() == 2000);
    Ok(())
}

// Each of the two goes on only once the other has come as far, which on one thread never is.
#[test]
fn two_threads_meet_at_the_gate(rt: HostRuntime) {
    let (desk, first) = open(&rt, rt.alloc());
    let (first, second) = further(&rt, &desk, first);
    let gate = Meeting::new();
    let one = Party {
        seat: first,
        client: Adder::new(rt.alloc(), 3),
    };
    let two = Party {
        seat: second,
        client: Adder::new(rt.alloc(), 3),
    };
    let (one, two, outcome) = run_clients(&rt, &desk, &gate, one, two);
    let are_told = one.client.sums() == 3 && two.client.sums() == 3;
    assert!(rt; outcome.is_ok() && gate.was_held() && are_told);
}
