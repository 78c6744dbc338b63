//! Two scripts that wait for each other.

use crate::devices::sample;
use ctl_pair::{Gate, run_pair};
use ctl_script::{Outcome, sample_words};
use std::alloc::AllocError;
use std::sync::atomic::AtomicU64;
use std::sync::atomic::Ordering::SeqCst;
use std::thread;

const MOST_TURNS: u32 = 10_000_000;

// At its second command each script waits here until the other is here too.
#[derive(Drop)]
struct Meeting {
    // the numbers with which each has come, one digit for each
    came: [AtomicU64; 2],
    alone: AtomicU64,
}

impl Meeting {
    fn new() -> Meeting {
        Meeting {
            came: [AtomicU64::new(0), AtomicU64::new(0)],
            alone: AtomicU64::new(0),
        }
    }

    // Whether each has come three times, and none waited for nothing.
    fn was_held(&self) -> bool {
        let [first, second] = &self.came;
        first.load(SeqCst) == 123 && second.load(SeqCst) == 123 && self.alone.load(SeqCst) == 0
    }
}

impl Gate for Meeting {
    fn pass(&self, seat: u32, k: u32) {
        let [first, second] = &self.came;
        let (mine, theirs) = if seat == 0 {
            (first, second)
        } else {
            (second, first)
        };
        let before = mine.load(SeqCst).saturating_mul(10);
        mine.store(before.saturating_add(u64::from(k)), SeqCst);
        if k != 2 {
            return;
        }
        for _ in 0..MOST_TURNS {
            if theirs.load(SeqCst) >= 12 {
                return;
            }
            thread::yield_now();
        }
        self.alone.store(1, SeqCst);
    }
}

/// Two scripts of three commands, two of which are steps.
pub const SCRIPTS: &[u8] =
    b"open f 1\nset f cur red=9\nget f cur red\n==\nopen f 1\nset f cur blue=8\nget f cur blue\n";

const PRINTED: &[u8] = b"0 ok\n0 ok 9\n0 ok 9\n1 ok\n1 ok 8\n1 ok 8\naccepted 2 2\naudit equal 4\n";

// Each of the two goes on only once the other has come as far, which on one thread never is.
#[test]
fn scripts_meet_at_the_gate(rt: HostRuntime) -> Result<(), AllocError> {
    let gate = Meeting::new();
    let mut reader = SCRIPTS;
    let mut printed = Vec::new(rt.alloc());
    let known = sample_words(rt.alloc())?;
    let device = sample(rt.alloc())?;
    let (left, outcome) = run_pair(
        &rt,
        rt.alloc(),
        &known,
        device,
        &gate,
        &mut reader,
        &mut printed,
    );
    let has_printed = printed.as_slice() == PRINTED && outcome == Outcome::Finished;
    assert!(rt; gate.was_held() && left.is_ok() && has_printed);
    Ok(())
}
