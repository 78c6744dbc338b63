//! Threads that can't be made.

ghost use Rattle.std.specs.Prelude.{◌≡◌};

use std::sync::atomic::AtomicU64;
use std::sync::atomic::Ordering::SeqCst;
use turn_desk::{Worker, run_both_within};

// Counts the work that is done, and keeps its name.
#[derive(Drop)]
struct Named<'a> {
    works: &'a AtomicU64,
    name: u32,
}

impl<'a> Worker for Named<'a> {
    type Rest = u32;

    ghost may = { λ _. Unit {0} };

    ghost finishes = { λ worker rest. rest ≡ worker.name };

    ghost gives_up = { λ worker rest. rest ≡ worker.name };

    fn work(self) -> u32 {
        self.works.fetch_add(1, SeqCst);
        self.name
    }

    fn rest(self) -> u32 {
        self.name
    }
}

// Where the first thread or the second is refused both workers give up, and nobody waits. With two threads both work.
#[test]
fn works_with_two_threads_alone(rt: HostRuntime) {
    let mut are_right = true;
    for threads in 0..3 {
        let works = AtomicU64::new(0);
        let one = Named {
            works: &works,
            name: 1,
        };
        let two = Named {
            works: &works,
            name: 2,
        };
        let (one, two, are_done) = run_both_within(&rt, threads, one, two);
        let wanted = if threads == 2 { 2 } else { 0 };
        are_right = are_right && one == 1 && two == 2 && are_done == (threads == 2);
        are_right = are_right && works.load(SeqCst) == wanted;
    }
    assert!(rt; are_right);
}
