// Closures with numbers of their own.
ghost use Rattle.std.specs.Prelude.{⊤, ◌≡◌};
ghost use Rattle.ctrl_calls.specs.declared.verdict.Verdict.TheVariants.{Accept};

use ctrl_calls::{
    Calls, ClusterRow, Judging, Notifier, Notifies, Relation, RowValues, Telling, Validates,
    Validator, Verdict, Work, ask, tell,
};
use ctrl_handlers::Plan;
use std::alloc::Global;
use std::process::Abort;
use std::sync::Arc;
use std::sync::atomic::{AtomicU64, Ordering};

/// A driver of one relation, so that all validators are equal, and all notifiers: a validator leaves a number of its own where it
/// is called, and a notifier tells one.
pub enum Alike {}

const ALIKE: Relation = Relation {
    number: 7,
    bounds: [0; 4],
};

#[derive(Drop)]
pub struct Accepts {
    number: u64,
    called: Arc<AtomicU64>,
}

impl Judging for Accepts {
    ghost callable = { λ _. ⊤ };

    ghost answers = { λ _ row verdict. verdict ≡ Accept row };

    fn judge(&self, row: ClusterRow) -> Verdict {
        self.called.store(self.number, Ordering::SeqCst);
        Verdict::Accept(row)
    }
}

#[derive(Drop)]
pub struct Says {
    number: u64,
}

impl Telling for Says {
    ghost callable = { λ _. ⊤ };

    ghost answers = { λ _ _ _. ⊤ };

    fn tell(&self, row: ClusterRow) -> u64 {
        let _ = row;
        self.number
    }
}

impl Validates for Alike {
    type Judge = Accepts;

    ghost verdict = { λ _ row. Accept row };
}

impl Notifies for Alike {
    type Teller = Says;

    ghost told = { λ _ _ _. ⊤ };
}

/// Where validators leave their numbers. What is refused memory is asked again, here and below.
pub fn calling(rt: &impl Abort, alloc: Global) -> Arc<AtomicU64> {
    match Arc::new(alloc, AtomicU64::new(0)) {
        Ok(called) => called,
        Err(_) => Arc::new(alloc, AtomicU64::new(0)).expect(rt, "a number"),
    }
}

/// The closures of this number.
pub fn closures(rt: &impl Abort, called: &Arc<AtomicU64>, number: u64) -> Calls<Alike> {
    let called = called.clone().expect(rt, "a number");
    Calls {
        validator: Some(Validator::new(ALIKE, Accepts { number, called })),
        notifier: Some(Notifier::new(ALIKE, Says { number })),
    }
}

// The number of a validator.
fn judges(validator: &Validator<Alike>, called: &Arc<AtomicU64>) -> Option<u64> {
    let row = RowValues::zeros(0);
    called.store(0, Ordering::SeqCst);
    let _ = ask(validator, &row, &mut Work::new());
    Some(called.load(Ordering::SeqCst))
}

// The number of a notifier.
fn tells(notifier: &Notifier<Alike>) -> Option<u64> {
    let row = RowValues::zeros(0);
    Some(tell(notifier, row.to_cluster_row(), &mut Work::new()))
}

/// Whether closures are those of this number.
pub fn are(calls: &Calls<Alike>, called: &Arc<AtomicU64>, number: u64) -> bool {
    match (&calls.validator, &calls.notifier) {
        (Some(validator), Some(notifier)) => {
            judges(validator, called) == Some(number) && tells(notifier) == Some(number)
        }
        _ => false,
    }
}

/// The numbers of a cluster's validator and of its notifier.
pub fn numbers(
    plan: &Plan<Alike>,
    called: &Arc<AtomicU64>,
    cluster: u32,
) -> (Option<u64>, Option<u64>) {
    let judges = match plan.validator(cluster) {
        Some(validator) => judges(validator, called),
        None => None,
    };
    let tells = match plan.notifier(cluster) {
        Some(notifier) => tells(notifier),
        None => None,
    };
    (judges, tells)
}
