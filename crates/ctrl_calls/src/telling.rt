ghost use Rattle.std.specs.Prelude.{ℕ, List};
ghost use Rattle.ctrl_types.specs.declared.value.CtrlValue.{CtrlValue};

use crate::row::ClusterRow;

/// What a device can keep as a notifier: a boxed closure, or a struct of a driver's own.
pub trait Telling {
    /// It may be called, on any row.
    ghost callable: { Self → Type 0 };

    /// This word may be its answer to the row.
    ghost answers: { Self → List CtrlValue → ℕ → Type 0 };

    /// Takes the row, and answers a word of the driver's own. The caller owes that it may be called.
    fn tell(&self, row: ClusterRow) -> u64
        requires { callable self.now }
        ensures { answers self.now row result };
}

type BoxedTeller = Box<dyn Fn(ClusterRow) -> u64 + Send>;

impl Telling for BoxedTeller {
    ghost callable = { λ teller. BoxedTeller.IsAlwaysCallable teller };

    ghost answers = { λ teller row word. BoxedTeller.post teller row word };

    fn tell(&self, row: ClusterRow) -> u64 {
        self(row)
    }
}
