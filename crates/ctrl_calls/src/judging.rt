ghost use Rattle.std.specs.Prelude.{List};
ghost use Rattle.ctrl_types.specs.declared.value.CtrlValue.{CtrlValue};
ghost use Rattle.ctrl_calls.specs.declared.verdict.Verdict.{Verdict as VerdictOf};

use crate::row::ClusterRow;
use crate::verdict::Verdict;

/// What a device can keep as a validator: a boxed closure, or a struct of a driver's own.
pub trait Judging {
    /// It may be called, on any row.
    ghost callable: { Self → Type 0 };

    /// This may be its answer to the row.
    ghost answers: { Self → List CtrlValue → VerdictOf → Type 0 };

    /// Judges the row. The caller owes that it may be called.
    fn judge(&self, row: ClusterRow) -> Verdict
        requires { callable self.now }
        ensures { answers self.now row result };
}

type BoxedJudge = Box<dyn Fn(ClusterRow) -> Verdict + Send>;

impl Judging for BoxedJudge {
    ghost callable = { λ judge. BoxedJudge.IsAlwaysCallable judge };

    ghost answers = { λ judge row verdict. BoxedJudge.post judge row verdict };

    fn judge(&self, row: ClusterRow) -> Verdict {
        self(row)
    }
}
