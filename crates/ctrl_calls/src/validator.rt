ghost use Rattle.std.specs.Prelude.{◌≡◌};
ghost use Rattle.ctrl_calls.specs.Counts.{one_more};
ghost use Rattle.ctrl_calls.specs.Meanings.{JudgesBy};

use crate::driver::Driver;
use crate::judging::Judging;
use crate::relation::Relation;
use crate::row_values::RowValues;
use crate::verdict::Verdict;
use crate::work::Work;
use std::marker::Model;

/// What a cluster asks before a row is set (Linux driver API, "V4L2 Controls", "Control Clusters": the operations
/// `try_ctrl` and `s_ctrl`). Contracts see it as the relation that it answers by.
pub struct Validator<D: Driver> {
    judge: D::Judge,
    relation: Relation,
}

impl<D: Driver> Model for Validator<D> {
    ghost use Rattle.ctrl_calls.specs.Meanings.{JudgesBy};
    ghost use Rattle.ctrl_calls.specs.declared.relation.Relation.{Relation as RelationOf};

    ghost Value = { RelationOf };

    ghost view = { λ v. v.relation };

    ghost invariant = { λ v. D.Judge.callable v.judge × JudgesBy (D.Judge.answers v.judge) (D.verdict v.relation) };
}

impl<D: Driver> Drop for Validator<D> {
    fn drop(self) {
        let Validator {
            judge: _,
            relation: _,
        } = self;
    }
}

impl<D: Driver> Validator<D> {
    /// Keeps the closure `judge` beside the relation that it answers by. The caller owes that the closure may be called on
    /// every row, and that whatever it answers is the driver's verdict by this relation (of this project).
    pub fn new(relation: Relation, judge: D::Judge) -> Validator<D>
        requires callable { D.Judge.callable judge }
        requires answers { JudgesBy (D.Judge.answers judge) (D.verdict relation) }
        ensures { result ≡ relation }
    {
        Validator { judge, relation }
    }

    /// The relation that it answers by.
    pub fn relation(&self) -> Relation
        ensures { result ≡ self.now }
    {
        self.relation
    }
}

/// Asks the validator what it makes of the row, the values of its cluster's members in member order (Linux driver API,
/// "V4L2 Controls": `try_ctrl`). Answers the driver's verdict by the validator's relation. The closure is called once,
/// with a `ClusterRow` of the values, and `asked` of `work` grows by one; a full count stays as it is, and so does the other count.
pub fn ask<D: Driver>(validator: &Validator<D>, row: &RowValues, work: &mut Work) -> Verdict
    ensures verdict { result ≡ D.verdict validator.now row.now }
    ensures counted { work.new ≡ record work.old { asked = one_more work.old.asked } }
{
    work.asked = work.asked.saturating_add(1);
    validator.judge.judge(row.to_cluster_row())
}
