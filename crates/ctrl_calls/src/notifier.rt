ghost use Rattle.std.specs.Prelude.{◌≡◌};
ghost use Rattle.ctrl_calls.specs.Counts.{one_more};
ghost use Rattle.ctrl_calls.specs.Meanings.{TellsBy};

use crate::driver::Driver;
use crate::relation::Relation;
use crate::row::ClusterRow;
use crate::telling::Telling;
use crate::work::Work;
use std::marker::Model;

/// What a cluster tells its row after a change (Linux driver API, "V4L2 Controls", "Adding Notify Callbacks"). Contracts
/// see it as the relation that it answers by.
pub struct Notifier<D: Driver> {
    teller: D::Teller,
    relation: Relation,
}

impl<D: Driver> Model for Notifier<D> {
    ghost use Rattle.ctrl_calls.specs.Meanings.{TellsBy};
    ghost use Rattle.ctrl_calls.specs.declared.relation.Relation.{Relation as RelationOf};

    ghost Value = { RelationOf };

    ghost view = { λ n. n.relation };

    ghost invariant = { λ n. D.Teller.callable n.teller × TellsBy (D.Teller.answers n.teller) (D.told n.relation) };
}

impl<D: Driver> Drop for Notifier<D> {
    fn drop(self) {
        let Notifier {
            teller: _,
            relation: _,
        } = self;
    }
}

impl<D: Driver> Notifier<D> {
    /// Keeps the closure `teller` beside the relation that it answers by. The caller owes that the closure may be called
    /// on every row, and that whatever it answers is a word that the driver's relation allows for the row (of this
    /// project).
    pub fn new(relation: Relation, teller: D::Teller) -> Notifier<D>
        requires callable { D.Teller.callable teller }
        requires answers { TellsBy (D.Teller.answers teller) (D.told relation) }
        ensures { result ≡ relation }
    {
        Notifier { teller, relation }
    }

    /// The relation that it answers by.
    pub fn relation(&self) -> Relation
        ensures { result ≡ self.now }
    {
        self.relation
    }
}

/// Tells the notifier a row, the present values of its cluster's members in member order (Linux driver API, "V4L2
/// Controls", "Adding Notify Callbacks"). Answers its word, one that the notifier's relation allows for the row (of this
/// project). The closure is called once, and `told` of `work` grows by one; a full count stays as it is, and so does the
/// other count.
pub fn tell<D: Driver>(notifier: &Notifier<D>, row: ClusterRow, work: &mut Work) -> u64
    ensures told { D.told notifier.now row result }
    ensures counted { work.new ≡ record work.old { told = one_more work.old.told } }
{
    work.told = work.told.saturating_add(1);
    notifier.teller.tell(row)
}
