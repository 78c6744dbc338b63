//! Whom a device notifies of rows, and the words that they say.

ghost use Rattle.std.specs.Prelude.{◌≡◌, ◌<◌, ℕ, false, length, nat_eq, IfOk, OnOk, OnErr};
ghost use Rattle.std.specs.List.{list_any};
ghost use Rattle.ctrl_handlers.specs.Plan.{calls_of, members};
ghost use Rattle.ctrl_clusters.specs.Rows.{row_of};
ghost use Rattle.ctrl_clusters.specs.Moments.{moved};
ghost use Rattle.ctrl_clusters.specs.Notified.{MaySay, HaveWords, AreNotified, IsNotified, notified_count, notifier_count, after_notifying, after_change};

use crate::change::Change;
use crate::changes::is_any_changed;
use crate::moment::Moment;
use crate::rising::next_number;
use crate::writing::present_row;
use ctrl_calls::{Driver, Work, tell};
use ctrl_handlers::Plan;
use ctrl_types::Pair;
use std::alloc::{AllocError, Global};

/// Notifies each cluster with a changed member of its row of the values afterwards, in rising number of the clusters, and keeps the words
/// (Linux driver API, "V4L2 Controls", "Adding Notify Callbacks"; words are of this project). A member is changed where it has another value
/// afterwards, or where it acts on each write and is among the pairs.
///
/// - `change`: the moments before and afterwards.
/// - `pairs`: what was applied to come from the one to the other.
/// - `clusters`: the numbers of some clusters, in any order, which are looked at; the caller owes that no other has a changed member.
/// - `words`: the words; the caller owes one for each cluster.
/// - `work`: its count `told`, which the caller owes to be 0, is then the number of notifiers that were called.
///
/// It takes no memory and refuses nothing.
pub fn notify_between<D: Driver>(
    change: &Change<D>,
    pairs: &[Pair],
    clusters: &[u32],
    words: &mut Vec<u64>,
    work: &mut Work,
)
    requires touched { (k : ℕ) → list_any (nat_eq k) clusters.now ≡ false → moved change.now pairs.now k ≡ false }
    requires words { length words.old.items ≡ length change.now.before.plan.now.clusters }
    requires fresh { work.old.told ≡ 0 }
    ensures words { AreNotified D.told change.now.before.plan.now (moved change.now pairs.now) (λ k. row_of change.now.values.now (members change.now.before.plan.now k)) words.old.items words.new.items }
    ensures work { work.new ≡ record work.old { told = notified_count change.now.before.plan.now (moved change.now pairs.now) } }
{
    let end = change.before.plan.cluster_count();
    let mut next = next_number(clusters, 0, end);
    while next < end {
        notify_moved(change, pairs, next, words, work);
        next = next_number(clusters, next + 1, end);
    }
}

// Notifies a cluster of its row of the values afterwards, where a member is changed.
fn notify_moved<D: Driver>(
    change: &Change<D>,
    pairs: &[Pair],
    cluster: u32,
    words: &mut Vec<u64>,
    work: &mut Work,
)
    requires known { cluster < length change.now.before.plan.now.clusters }
    requires words { length words.old.items ≡ length change.now.before.plan.now.clusters }
    ensures words { IsNotified D.told change.now.before.plan.now cluster (moved change.now pairs.now cluster) (row_of change.now.values.now (members change.now.before.plan.now cluster)) words.old.items words.new.items }
    ensures work { work.new ≡ record work.old { told = after_change change.now.before.plan.now cluster (moved change.now pairs.now cluster) work.old.told } }
{
    let changed = is_any_changed(change, pairs, change.before.plan.members(cluster));
    notify_cluster(&change.after(), cluster, changed, words, work);
}

/// Notifies one cluster of its row of the present values, where a member changed, and keeps the word (Linux driver API, "V4L2 Controls", "Adding
/// Notify Callbacks"; words are of this project).
///
/// - `at`: the present moment.
/// - `cluster`: the number of a cluster; the caller owes one below `Plan::cluster_count`.
/// - `changed`: whether a member changed; where none did, nobody is told.
/// - `words`: the words; the caller owes one for each cluster.
/// - `work`: its count `told` is one more where the notifier was called.
///
/// It takes no memory and refuses nothing.
pub fn notify_cluster<D: Driver>(
    at: &Moment<D>,
    cluster: u32,
    changed: bool,
    words: &mut Vec<u64>,
    work: &mut Work,
)
    requires known { cluster < length at.now.plan.now.clusters }
    requires words { length words.old.items ≡ length at.now.plan.now.clusters }
    ensures words { IsNotified D.told at.now.plan.now cluster changed (row_of at.now.values.now (members at.now.plan.now cluster)) words.old.items words.new.items }
    ensures work { work.new ≡ record work.old { told = after_change at.now.plan.now cluster changed work.old.told } }
{
    if changed {
        words[cluster as usize] = notify_present(at, cluster, work);
    }
}

/// Notifies each cluster of its row of a device's first values, in rising number, and answers the words (Linux driver API, "V4L2 Controls",
/// "Adding Notify Callbacks"; that buttons and READ_ONLY controls are among them is of this project).
///
/// - `alloc`: where the words lie.
/// - `at`: the device's first moment.
/// - `work`: its count `told`, which the caller owes to be 0, is then the number of notifiers that were called; each of the plan is, once.
///
/// Refused with want of memory; nobody is notified then.
pub fn first_words<D: Driver>(
    alloc: Global,
    at: &Moment<D>,
    work: &mut Work,
) -> Result<Vec<u64>, AllocError>
    requires fresh { work.old.told ≡ 0 }
    ensures words { IfOk result (λ words. HaveWords D.told at.now.plan.now at.now.values.now words.items) }
    ensures work { OnOk result (work.new ≡ record work.old { told = notifier_count at.now.plan.now }) }
    ensures unheard { OnErr result (work.new ≡ work.old) }
{
    let count = at.plan.cluster_count();
    let mut words = Vec::with_capacity(alloc, count as usize)?;
    for cluster in 0..count {
        words.push_reserved(notify_present(at, cluster, work));
    }
    Ok(words)
}

// Notifies a cluster of its row of these values, and answers the word.
fn notify_present<D: Driver>(at: &Moment<D>, cluster: u32, work: &mut Work) -> u64
    requires known { cluster < length at.now.plan.now.clusters }
    ensures word { MaySay D.told (calls_of at.now.plan.now cluster).notifier (row_of at.now.values.now (members at.now.plan.now cluster)) result }
    ensures work { work.new ≡ record work.old { told = after_notifying (calls_of at.now.plan.now cluster).notifier work.old.told } }
{
    let members = at.plan.members(cluster);
    match at.plan.notifier(cluster) {
        Some(notifier) => tell(notifier, present_row(at.values, members), work),
        None => 0,
    }
}
