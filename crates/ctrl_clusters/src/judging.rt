ghost use Rattle.std.specs.Prelude.{◌≡◌, ◌<◌, ◌≤◌, ◌+◌, ◌↔◌, true, length, Ok, Err, IfErr, OnOk, IsTrue};
ghost use Rattle.std.specs.List.{All};
ghost use Rattle.ctrl_calls.specs.declared.row.TheConstants.{MAX_MEMBERS};
ghost use Rattle.ctrl_calls.specs.declared.verdict.Verdict.TheVariants.{Accept};
ghost use Rattle.ctrl_handlers.specs.Plan.{members, calls_of};
ghost use Rattle.ctrl_clusters.specs.Judging.{refusal_of, takes_row, judged, judge, validated_row, asks_validator, after_judging, with_call};
ghost use Rattle.ctrl_clusters.specs.Lone.{AreLone};

use crate::moment::Moment;
use crate::ranges::Ranges;
use crate::rows::{settle_row, taken_row};
use ctrl_calls::{Driver, RowValues, Verdict, Work, ask};
use ctrl_types::{Errno, Pair};

/// What a cluster makes of a row of its members' values, in member order (Linux driver API, "V4L2 Controls", "Control
/// Clusters"): its validator is asked, once, where it has one, and what it accepts is the row then; else the row is accepted as it is. Nobody is told.
///
/// - `at`: the moment whose ranges count.
/// - `cluster`: the number of a cluster; the caller owes one below `Plan::cluster_count`.
/// - `row`: a value for each of its members; the caller owes exactly as many. Where it is refused it stays as it is.
/// - `work`: its count `asked` grows by one where the validator is asked.
///
/// Refused by the checks 53, with EACCES (13), EBUSY (16), EINVAL (22) or ERANGE (34), and 54 (EINVAL, 22) of docs/RULES.md. It takes no
/// memory.
#[tactic(auto, unfolding(crate::specs::Judging::judge))]
pub fn judge<D: Driver>(
    at: &Moment<D>,
    cluster: u32,
    row: &mut RowValues,
    work: &mut Work,
) -> Result<(), Errno>
    requires cluster { cluster < length at.now.plan.now.clusters }
    requires row { length row.old ≡ length (members at.now.plan.now cluster) }
    ensures ok { OnOk result (judge D.verdict at.now.plan.now at.now.ranges.now cluster row.old ≡ Ok row.new) }
    ensures err { IfErr result (λ errno. judge D.verdict at.now.plan.now at.now.ranges.now cluster row.old ≡ Err errno) }
    ensures stays { IfErr result (λ errno. row.new ≡ row.old) }
    ensures long { length row.new ≡ length (members at.now.plan.now cluster) }
    ensures at_most_once { work.new.asked ≤ work.old.asked + 1 }
    ensures told { work.new.told ≡ work.old.told }
    ensures counted { work.new ≡ record work.old { asked = after_judging (calls_of at.now.plan.now cluster).validator work.old.asked } }
{
    match at.plan.validator(cluster) {
        Some(validator) => {
            let verdict = ask(validator, row, work);
            judged(at.ranges, members_of(at, cluster), &verdict, row)
        }
        None => Ok(()),
    }
}

/// A cluster's row where pairs are asked for over a device's values, validated (Linux driver API, "V4L2 Controls", "Control
/// Clusters"): the members' values, overwritten by the pairs, of which the last of a control counts, settle in member order and
/// are judged.
///
/// - `at`: the moment whose ranges count.
/// - `cluster`: the number of a cluster; the caller owes one below `Plan::cluster_count`.
/// - `pairs`: what is asked for; pairs of other clusters' controls count for nothing.
/// - `row`: any row of as many values as the cluster has members, which the caller owes; the validated row then. Where it is refused, what it holds then says nothing.
/// - `work`: its count `asked` grows by one where the members' values settle and the cluster has a validator, and else stays.
///
/// Refused by the checks 57 (EINVAL, 22), 51 (ERANGE, 34) and 52 (EINVAL) of docs/RULES.md for the first member that doesn't settle, and then as `judge`
/// refuses. It takes no memory.
#[tactic(auto, unfolding(crate::specs::Judging::validated_row))]
pub fn validated_row<D: Driver>(
    at: &Moment<D>,
    cluster: u32,
    pairs: &[Pair],
    row: &mut RowValues,
    work: &mut Work,
) -> Result<(), Errno>
    requires cluster { cluster < length at.now.plan.now.clusters }
    requires row { length row.old ≡ length (members at.now.plan.now cluster) }
    ensures ok { OnOk result (validated_row D.verdict at.now.plan.now at.now.ranges.now at.now.values.now pairs.now cluster ≡ Ok row.new) }
    ensures err { IfErr result (λ errno. validated_row D.verdict at.now.plan.now at.now.ranges.now at.now.values.now pairs.now cluster ≡ Err errno) }
    ensures long { length row.new ≡ length (members at.now.plan.now cluster) }
    ensures at_most_once { work.new.asked ≤ work.old.asked + 1 }
    ensures asked { OnOk result (work.new.asked ≡ after_judging (calls_of at.now.plan.now cluster).validator work.old.asked) }
    ensures told { work.new.told ≡ work.old.told }
    ensures counted { work.new ≡ record work.old { asked = with_call (asks_validator at.now.plan.now at.now.ranges.now at.now.values.now pairs.now cluster) work.old.asked } }
{
    let members = members_of(at, cluster);
    match settle_row(at.ranges, at.values, pairs, members, row) {
        Ok(()) => judge_settled(at, cluster, row, work),
        Err(errno) => Err(errno),
    }
}

// What a cluster makes of a row that its members take as it is.
#[tactic(auto, unfolding(crate::specs::Judging::judge))]
fn judge_settled<D: Driver>(
    at: &Moment<D>,
    cluster: u32,
    row: &mut RowValues,
    work: &mut Work,
) -> Result<(), Errno>
    requires cluster { cluster < length at.now.plan.now.clusters }
    requires row { length row.old ≡ length (members at.now.plan.now cluster) }
    requires taken { takes_row at.now.ranges.now (members at.now.plan.now cluster) row.old ≡ true }
    ensures ok { OnOk result (judge D.verdict at.now.plan.now at.now.ranges.now cluster row.old ≡ Ok row.new) }
    ensures err { IfErr result (λ errno. judge D.verdict at.now.plan.now at.now.ranges.now cluster row.old ≡ Err errno) }
    ensures long { length row.new ≡ length (members at.now.plan.now cluster) }
    ensures counted { work.new ≡ record work.old { asked = after_judging (calls_of at.now.plan.now cluster).validator work.old.asked } }
{
    match at.plan.validator(cluster) {
        Some(validator) => {
            let verdict = ask(validator, row, work);
            judged_settled(at.ranges, members_of(at, cluster), &verdict, row)
        }
        None => Ok(()),
    }
}

// The members of a cluster, and what holds of them.
fn members_of<'a, D: Driver>(at: &Moment<'a, D>, cluster: u32) -> &'a [u32]
    requires { cluster < length at.now.plan.now.clusters }
    ensures members { result.now ≡ members at.now.plan.now cluster }
    ensures ranges { All (λ c. c < length at.now.ranges.now) result.now }
    ensures values { All (λ c. c < length at.now.values.now) result.now }
    ensures few { length result.now ≤ MAX_MEMBERS }
    ensures lone { AreLone at.now.ranges.now result.now }
{
    at.plan.members(cluster)
}

// What a refusal of a validator counts as.
fn refusal_of(errno: Errno) -> Errno
    ensures { result ≡ refusal_of errno }
{
    match errno {
        Errno::EACCES | Errno::EBUSY | Errno::ERANGE => errno,
        _ => Errno::EINVAL,
    }
}

// What a verdict makes of a row that these members take as it is: the very row settles no second time.
fn judged_settled(
    ranges: &Ranges,
    members: &[u32],
    verdict: &Verdict,
    row: &mut RowValues,
) -> Result<(), Errno>
    requires known { All (λ c. c < length ranges.now) members.now }
    requires few { length members.now ≤ MAX_MEMBERS }
    requires lone { AreLone ranges.now members.now }
    requires long { length row.old ≡ length members.now }
    requires taken { takes_row ranges.now members.now row.old ≡ true }
    ensures ok { OnOk result (judged ranges.now members.now verdict.now ≡ Ok row.new) }
    ensures err { IfErr result (λ errno. judged ranges.now members.now verdict.now ≡ Err errno) }
    ensures long { length row.new ≡ length members.now }
{
    if accepts(verdict, row) {
        return Ok(());
    }
    judged(ranges, members, verdict, row)
}

// Whether a verdict accepts this very row.
fn accepts(verdict: &Verdict, row: &RowValues) -> bool
    ensures { IsTrue result ↔ (verdict.now ≡ Accept row.now) }
{
    match verdict {
        Verdict::Accept(accepted) => row.is_like(accepted.values()),
        Verdict::Refuse(_) => false,
    }
}

// What a verdict makes of the row of these members.
fn judged(
    ranges: &Ranges,
    members: &[u32],
    verdict: &Verdict,
    row: &mut RowValues,
) -> Result<(), Errno>
    requires known { All (λ c. c < length ranges.now) members.now }
    requires few { length members.now ≤ MAX_MEMBERS }
    requires lone { AreLone ranges.now members.now }
    requires long { length row.old ≡ length members.now }
    ensures ok { OnOk result (judged ranges.now members.now verdict.now ≡ Ok row.new) }
    ensures err { IfErr result (λ errno. judged ranges.now members.now verdict.now ≡ Err errno) }
    ensures stays { IfErr result (λ errno. row.new ≡ row.old) }
    ensures long { length row.new ≡ length members.now }
{
    match verdict {
        Verdict::Refuse(errno) => Err(refusal_of(*errno)),
        Verdict::Accept(accepted) => match taken_row(ranges, members, accepted.values()) {
            Some(taken) => {
                *row = taken;
                Ok(())
            }
            None => Err(Errno::EINVAL),
        },
    }
}
