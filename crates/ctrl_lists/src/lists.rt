ghost use Rattle.std.specs.Prelude.{◌≡◌, ◌≢◌, ◌<◌, ◌≤◌, ◌+◌, ◌⊎◌, ◌++◌, true, false, None, Some, length, map, IfOk, IfErr, OnOk, IsTrue};
ghost use Rattle.std.specs.List.{All};
ghost use Rattle.ctrl_types.specs.declared.which.Which.TheVariants.{Defaults};
ghost use Rattle.ctrl_clusters.specs.Overlay.{is_among};
ghost use Rattle.ctrl_lists.specs.View.{pairs_of};
ghost use Rattle.ctrl_lists.specs.Checks.{at_first, first_refusal, judging_check, read_checks, write_checks};
ghost use Rattle.ctrl_types.specs.Refusals.{memory_refusal};
ghost use Rattle.ctrl_lists.specs.Touched.{touched, AreJudged, IsTouched, judged_count, list_asks, with_calls};
ghost use Rattle.ctrl_lists.specs.Answers.{value_read, entry_read, entries_read, entry_judged, entries_judged, may_lack};
ghost use Rattle.ctrl_lists.specs.declared.limits.TheConstants.{MAX_ENTRIES};

use crate::checks::{check_whole, first_unreadable, first_unwritable};
use crate::control_list::ControlList;
use crate::naming::pairs_of;
use crate::room::Room;
use crate::rows::{entries_in, judge_all};
use crate::touched::Touched;
use crate::view::View;
use ctrl_calls::{Driver, Work};
use ctrl_clusters::{NewRows, Ranges};
use ctrl_types::{CtrlValue, ExtControl, Pair, Refusal, Which};
use std::alloc::{AllocError, Global};

/// Reads controls (Linux userspace API, "ioctl VIDIOC_G_EXT_CTRLS, VIDIOC_S_EXT_CTRLS, VIDIOC_TRY_EXT_CTRLS"; the order of the
/// checks, and that a default of a WRITE_ONLY control isn't told are of this project). It answers one entry for each of the list, in its
/// order: its control with the default where `view` speaks of the defaults, and else with its value in `view`. Nothing is changed.
///
/// - `alloc`: where the answer lies.
/// - `view`: what the list is checked against. Its grabs and pairs count for nothing.
/// - `list`: the entries; their values are ignored. It is lent, and never changed.
/// - `room`: where things lie while the list is read; what was in it counts for nothing.
///
/// Refused by the first of the checks 4 to 7 of a list in docs/RULES.md that doesn't hold: the check is answered, and, of the checks 6 and
/// 7, the place of the first entry where it stands. Want of memory, check 34, may stand in place of any answer from check 6 on, unless there
/// are no entries. `Refusal::at_count` makes the fault.
pub fn read_list<D: Driver>(
    alloc: Global,
    view: &View<D>,
    list: &ControlList,
    room: &mut Room,
) -> Result<ControlList, Refusal>
    ensures ok { OnOk result (first_refusal (read_checks view.now.plan view.now.parts list.now) ≡ None) }
    ensures answers { IfOk result (λ answers. answers ≡ entries_read view.now.plan view.now.parts list.now) }
    ensures err { IfErr result (λ refusal. (first_refusal (read_checks view.now.plan view.now.parts list.now) ≡ Some refusal) ⊎ (IsTrue (may_lack list.now) × (refusal ≡ memory_refusal))) }
{
    check_whole(view, list)?;
    if list.is_empty() {
        return Ok(ControlList::from_vec(Vec::new(alloc)));
    }
    pairs_of(view, list.as_slice(), &mut room.pairs)?;
    let pairs = room.pairs.as_slice();
    if let Some(refusal) = first_unreadable(view.at.plan, pairs) {
        return Err(refusal);
    }
    match entries_read(alloc, view, pairs) {
        Ok(answers) => Ok(answers),
        Err(_) => Err(Refusal::of_memory()),
    }
}

/// Judges what a list that sets asks for (Linux userspace API, "ioctl VIDIOC_G_EXT_CTRLS, VIDIOC_S_EXT_CTRLS,
/// VIDIOC_TRY_EXT_CTRLS"; Linux driver API, "V4L2 Controls", "Control Clusters"; the order of the checks is of this project). Each
/// cluster with a control of the list gets a row: the members' values, overwritten by the pairs that `view` has from before and then by
/// the list, of which the last of a control counts, settle in member order and are judged by the cluster's validator, which is asked at
/// most once. Each entry is answered with its control's value of that row, so that an id that stands twice is answered one value. Nothing
/// is changed here.
///
/// - `alloc`: where the answers and the pairs lie; what the room lacks it takes from its own.
/// - `view`: what the list is checked against; the caller owes that it doesn't speak of the defaults, which can't be written.
/// - `list`: the entries. It is lent, and never changed.
/// - `room`: where things lie while the list is judged; what was in it counts for nothing. The memory of the rows is in the answer then, which hands it back.
/// - `work`: its count `asked` grows by one for each validator that is asked, by no more than the clusters that the list touches; `told`
///   stays. After a refusal by check 8, or for want of memory, `asked` may have grown too; a list that the checks 4 to 7 refuse asks nobody.
///
/// Refused by the first of the checks 4 to 8 of a list in docs/RULES.md that doesn't hold: the check is answered, and, of the checks 6, 7
/// and 8, the place of the entry where it stands, in check 8 of the first one of its cluster. Want of memory, check 34, may stand in place of
/// any answer from check 6 on, unless there are no entries. `Refusal::at_count` makes the fault.
pub fn plan_set<D: Driver>(
    alloc: Global,
    view: &View<D>,
    list: &ControlList,
    room: &mut Room,
    work: &mut Work,
) -> Result<Touched, Refusal>
    requires which { view.now.parts.which ≢ Defaults }
    ensures ok { OnOk result (first_refusal (write_checks D.verdict view.now.plan view.now.parts true list.now) ≡ None) }
    ensures answers { IfOk result (λ touch. touch.answers ≡ entries_judged D.verdict view.now.plan view.now.parts list.now) }
    ensures touched { IfOk result (λ touch. IsTouched D.verdict view.now.plan view.now.parts list.now touch) }
    ensures err { IfErr result (λ refusal. (first_refusal (write_checks D.verdict view.now.plan view.now.parts true list.now) ≡ Some refusal) ⊎ (IsTrue (may_lack list.now) × (refusal ≡ memory_refusal))) }
    ensures at_most { work.new.asked ≤ work.old.asked + list_asks view.now.plan view.now.parts true list.now }
    ensures asked { OnOk result (work.new.asked ≡ with_calls (judged_count view.now.plan (touched view.now.plan (pairs_of view.now.plan view.now.parts.handler view.now.parts.which list.now))) work.old.asked) }
    ensures told { work.new.told ≡ work.old.told }
{
    judge_list(alloc, view, true, list, room, work)
}

/// Judges what a list that tries asks for, as `plan_set` does a list that sets, but that a grabbed control may be tried (Linux userspace
/// API, "ioctl VIDIOC_G_EXT_CTRLS, VIDIOC_S_EXT_CTRLS, VIDIOC_TRY_EXT_CTRLS"; the order of the checks is of this project).
///
/// - `alloc`: where the answers lie.
/// - `view`, `list`, `room`, `work`: as of `plan_set`.
///
/// Refused as by `plan_set`, but never because a control is grabbed. `Refusal::at_entry` makes the fault.
pub fn try_list<D: Driver>(
    alloc: Global,
    view: &View<D>,
    list: &ControlList,
    room: &mut Room,
    work: &mut Work,
) -> Result<Touched, Refusal>
    requires which { view.now.parts.which ≢ Defaults }
    ensures ok { OnOk result (first_refusal (write_checks D.verdict view.now.plan view.now.parts false list.now) ≡ None) }
    ensures answers { IfOk result (λ touch. touch.answers ≡ entries_judged D.verdict view.now.plan view.now.parts list.now) }
    ensures touched { IfOk result (λ touch. IsTouched D.verdict view.now.plan view.now.parts list.now touch) }
    ensures err { IfErr result (λ refusal. (first_refusal (write_checks D.verdict view.now.plan view.now.parts false list.now) ≡ Some refusal) ⊎ (IsTrue (may_lack list.now) × (refusal ≡ memory_refusal))) }
    ensures at_most { work.new.asked ≤ work.old.asked + list_asks view.now.plan view.now.parts false list.now }
    ensures asked { OnOk result (work.new.asked ≡ with_calls (judged_count view.now.plan (touched view.now.plan (pairs_of view.now.plan view.now.parts.handler view.now.parts.which list.now))) work.old.asked) }
    ensures told { work.new.told ≡ work.old.told }
{
    judge_list(alloc, view, false, list, room, work)
}

// The controls of these pairs, as they are read.
fn entries_read<D: Driver>(
    alloc: Global,
    view: &View<D>,
    pairs: &[Pair],
) -> Result<ControlList, AllocError>
    requires few { length pairs.now ≤ MAX_ENTRIES }
    requires known { All (λ p. p.control < length view.now.plan.controls) pairs.now }
    ensures { IfOk result (λ answers. answers ≡ map (entry_read view.now.plan view.now.parts) pairs.now) }
{
    let mut answers = Vec::with_capacity(alloc, pairs.len())?;
    for pair in pairs {
        answers.push_reserved(entry_read(view, pair));
    }
    Ok(ControlList::from_vec(answers))
}

// A control, as it is read.
fn entry_read<D: Driver>(view: &View<D>, pair: &Pair) -> ExtControl
    requires known { pair.now.control < length view.now.plan.controls }
    ensures { result ≡ entry_read view.now.plan view.now.parts pair.now }
{
    let value = value_read(view.at.ranges, view.at.values, view.which, pair.control);
    ExtControl {
        id: view.at.plan.control(pair.control).id(),
        value,
    }
}

// The value that a control is read with.
fn value_read(ranges: &Ranges, values: &[CtrlValue], which: Which, control: u32) -> CtrlValue
    requires ranges { control < length ranges.now }
    requires values { control < length values.now }
    ensures { result ≡ value_read ranges.now values.now which control }
{
    match which {
        Which::Defaults => ranges.range(control).default_as_value(),
        Which::Current | Which::Class(_) | Which::Request => values[control as usize],
    }
}

// Judges what a list that writes asks for.
fn judge_list<D: Driver>(
    alloc: Global,
    view: &View<D>,
    is_set: bool,
    list: &ControlList,
    room: &mut Room,
    work: &mut Work,
) -> Result<Touched, Refusal>
    ensures ok { OnOk result (first_refusal (write_checks D.verdict view.now.plan view.now.parts is_set list.now) ≡ None) }
    ensures answers { IfOk result (λ touch. touch.answers ≡ entries_judged D.verdict view.now.plan view.now.parts list.now) }
    ensures touched { IfOk result (λ touch. IsTouched D.verdict view.now.plan view.now.parts list.now touch) }
    ensures err { IfErr result (λ refusal. (first_refusal (write_checks D.verdict view.now.plan view.now.parts is_set list.now) ≡ Some refusal) ⊎ (IsTrue (may_lack list.now) × (refusal ≡ memory_refusal))) }
    ensures at_most { work.new.asked ≤ work.old.asked + list_asks view.now.plan view.now.parts is_set list.now }
    ensures asked { OnOk result (work.new.asked ≡ with_calls (judged_count view.now.plan (touched view.now.plan (pairs_of view.now.plan view.now.parts.handler view.now.parts.which list.now))) work.old.asked) }
    ensures told { work.new.told ≡ work.old.told }
{
    check_whole(view, list)?;
    if list.is_empty() {
        return Ok(Touched::empty(alloc, room));
    }
    // the pairs of a set are kept with its step
    if is_set && room.size_pairs(alloc, list.as_slice().len()).is_err() {
        return Err(Refusal::of_memory());
    }
    pairs_of(view, list.as_slice(), &mut room.pairs)?;
    if let Some(refusal) = first_unwritable(view, is_set, room.pairs.as_slice()) {
        return Err(refusal);
    }
    judge_pairs(alloc, view, room, work)
}

// Judges what the pairs of a list that writes ask for. They lie in the room.
fn judge_pairs<D: Driver>(
    alloc: Global,
    view: &View<D>,
    room: &mut Room,
    work: &mut Work,
) -> Result<Touched, Refusal>
    requires few { length room.old.pairs.items ≤ MAX_ENTRIES }
    requires known { All (λ p. p.control < length view.now.plan.controls) room.old.pairs.items }
    ensures ok { IfOk result (λ touch. at_first (judging_check D.verdict view.now.plan view.now.parts (view.now.parts.asked ++ room.old.pairs.items)) room.old.pairs.items ≡ None) }
    ensures pairs { IfOk result (λ touch. touch.pairs ≡ room.old.pairs.items) }
    ensures rows { IfOk result (λ touch. AreJudged D.verdict view.now.plan view.now.parts.ranges view.now.parts.values (view.now.parts.asked ++ room.old.pairs.items) room.old.pairs.items touch.rows) }
    ensures answers { IfOk result (λ touch. touch.answers ≡ map (entry_judged D.verdict view.now.plan view.now.parts (view.now.parts.asked ++ room.old.pairs.items)) room.old.pairs.items) }
    ensures err { IfErr result (λ refusal. (at_first (judging_check D.verdict view.now.plan view.now.parts (view.now.parts.asked ++ room.old.pairs.items)) room.old.pairs.items ≡ Some refusal) ⊎ (refusal ≡ memory_refusal)) }
    ensures at_most { work.new.asked ≤ work.old.asked + length (touched view.now.plan room.old.pairs.items) }
    ensures asked { OnOk result (work.new.asked ≡ with_calls (judged_count view.now.plan (touched view.now.plan room.old.pairs.items)) work.old.asked) }
    ensures told { work.new.told ≡ work.old.told }
{
    let answers = judge_joined(
        alloc,
        view,
        room.pairs.as_slice(),
        &mut room.laid,
        &mut room.rows,
        work,
    )?;
    Ok(Touched {
        rows: room.take_rows(alloc),
        answers,
        pairs: room.take_pairs(alloc),
    })
}

// The rows and the answers, where the pairs are laid over the values behind those from before.
#[tactic(auto, using(crate::proofs::TouchLemmas::own_among, crate::proofs::TouchLemmas::more_among))]
fn judge_joined<D: Driver>(
    alloc: Global,
    view: &View<D>,
    pairs: &[Pair],
    laid: &mut Vec<Pair>,
    rows: &mut NewRows,
    work: &mut Work,
) -> Result<ControlList, Refusal>
    requires few { length pairs.now ≤ MAX_ENTRIES }
    requires known { All (λ p. p.control < length view.now.plan.controls) pairs.now }
    ensures ok { IfOk result (λ answers. at_first (judging_check D.verdict view.now.plan view.now.parts (view.now.parts.asked ++ pairs.now)) pairs.now ≡ None) }
    ensures rows { OnOk result (AreJudged D.verdict view.now.plan view.now.parts.ranges view.now.parts.values (view.now.parts.asked ++ pairs.now) pairs.now rows.new.rows) }
    ensures answers { IfOk result (λ answers. answers ≡ map (entry_judged D.verdict view.now.plan view.now.parts (view.now.parts.asked ++ pairs.now)) pairs.now) }
    ensures err { IfErr result (λ refusal. (at_first (judging_check D.verdict view.now.plan view.now.parts (view.now.parts.asked ++ pairs.now)) pairs.now ≡ Some refusal) ⊎ (refusal ≡ memory_refusal)) }
    ensures at_most { work.new.asked ≤ work.old.asked + length (touched view.now.plan pairs.now) }
    ensures asked { OnOk result (work.new.asked ≡ with_calls (judged_count view.now.plan (touched view.now.plan pairs.now)) work.old.asked) }
    ensures told { work.new.told ≡ work.old.told }
{
    if view.asked.is_empty() {
        return judge_under(alloc, view, pairs, pairs, rows, work);
    }
    match join(laid, view.asked, pairs) {
        Ok(()) => judge_under(alloc, view, laid.as_slice(), pairs, rows, work),
        Err(_) => Err(Refusal::of_memory()),
    }
}

// The rows that the clusters get where the pairs `laid` are laid over the values, and what the entries are answered.
fn judge_under<D: Driver>(
    alloc: Global,
    view: &View<D>,
    laid: &[Pair],
    pairs: &[Pair],
    rows: &mut NewRows,
    work: &mut Work,
) -> Result<ControlList, Refusal>
    requires few { length pairs.now ≤ MAX_ENTRIES }
    requires known { All (λ p. p.control < length view.now.plan.controls) pairs.now }
    requires among { All (λ p. IsTrue (is_among laid.now p.control)) pairs.now }
    ensures ok { IfOk result (λ answers. at_first (judging_check D.verdict view.now.plan view.now.parts laid.now) pairs.now ≡ None) }
    ensures rows { OnOk result (AreJudged D.verdict view.now.plan view.now.parts.ranges view.now.parts.values laid.now pairs.now rows.new.rows) }
    ensures answers { IfOk result (λ answers. answers ≡ map (entry_judged D.verdict view.now.plan view.now.parts laid.now) pairs.now) }
    ensures err { IfErr result (λ refusal. (at_first (judging_check D.verdict view.now.plan view.now.parts laid.now) pairs.now ≡ Some refusal) ⊎ (refusal ≡ memory_refusal)) }
    ensures at_most { work.new.asked ≤ work.old.asked + length (touched view.now.plan pairs.now) }
    ensures asked { OnOk result (work.new.asked ≡ with_calls (judged_count view.now.plan (touched view.now.plan pairs.now)) work.old.asked) }
    ensures told { work.new.told ≡ work.old.told }
{
    judge_all(view, laid, pairs, rows, work)?;
    match entries_in(alloc, &view.at, rows, pairs) {
        Ok(answers) => Ok(answers),
        Err(_) => Err(Refusal::of_memory()),
    }
}

// Puts pairs, and others behind them, in place of those that are there.
fn join(all: &mut Vec<Pair>, first: &[Pair], others: &[Pair]) -> Result<(), AllocError>
    ensures { OnOk result (all.new.items ≡ first.now ++ others.now) }
{
    all.clear();
    all.extend_from_slice(first)?;
    all.extend_from_slice(others)
}
