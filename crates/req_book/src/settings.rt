//! What a request asks for, what it got at its begin, and what its frame had.

ghost use Rattle.std.specs.Prelude.{◌≡◌, ◌++◌, ◌<◌, ◌≤◌, length, map, unwrap_or, slice_index, slice_index_or, IfOk, None};
ghost use Rattle.std.specs.List.{range_with_len};
ghost use Rattle.std.specs.Option.{option_or};
ghost use Rattle.ctrl_types.specs.Pairs.{last_value};
ghost use Rattle.req_book.specs.Named.{IsNextNamed};
ghost use Rattle.req_book.specs.Requests.{latest, pair_of, snapshot_of, value_of_control};

use ctrl_types::{CtrlValue, Pair, last_value};
use std::alloc::{AllocError, Global};

/// Of each control the last of some pairs and more behind them, in order of control numbers; the controls have numbers below `controls`.
pub(crate) fn latest(
    alloc: Global,
    controls: u32,
    pairs: &[Pair],
    more: &[Pair],
) -> Result<Vec<Pair>, AllocError>
    ensures { IfOk result (λ all. all.items ≡ latest controls (pairs.now ++ more.now)) }
{
    let mut all = Vec::new(alloc);
    let mut control = next_named(pairs, more, 0, controls);
    while control < controls {
        if let Some(pair) = latest_pair(pairs, more, control) {
            all.push(pair)?;
        }
        control = next_named(pairs, more, control + 1, controls);
    }
    Ok(all)
}

// The next control from one on that some pairs or those behind them give a value, or the end, where none comes before it.
fn next_named(pairs: &[Pair], more: &[Pair], from: u32, end: u32) -> u32
    requires { from ≤ end }
    ensures { IsNextNamed (pairs.now ++ more.now) from end result }
{
    next_of(pairs, from, next_of(more, from, end))
}

// The next control from one on that pairs give a value, or the end, where none comes before it.
fn next_of(pairs: &[Pair], from: u32, end: u32) -> u32
    requires { from ≤ end }
    ensures { IsNextNamed pairs.now from end result }
{
    let mut next = end;
    for pair in pairs {
        if from <= pair.control && pair.control < next {
            next = pair.control;
        }
    }
    next
}

// The last pair of a control.
fn latest_pair(pairs: &[Pair], more: &[Pair], control: u32) -> Option<Pair>
    ensures { result ≡ pair_of control (last_value (pairs.now ++ more.now) control) }
{
    let value = last_value(more, control).or(last_value(pairs, control))?;
    Some(Pair { control, value })
}

/// Gives each of so many controls the last value that pairs give it, where they do.
pub(crate) fn apply(applied: &mut Vec<Option<CtrlValue>>, controls: u32, pairs: &[Pair])
    requires { length applied.old.items ≡ controls }
    ensures { applied.new.items ≡ map (last_value pairs.now) (range_with_len 0 controls) }
{
    for control in 0..controls {
        applied[control as usize] = None;
    }
    for pair in pairs {
        if pair.control < controls {
            applied[pair.control as usize] = Some(pair.value);
        }
    }
}

/// Gives each control the value that it got at the begin, where it did, and else its present one.
pub(crate) fn keep(
    values: &mut Vec<CtrlValue>,
    applied: &[Option<CtrlValue>],
    present: &[CtrlValue],
)
    requires applied { length applied.now ≡ length values.old.items }
    requires present { length present.now ≡ length values.old.items }
    ensures { values.new.items ≡ snapshot_of applied.now present.now }
{
    for control in 0..values.len() {
        values[control] = value_kept(applied, present, control);
    }
}

// The value of a control then.
fn value_kept(applied: &[Option<CtrlValue>], present: &[CtrlValue], control: usize) -> CtrlValue
    requires applied { control < length applied.now }
    requires present { control < length present.now }
    ensures { result ≡ unwrap_or (slice_index_or applied.now control None) (value_of_control present.now control) }
{
    match applied[control] {
        Some(value) => value,
        None => present[control],
    }
}
