//! What a handler shows: how its list is made from those of the handlers that it adds, and how an index of it is made.

ghost use Rattle.std.specs.Prelude.{◌≡◌, ◌<◌, ℕ, length, OnOk, IfOk, IfSome, [], slice_index_or};
ghost use Rattle.std.specs.List.{All, fold};
ghost use Rattle.ctrl_handlers.specs.Visible.{first_with_id, brought, all_brought, IsIndexOf, AreIndexed};

use crate::numbers::NumberList;
use ctrl_settle::Ctrl;
use ctrl_types::CtrlId;
use id_index::IdIndex;
use std::alloc::{AllocError, Global};

/// The first of some controls that has the id.
#[tactic(auto, using(crate::proofs::ListLemmas::find_drop))]
pub(crate) fn first_with_id(controls: &[Ctrl], numbers: &[u32], id: CtrlId) -> Option<u32>
    requires { All (λ c. c < length controls.now) numbers.now }
    ensures first { result ≡ first_with_id controls.now numbers.now id }
    ensures known { IfSome result (λ c. c < length controls.now) }
{
    for &number in numbers {
        if controls[number as usize].id() == id {
            return Some(number);
        }
    }
    None
}

/// An index by id of each of some lists of controls, in their order.
pub(crate) fn indexes(
    alloc: Global,
    controls: &[Ctrl],
    lists: &[NumberList],
) -> Result<Vec<IdIndex>, AllocError>
    requires { All (λ list. All (λ c. c < length controls.now) list) lists.now }
    ensures { IfOk result (λ indexes. AreIndexed controls.now lists.now indexes.items) }
{
    let mut indexes = Vec::with_capacity(alloc, lists.len())?;
    for list in lists {
        let index = index_of(alloc, controls, list.as_slice())?;
        indexes.push_reserved(index);
    }
    Ok(indexes)
}

// An index of some controls by id.
fn index_of(alloc: Global, controls: &[Ctrl], numbers: &[u32]) -> Result<IdIndex, AllocError>
    requires { All (λ c. c < length controls.now) numbers.now }
    ensures { IfOk result (λ index. IsIndexOf controls.now numbers.now index) }
{
    let mut entries = Vec::with_capacity(alloc, numbers.len())?;
    for &number in numbers {
        let ctrl = controls[number as usize];
        entries.push_reserved((ctrl.id().0, number));
    }
    IdIndex::build(alloc, entries.as_slice())
}

/// Brings what each added handler shows into a list, in the order of adding. Where a growth was refused, the list has only
/// some of it.
pub(crate) fn bring_added(
    controls: &[Ctrl],
    shown: &mut NumberList,
    below: &[NumberList],
    added: &[u32],
) -> Result<(), AllocError>
    requires shown { All (λ c. c < length controls.now) shown.old }
    requires below { All (λ list. All (λ c. c < length controls.now) list) below.now }
    requires added { All (λ a. a < length below.now) added.now }
    ensures { OnOk result (shown.new ≡ fold (λ so_far a. all_brought controls.now so_far (slice_index_or below.now a [])) shown.old added.now) }
{
    for &handler in added {
        let list = &below[handler as usize];
        bring_all(controls, shown, list.as_slice())?;
    }
    Ok(())
}

// Brings what one added handler shows into a list.
fn bring_all(controls: &[Ctrl], shown: &mut NumberList, numbers: &[u32]) -> Result<(), AllocError>
    requires shown { All (λ c. c < length controls.now) shown.old }
    requires numbers { All (λ c. c < length controls.now) numbers.now }
    ensures brought { OnOk result (shown.new ≡ all_brought controls.now shown.old numbers.now) }
    ensures known { OnOk result (All (λ c. c < length controls.now) shown.new) }
{
    for &number in numbers {
        bring(controls, shown, number)?;
    }
    Ok(())
}

// Brings one control of an added handler into a list, unless it is left out: it is private, or its id is shown already.
fn bring(controls: &[Ctrl], shown: &mut NumberList, number: u32) -> Result<(), AllocError>
    requires shown { All (λ c. c < length controls.now) shown.old }
    requires number { number < length controls.now }
    ensures brought { OnOk result (shown.new ≡ brought controls.now shown.old number) }
    ensures known { OnOk result (All (λ c. c < length controls.now) shown.new) }
{
    let ctrl = controls[number as usize];
    if ctrl.is_private() || first_with_id(controls, shown.as_slice(), ctrl.id()).is_some() {
        return Ok(());
    }
    shown.push(number)
}
