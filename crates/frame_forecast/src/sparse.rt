//! Queued frames that keep the values of what they change alone.

ghost use Rattle.std.specs.Prelude.{◌≡◌, ◌<◌, ◌≤◌, ◌==◌, [], ℕ, true, length, nat_lt, slice_set, unwrap_or, IfOk, IfSome};
ghost use Rattle.std.specs.List.{position};
ghost use Rattle.std.specs.Option.{option_map};
ghost use Rattle.range_followers.specs.Followed.{each_followed, passes, source_of};
ghost use Rattle.range_followers.specs.Wanted.{default_from, number_from, wanted_by};
ghost use Rattle.ctrl_handlers.specs.Plan.{AreAmong, IsFinished};
ghost use Rattle.ctrl_clusters.specs.Following.{range_under};
ghost use Rattle.ctrl_clusters.specs.Rows.{value_at as value_of};
ghost use Rattle.ctrl_clusters.specs.Rising.{with_or_without};
ghost use Rattle.frame_forecast.specs.Kept.{IsKeptSparse};
ghost use Rattle.frame_forecast.specs.Sparse.{linked, queued_sparse, value_given, values_upto, with_given};

use crate::board::Begun;
use crate::moving::moved_controls;
use ctrl_calls::Driver;
use ctrl_clusters::{Ranges, mark, reach};
use ctrl_forecast::{ClusterList, Queued, named_clusters};
use ctrl_handlers::Plan;
use ctrl_settle::Ctrl;
use ctrl_types::{CtrlValue, Pair, RequestId};
use range_followers::{DefaultSource, Follower, Source, follower_of, range_wanted};
use std::alloc::{AllocError, Global};
use std::marker::Model;
use std::mem;

/// A queued frame: what it asks for, the clusters with a member among that, those that this can change, the controls that it can move, the value of each of them, and the
/// clusters that are refused.
#[derive(Drop)]
pub(crate) struct SparseFrame {
    request: RequestId,
    buffer: u32,
    asked: Vec<Pair>,
    named: Vec<u32>,
    reached: Vec<u32>,
    moved: Vec<u32>,
    given: Vec<CtrlValue>,
    refused: Vec<u32>,
}

impl Model for SparseFrame {
    ghost use Rattle.std.specs.Prelude.{◌≡◌, ◌≤◌, length, vec_capacity};
    ghost use Rattle.frame_forecast.specs.Sparse.{SparseFrame as FrameData};

    ghost Value = { FrameData };

    ghost view = { λ f. record { request = f.request; buffer = f.buffer; asked = f.asked.items; named = f.named.items; reached = f.reached.items; moved = f.moved.items; given = f.given.items; refused = f.refused.items } };

    ghost invariant = { λ f. (length f.given.items ≡ length f.moved.items) × (length f.named.items ≤ vec_capacity f.refused) };
}

impl SparseFrame {
    /// A frame that refuses nothing yet, and whose values say nothing yet, with room for each cluster that its pairs name among the refused ones. The error is that a growth
    /// was refused.
    pub(crate) fn new<D: Driver>(
        alloc: Global,
        plan: &Plan<D>,
        queued: &Queued<'_>,
    ) -> Result<SparseFrame, AllocError>
        requires { IsFinished plan.now }
        ensures queued { IfOk result (λ f. queued_sparse f ≡ queued.now) }
        ensures kept { IfOk result (IsKeptSparse plan.now) }
        ensures refused { IfOk result (λ f. f.refused ≡ []) }
    {
        let asked = Vec::from_slice(alloc, queued.asked)?;
        let named = named_clusters(alloc, plan, queued.asked)?;
        let mut reached = Vec::new(alloc);
        reach(plan, named.as_slice(), &mut reached)?;
        let moved = moved_controls(alloc, plan, queued.asked)?;
        let mut refused = Vec::new(alloc);
        refused.reserve(named.len())?;
        let given = vec![in alloc; CtrlValue::Number(0); moved.len()]?;
        Ok(SparseFrame {
            request: queued.request,
            buffer: queued.buffer,
            asked,
            named,
            reached,
            moved,
            given,
            refused,
        })
    }

    /// Its request.
    pub(crate) fn request(&self) -> RequestId
        ensures { result ≡ self.now.request }
    {
        self.request
    }

    /// The number of its buffer.
    pub(crate) fn buffer(&self) -> u32
        ensures { result ≡ self.now.buffer }
    {
        self.buffer
    }

    /// The clusters that are refused, rising.
    pub(crate) fn refused(&self) -> &[u32]
        ensures { result.now ≡ self.now.refused }
    {
        self.refused.as_slice()
    }

    /// The clusters that it can change, rising.
    pub(crate) fn reached(&self) -> &[u32]
        ensures { result.now ≡ self.now.reached }
    {
        self.reached.as_slice()
    }

    /// The clusters that it can change, which are taken out of it: none are there then, until they are put back.
    pub(crate) fn take_reached(&mut self, alloc: Global) -> Vec<u32>
        ensures reached { result.items ≡ self.old.reached }
        ensures rest { self.new ≡ record self.old { reached = [] } }
    {
        mem::replace(&mut self.reached, Vec::new(alloc))
    }

    /// Puts the clusters that it can change back.
    pub(crate) fn set_reached(&mut self, reached: Vec<u32>)
        ensures { self.new ≡ record self.old { reached = reached.items } }
    {
        self.reached = reached;
    }

    /// Writes what it gives into values.
    pub(crate) fn write_into(&self, values: &mut Vec<CtrlValue>)
        ensures { values.new.items ≡ linked self.now values.old.items }
    {
        write_given(values, self.moved.as_slice(), self.given.as_slice());
    }

    /// What it leaves with, where it begins.
    pub(crate) fn into_begun(self) -> Begun
        ensures refused { result.refused ≡ self.refused }
        ensures reached { result.reached ≡ self.reached }
    {
        let SparseFrame {
            refused,
            reached,
            ..
        } = self;
        Begun {
            refused: ClusterList::from_vec(refused),
            reached: ClusterList::from_vec(reached),
        }
    }

    /// The value that it gives a control, where it gives one.
    pub(crate) fn value(&self, control: u32) -> Option<CtrlValue>
        ensures { result ≡ value_given self.now control }
    {
        match place_of(self.moved.as_slice(), control) {
            Some(place) => Some(self.given[place]),
            None => None,
        }
    }

    /// Gives a control another value, where it gives it one.
    pub(crate) fn set_given(&mut self, control: u32, value: CtrlValue)
        ensures { self.new ≡ with_given self.old control value }
    {
        if let Some(place) = place_of(self.moved.as_slice(), control) {
            self.given[place] = value;
        }
    }

    /// What it asks for.
    pub(crate) fn asked(&self) -> &[Pair]
        ensures { result.now ≡ self.now.asked }
    {
        self.asked.as_slice()
    }

    /// Has a cluster refused or not. It takes no memory.
    pub(crate) fn set_refused(&mut self, cluster: u32, is_refused: bool)
        requires room { length (with_or_without cluster is_refused self.old.refused) ≤ length self.old.named }
        ensures { self.new ≡ record self.old { refused = with_or_without cluster is_refused self.old.refused } }
    {
        mark(&mut self.refused, cluster, is_refused);
    }
}

// Gives controls the values that stand in the place of theirs; of two places of one control the first counts, so it is written last.
fn write_given(values: &mut Vec<CtrlValue>, moved: &[u32], given: &[CtrlValue])
    requires { length given.now ≡ length moved.now }
    ensures long { length values.new.items ≡ length values.old.items }
    ensures each { (c : ℕ) → c < length values.old.items → value_of values.new.items c ≡ unwrap_or (option_map (value_of given.now) (position (λ k. k == c) moved.now)) (value_of values.old.items c) }
{
    let mut left = moved.len();
    while left > 0 {
        left -= 1;
        write_where(values, moved[left], &given[left]);
    }
}

// Gives a control a value, where there is one of its number.
#[tactic(auto, using(std::proofs::lemmas::List::set_past))]
fn write_where(values: &mut Vec<CtrlValue>, control: u32, value: &CtrlValue)
    ensures { values.new.items ≡ slice_set values.old.items control value.now }
{
    if (control as usize) < values.len() {
        values[control as usize] = *value;
    }
}

// The first place of a control among some.
fn place_of(controls: &[u32], control: u32) -> Option<usize>
    ensures place { result ≡ position (λ k. k == control) controls.now }
    ensures within { IfSome result (λ place. place < length controls.now) }
{
    controls.iter().position(|other| *other == control)
}

/// The value of a control before the frame at a place, where these values stand before the first.
#[tactic(auto, using(crate::proofs::SparseLemmas::value_here, crate::proofs::SparseLemmas::value_passed))]
pub(crate) fn value_before(
    frames: &[SparseFrame],
    place: usize,
    values: &[CtrlValue],
    control: u32,
) -> CtrlValue
    requires place { place ≤ length frames.now }
    requires control { control < length values.now }
    ensures { result ≡ value_of (values_upto values.now frames.now place) control }
{
    let mut left = place;
    while left > 0 {
        left -= 1;
        if let Some(value) = frames[left].value(control) {
            return value;
        }
    }
    values[control as usize]
}

// What is asked of a bound that follows, before the frame at a place.
fn number_before(
    frames: &[SparseFrame],
    place: usize,
    values: &[CtrlValue],
    source: &Source,
) -> i128
    requires place { place ≤ length frames.now }
    requires source { source.now.control < length values.now }
    ensures { result ≡ number_from (values_upto values.now frames.now place) source.now }
{
    let value = value_before(frames, place, values, source.control);
    i128::from(value.number()) + i128::from(source.plus)
}

// The same, where it follows something.
fn bound_before(
    frames: &[SparseFrame],
    place: usize,
    values: &[CtrlValue],
    source: Option<Source>,
) -> Option<i128>
    requires place { place ≤ length frames.now }
    requires source { passes (λ s. nat_lt s (length values.now)) source ≡ true }
    ensures { result ≡ option_map (number_from (values_upto values.now frames.now place)) source }
{
    match source {
        Some(source) => Some(number_before(frames, place, values, &source)),
        None => None,
    }
}

// What a default is nearest to, before the frame at a place.
fn default_before(
    frames: &[SparseFrame],
    place: usize,
    values: &[CtrlValue],
    source: DefaultSource,
) -> i128
    requires place { place ≤ length frames.now }
    requires source { passes (λ s. nat_lt s (length values.now)) (source_of source) ≡ true }
    ensures { result ≡ default_from (values_upto values.now frames.now place) source }
{
    match source {
        DefaultSource::Number(number) => i128::from(number),
        DefaultSource::Value(source) => number_before(frames, place, values, &source),
    }
}

// The range that a control has before the frame at a place, where it follows so.
fn wanted_before(
    frames: &[SparseFrame],
    place: usize,
    values: &[CtrlValue],
    ctrl: &Ctrl,
    follower: &Follower,
) -> Ctrl
    requires place { place ≤ length frames.now }
    requires sources { each_followed (λ s. nat_lt s (length values.now)) follower.now ≡ true }
    ensures { result ≡ unwrap_or (wanted_by ctrl.now (values_upto values.now frames.now place) follower.now) ctrl.now }
{
    let minimum = bound_before(frames, place, values, follower.minimum);
    let maximum = bound_before(frames, place, values, follower.maximum);
    let default_value = default_before(frames, place, values, follower.default_value);
    range_wanted(ctrl, minimum, maximum, default_value).unwrap_or(*ctrl)
}

/// The range that a control has before the frame at a place: the one that is wanted for the values there, where it follows, and else its own.
///
/// - `followers`: how ranges follow, each a control that has a value, as what it follows has.
#[tactic(auto, using(crate::proofs::SparseLemmas::sources_among))]
pub(crate) fn range_before(
    followers: &[Follower],
    ranges: &Ranges,
    frames: &[SparseFrame],
    place: usize,
    values: &[CtrlValue],
    control: u32,
) -> Ctrl
    requires followers { AreAmong (length values.now) followers.now }
    requires place { place ≤ length frames.now }
    requires control { control < length ranges.now }
    ensures { result ≡ range_under followers.now ranges.now (values_upto values.now frames.now place) control }
{
    let ctrl = ranges.range(control);
    match follower_of(followers, control) {
        Some(follower) => wanted_before(frames, place, values, ctrl, &follower),
        None => *ctrl,
    }
}
