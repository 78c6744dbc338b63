//! A queued frame that is kept, with what it will have.

ghost use Rattle.std.specs.Prelude.{◌≡◌, ◌<◌, ◌≤◌, ◌+◌, false, not, cond, length, nat_eq, slice_set, IfOk};
ghost use Rattle.std.specs.List.{All, list_any};
ghost use Rattle.ctrl_types.specs.Values.{is_same};
ghost use Rattle.ctrl_handlers.specs.Plan.{members};
ghost use Rattle.ctrl_clusters.specs.Rows.{row_of, value_at};
ghost use Rattle.ctrl_clusters.specs.Rising.{with_or_without};
ghost use Rattle.ctrl_forecast.specs.Frames.{forecast_of, frame_over, with_row_result};
ghost use Rattle.ctrl_forecast.specs.Touched.{touched_count};
ghost use Rattle.ctrl_forecast.specs.Unchanged.{are_same_values, is_same_outcome};

use crate::applying::is_one_of;
use crate::board::Forecast;
use crate::laying::{Overlaid, overlay_named};
use crate::lists::{ClusterList, ValueRow};
use crate::rising::named_clusters;
use ctrl_calls::{Driver, RowValues, Work};
use ctrl_clusters::{Moment, mark, write_row};
use ctrl_handlers::Plan;
use ctrl_types::{CtrlValue, Pair, RequestId};
use std::alloc::{AllocError, Global};
use std::marker::Model;

/// A queued frame (of this project). Contracts see it as its parts.
#[derive(Drop)]
pub struct Queued<'a> {
    /// The request.
    pub request: RequestId,
    /// The number of its buffer.
    pub buffer: u32,
    /// What it asks for; of a control the last pair counts.
    pub asked: &'a [Pair],
}

impl<'a> Model for Queued<'a> {
    ghost use Rattle.ctrl_forecast.specs.Forecasts.{QueuedData};

    ghost Value = { QueuedData };

    ghost view = { λ q. record { request = q.request; buffer = q.buffer; asked = q.asked.now } };
}

impl<'a> Queued<'a> {
    /// The frame of a request that is queued (of this project). It takes no memory.
    ///
    /// - `request`: the request.
    /// - `buffer`: the number of its buffer.
    /// - `asked`: what it asks for; of a control the last pair counts.
    pub fn new(request: RequestId, buffer: u32, asked: &'a [Pair]) -> Queued<'a>
        ensures { result ≡ record { request = request; buffer = buffer; asked = asked.now } }
    {
        Queued {
            request,
            buffer,
            asked,
        }
    }
}

// A queued frame, with what it will have. Whatever its clusters are, there is room for each that its pairs name among the refused ones.
#[derive(Drop)]
pub(crate) struct Frame {
    request: RequestId,
    buffer: u32,
    asked: Vec<Pair>,
    named: Vec<u32>,
    values: Vec<CtrlValue>,
    refused: Vec<u32>,
}

impl Model for Frame {
    ghost use Rattle.std.specs.Prelude.{◌≤◌, length, vec_capacity};
    ghost use Rattle.ctrl_forecast.specs.Frames.{FrameData};

    ghost Value = { FrameData };

    ghost view = { λ f. record { request = f.request; buffer = f.buffer; asked = f.asked.items; named = f.named.items; values = f.values.items; refused = f.refused.items } };

    ghost invariant = { λ f. length f.named.items ≤ vec_capacity f.refused };
}

impl Frame {
    ghost use Rattle.std.specs.Prelude.{◌≡◌, ◌<◌, ◌≤◌, ◌+◌, length, IfOk};

    // A frame over values, with room for each cluster that its pairs name. The error is that a growth was refused.
    pub(crate) fn new<D: Driver>(
        alloc: Global,
        at: &Moment<D>,
        queued: &Queued<'_>,
        work: &mut Work,
    ) -> Result<Frame, AllocError>
        ensures frame { IfOk result (λ f. f ≡ frame_over D.verdict at.now.plan.now at.now.ranges.now at.now.values.now at.now.grabs.now queued.now) }
        ensures asked { work.new.asked ≤ work.old.asked + touched_count at.now.plan.now queued.now.asked }
        ensures grows { work.old.asked ≤ work.new.asked }
        ensures told { work.new.told ≡ work.old.told }
    {
        let asked = Vec::from_slice(alloc, queued.asked)?;
        let named = named_clusters(alloc, at.plan, queued.asked)?;
        let overlaid = overlay_named(alloc, at, queued.asked, named.as_slice(), work)?;
        let Overlaid { values, refused } = overlaid;
        let mut refused = refused.into_vec();
        refused.reserve(named.len())?;
        Ok(Frame {
            request: queued.request,
            buffer: queued.buffer,
            asked,
            named,
            values: values.into_vec(),
            refused,
        })
    }

    pub(crate) fn request(&self) -> RequestId
        ensures { result ≡ self.now.request }
    {
        self.request
    }

    pub(crate) fn buffer(&self) -> u32
        ensures { result ≡ self.now.buffer }
    {
        self.buffer
    }

    pub(crate) fn asked(&self) -> &[Pair]
        ensures { result.now ≡ self.now.asked }
    {
        self.asked.as_slice()
    }

    pub(crate) fn named(&self) -> &[u32]
        ensures { result.now ≡ self.now.named }
    {
        self.named.as_slice()
    }

    pub(crate) fn values(&self) -> &[CtrlValue]
        ensures { result.now ≡ self.now.values }
    {
        self.values.as_slice()
    }

    pub(crate) fn refused(&self) -> &[u32]
        ensures { result.now ≡ self.now.refused }
    {
        self.refused.as_slice()
    }

    // What the frame will have, and the clusters that it names, with the memory that they lie in.
    pub(crate) fn into_parts(self) -> (Forecast, ClusterList)
        ensures forecast { result.0 ≡ forecast_of self }
        ensures named { result.1 ≡ self.named }
    {
        let Frame {
            request,
            buffer,
            asked: _,
            named,
            values,
            refused,
        } = self;
        let forecast = Forecast {
            request,
            buffer,
            values: ValueRow::from_vec(values),
            refused: ClusterList::from_vec(refused),
        };
        (forecast, ClusterList::from_vec(named))
    }

    // Gives a cluster a row that was settled, and has it not refused, where it isn't so; answers whether it wasn't. Else nothing is written. It takes no memory.
    pub(crate) fn replace_row<D: Driver>(
        &mut self,
        plan: &Plan<D>,
        cluster: u32,
        row: &RowValues,
    ) -> bool
        requires values { length self.old.values ≡ length plan.now.controls }
        requires cluster { cluster < length plan.now.clusters }
        requires row { length row.now ≡ length (members plan.now cluster) }
        requires room { length (with_or_without cluster false self.old.refused) ≤ length self.old.named }
        ensures changed { result ≡ not (is_same_outcome (row_of self.old.values (members plan.now cluster)) (list_any (nat_eq cluster) self.old.refused) row.now false) }
        ensures frame { self.new ≡ cond result (with_row_result plan.now cluster row.now false self.old) self.old }
    {
        if self.has_settled(plan, cluster, row) {
            return false;
        }
        self.set_row(plan, cluster, row);
        true
    }

    // Whether a cluster has a row, and isn't refused.
    fn has_settled<D: Driver>(&self, plan: &Plan<D>, cluster: u32, row: &RowValues) -> bool
        requires values { length self.now.values ≡ length plan.now.controls }
        requires cluster { cluster < length plan.now.clusters }
        requires row { length row.now ≡ length (members plan.now cluster) }
        ensures { result ≡ is_same_outcome (row_of self.now.values (members plan.now cluster)) (list_any (nat_eq cluster) self.now.refused) row.now false }
    {
        has_row(self.values.as_slice(), plan.members(cluster), row)
            && self.is_marked(cluster, false)
    }

    // Gives a cluster a row, and has it not refused. It takes no memory.
    fn set_row<D: Driver>(&mut self, plan: &Plan<D>, cluster: u32, row: &RowValues)
        requires values { length self.old.values ≡ length plan.now.controls }
        requires cluster { cluster < length plan.now.clusters }
        requires row { length row.now ≡ length (members plan.now cluster) }
        requires room { length (with_or_without cluster false self.old.refused) ≤ length self.old.named }
        ensures { self.new ≡ with_row_result plan.now cluster row.now false self.old }
    {
        write_row(plan, &mut self.values, cluster, row);
        self.set_refused(cluster, false);
    }

    // Whether a cluster has the row of other values, and is refused where it is to be.
    pub(crate) fn has_values_of<D: Driver>(
        &self,
        plan: &Plan<D>,
        cluster: u32,
        values: &[CtrlValue],
        is_refused: bool,
    ) -> bool
        requires own { length self.now.values ≡ length plan.now.controls }
        requires values { length values.now ≡ length plan.now.controls }
        requires cluster { cluster < length plan.now.clusters }
        ensures { result ≡ is_same_outcome (row_of self.now.values (members plan.now cluster)) (list_any (nat_eq cluster) self.now.refused) (row_of values.now (members plan.now cluster)) is_refused }
    {
        are_same_at(self.values.as_slice(), values, plan.members(cluster))
            && self.is_marked(cluster, is_refused)
    }

    // Gives a control a value.
    pub(crate) fn set_value(&mut self, control: u32, value: CtrlValue)
        requires { control < length self.old.values }
        ensures { self.new ≡ record self.old { values = slice_set self.old.values control value } }
    {
        self.values[control as usize] = value;
    }

    // Has a cluster refused or not. It takes no memory.
    pub(crate) fn set_refused(&mut self, cluster: u32, is_refused: bool)
        requires room { length (with_or_without cluster is_refused self.old.refused) ≤ length self.old.named }
        ensures { self.new ≡ record self.old { refused = with_or_without cluster is_refused self.old.refused } }
    {
        mark(&mut self.refused, cluster, is_refused);
    }

    // Whether a cluster is refused where it is to be, and else isn't.
    fn is_marked(&self, cluster: u32, is_refused: bool) -> bool
        ensures { result ≡ cond is_refused (list_any (nat_eq cluster) self.now.refused) (not (list_any (nat_eq cluster) self.now.refused)) }
    {
        is_mark(self.refused.as_slice(), cluster, is_refused)
    }
}

// Whether members have the values of a row.
#[tactic(auto, using(crate::proofs::UnchangedLemmas::same_next))]
fn has_row(values: &[CtrlValue], members: &[u32], row: &RowValues) -> bool
    requires known { All (λ c. c < length values.now) members.now }
    requires long { length row.now ≡ length members.now }
    ensures { result ≡ are_same_values (row_of values.now members.now) row.now }
{
    for (place, &member) in members.iter().enumerate() {
        if !has_value(values, member, row, place) {
            return false;
        }
    }
    true
}

// Whether a member has its value of the row.
fn has_value(values: &[CtrlValue], member: u32, row: &RowValues, place: usize) -> bool
    requires known { member < length values.now }
    requires within { place < length row.now }
    ensures { result ≡ is_same (value_at values.now member) (value_at row.now place) }
{
    row.has(place, &values[member as usize])
}

// Whether members have the same values among others.
#[tactic(auto, using(crate::proofs::CopyLemmas::same_at_next))]
fn are_same_at(values: &[CtrlValue], others: &[CtrlValue], members: &[u32]) -> bool
    requires known { All (λ c. c < length values.now) members.now }
    requires others { All (λ c. c < length others.now) members.now }
    ensures { result ≡ are_same_values (row_of values.now members.now) (row_of others.now members.now) }
{
    for &member in members {
        if !is_same_at(values, others, member) {
            return false;
        }
    }
    true
}

// Whether a member has the same value among others.
fn is_same_at(values: &[CtrlValue], others: &[CtrlValue], member: u32) -> bool
    requires known { member < length values.now }
    requires others { member < length others.now }
    ensures { result ≡ is_same (value_at values.now member) (value_at others.now member) }
{
    values[member as usize].is_same(&others[member as usize])
}

// Whether a cluster is among some where it is to be, and else isn't.
fn is_mark(clusters: &[u32], cluster: u32, is_in: bool) -> bool
    ensures { result ≡ cond is_in (list_any (nat_eq cluster) clusters.now) (not (list_any (nat_eq cluster) clusters.now)) }
{
    if is_in {
        is_one_of(clusters, cluster)
    } else {
        !is_one_of(clusters, cluster)
    }
}
