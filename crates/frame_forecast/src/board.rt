//! What queued frames will have, kept while they wait.

ghost use Rattle.std.specs.Prelude.{◌≡◌, nat_eq, ◌<◌, ◌≤◌, ◌+◌, ◌-◌, ◌++◌, ◌∷◌, ◌↔◌, ℕ, List, [], drop, length, map, option_map, slice_get, slice_set, IfOk, OnOk, OnErr, IsTrue};
ghost use Rattle.std.specs.List.{All, position, remove, sum_by};
ghost use Rattle.ctrl_clusters.specs.ControlsData.{DifferIn};
ghost use Rattle.ctrl_clusters.specs.Following.{AreAtRest, IsReach, ranges_under, reached_clusters};
ghost use Rattle.ctrl_clusters.specs.Moments.{parts, parts_after};
ghost use Rattle.ctrl_forecast.specs.Boards.{asked_at};
ghost use Rattle.frame_forecast.specs.Boards.{DifferOnlyIn, IsBoard, IsRoomFor, queued_in};
ghost use Rattle.ctrl_forecast.specs.Forecasts.{named_by_frames, touched_by_all};
ghost use Rattle.frame_forecast.specs.Kept.{IsKeptSparse};
ghost use Rattle.ctrl_forecast.specs.Boards.{named_clusters};
ghost use Rattle.frame_forecast.specs.Renewal.{AreRenewed, AreRenewingBehind};
ghost use Rattle.frame_forecast.specs.Seen.{all_seen, seen};
ghost use Rattle.frame_forecast.specs.Sparse.{linked, queued_sparse, sparse_at, touched_among, values_upto, worked_out};
ghost use Rattle.ctrl_forecast.specs.Touched.{touched_count};

use crate::behind::Behind;
use crate::ending::{load_before, load_reached, renew_until};
use crate::renewal::{renew_frame, renew_frames};
use crate::room::JudgingRoom;
use crate::sparse::SparseFrame;
use ctrl_calls::{Driver, Work};
use ctrl_clusters::{Change, Moment};
use ctrl_forecast::{ClusterList, Forecast, Queued, ValueRow};
use ctrl_handlers::Plan;
use ctrl_types::{CtrlValue, RequestId};
use std::alloc::{AllocError, Global};
use std::marker::Model;

/// What a queued frame will have, as it is read off the board that keeps it (of this project).
#[derive(Drop)]
pub struct Row<'a> {
    /// Its request.
    pub request: RequestId,
    /// The number of the request's buffer.
    pub buffer: u32,
    /// The values of all controls.
    pub values: Behind<'a>,
    /// The clusters that will be refused, rising.
    pub refused: &'a [u32],
}

impl<'a> Row<'a> {
    // Whether it is seen as another is, of as many controls.
    fn is_like(&self, other: &Row<'_>) -> bool
        requires same { length self.now.values ≡ length other.now.values }
        requires few { length self.now.values ≤ 4294967295 }
        ensures { IsTrue result ↔ (seen self.now ≡ seen other.now) }
    {
        (self.request.0, self.buffer, self.refused)
            == (other.request.0, other.buffer, other.refused)
            && self.values.is_like(&other.values)
    }

    /// The same in memory of its own (of this project), which is taken from `alloc`. The error is that a growth was refused.
    pub fn to_forecast(&self, alloc: Global) -> Result<Forecast, AllocError>
        ensures { IfOk result (λ forecast. forecast ≡ seen self.now) }
    {
        let values = self.values.to_values(alloc)?;
        let refused = Vec::from_slice(alloc, self.refused)?;
        Ok(Forecast {
            request: self.request,
            buffer: self.buffer,
            values: ValueRow::from_vec(values),
            refused: ClusterList::from_vec(refused),
        })
    }
}

/// What the first frame leaves with, where it begins (of this project).
#[derive(Drop)]
pub struct Begun {
    /// The clusters that are refused, rising.
    pub refused: ClusterList,
    /// The clusters that it can change, rising: those with a member among its pairs, and what is reached from them.
    pub reached: ClusterList,
}

/// What queued frames will have, in their order, kept while they wait (of this project). Of each frame it keeps what its pairs can change alone; all else is as the frame
/// before leaves it, and the first stands over the present values, which are handed in. Contracts see it as the frames with what is kept of them, and room to judge them in.
#[derive(Drop)]
pub struct Board {
    frames: Vec<SparseFrame>,
    room: JudgingRoom,
    alloc: Global,
}

impl Model for Board {
    ghost use Rattle.frame_forecast.specs.Boards.{BoardData};

    ghost Value = { BoardData };

    ghost view = { λ b. record { frames = b.frames.items; room = b.room } };
}

impl Board {
    /// No frame is queued (of this project).
    ///
    /// - `alloc`: where the board lies, and what later calls take.
    /// - `plan`: what the device is built of.
    ///
    /// The error is that a growth was refused.
    pub fn new<D: Driver>(alloc: Global, plan: &Plan<D>) -> Result<Board, AllocError>
        ensures frames { IfOk result (λ b. b.frames ≡ []) }
        ensures room { IfOk result (λ b. IsRoomFor plan.now b.room) }
    {
        Ok(Board {
            frames: Vec::new(alloc),
            room: JudgingRoom::new(alloc, plan)?,
            alloc,
        })
    }

    /// What the frame at a place will have; none where there is none (of this project). It takes no memory.
    ///
    /// - `place`: any place, from 0.
    /// - `values`: the values before the first frame.
    pub fn row<'a>(&'a self, place: usize, values: &'a [CtrlValue]) -> Option<Row<'a>>
        ensures { option_map seen result ≡ slice_get (all_seen values.now self.now.frames) place }
    {
        match self.frames.get(place) {
            Some(frame) => Some(Row {
                request: frame.request(),
                buffer: frame.buffer(),
                values: Behind::of(self.frames.as_slice(), place + 1, values),
                refused: frame.refused(),
            }),
            None => None,
        }
    }

    /// The values that so many frames leave (of this project). It takes no memory.
    ///
    /// - `count`: how many; the caller owes as many frames.
    /// - `values`: the values before the first frame.
    pub fn behind<'a>(&'a self, count: usize, values: &'a [CtrlValue]) -> Behind<'a>
        requires { count ≤ length self.now.frames }
        ensures { result ≡ values_upto values.now self.now.frames count }
    {
        Behind::of(self.frames.as_slice(), count, values)
    }

    /// The place of the first frame of a request; none where it isn't queued (of this project). It takes no memory.
    ///
    /// - `request`: any request.
    pub fn place_of(&self, request: RequestId) -> Option<usize>
        ensures { result ≡ position (λ q. nat_eq request.0 q.request.0) (queued_in self.now) }
    {
        place_in(self.frames.as_slice(), request)
    }

    /// How many frames there are (of this project). It takes no memory.
    pub fn len(&self) -> usize
        ensures frames { result ≡ length self.now.frames }
        ensures queued { result ≡ length (queued_in self.now) }
    {
        self.frames.len()
    }

    /// Whether the frames of another board have the same requests, buffers, values and refused clusters, in the same order (of this project). It takes no memory.
    ///
    /// - `values`: the values before the first frame.
    /// - `other`: any board, of whichever plan.
    /// - `others`: the values before its first frame; the caller owes as many, and no more than 4,294,967,295.
    pub fn is_like(&self, values: &[CtrlValue], other: &Board, others: &[CtrlValue]) -> bool
        requires same { length values.now ≡ length others.now }
        requires few { length values.now ≤ 4294967295 }
        ensures { IsTrue result ↔ (all_seen values.now self.now.frames ≡ all_seen others.now other.now.frames) }
    {
        if self.len() != other.len() {
            return false;
        }
        self.is_like_below(values, other, others, self.len())
    }

    /// Adds a frame behind the others: what it asks for is laid over what the last of them leaves, or over what is before the first, and followed (of this project).
    ///
    /// - `at`: the ranges, values and grabs before the first frame.
    /// - `queued`: the frame; what it asks for is copied.
    /// - `work`: its count `asked` grows by at most one for each cluster with a member among the frame's pairs.
    ///
    /// The caller owes that the board was kept at this moment. The error is that a growth was refused; the frames stay as they were. Nobody is told.
    pub fn push<D: Driver>(
        &mut self,
        at: &Moment<D>,
        queued: &Queued<'_>,
        work: &mut Work,
    ) -> Result<(), AllocError>
        requires rest { AreAtRest at.now.plan.now (parts at.now) }
        requires kept { IsBoard D.verdict at.now.plan.now (parts at.now) (queued_in self.old) self.old }
        ensures ok { OnOk result (IsBoard D.verdict at.now.plan.now (parts at.now) (queued_in self.old ++ queued.now ∷ []) self.new) }
        ensures err { OnErr result (self.new ≡ self.old) }
        ensures asked { work.new.asked ≤ work.old.asked + touched_count at.now.plan.now queued.now.asked }
        ensures grows { work.old.asked ≤ work.new.asked }
        ensures told { work.new.told ≡ work.old.told }
    {
        self.frames.reserve(1)?;
        let frame = SparseFrame::new(self.alloc, at.plan, queued)?;
        self.frames.push_reserved(frame);
        renew_last(&mut self.frames, &mut self.room, self.alloc, at, work);
        Ok(())
    }

    /// Takes the first frame out, and writes what it gives into the values before it, which are those behind it then (of this project). What the others will have stays as
    /// it is: it is what they have over these. The caller owes that a frame is queued. It takes no memory, and asks nobody.
    ///
    /// - `values`: the values before the first frame.
    pub fn begin(&mut self, values: &mut Vec<CtrlValue>) -> Begun
        requires { 0 < length self.old.frames }
        ensures values { values.new.items ≡ linked (sparse_at self.old.frames 0) values.old.items }
        ensures refused { result.refused ≡ (sparse_at self.old.frames 0).refused }
        ensures reached { result.reached ≡ (sparse_at self.old.frames 0).reached }
        ensures rest { self.new ≡ record self.old { frames = drop 1 self.old.frames } }
    {
        let first = self.frames.remove(0);
        first.write_into(values);
        first.into_begun()
    }

    /// Takes the frame at a place out. Behind it only the clusters that it can change are renewed: judged anew over the values before each frame, and followed, up to and with
    /// the first frame behind which they stand as before (of this project).
    ///
    /// - `place`: a place, from 0; the caller owes a frame there.
    /// - `at`: the ranges, values and grabs before the first frame.
    /// - `work`: its count `asked` grows by at most one for each cluster that the frame can change, and each frame behind it that names the cluster.
    ///
    /// The caller owes that the board was kept at this moment. It takes no memory and refuses nothing. Nobody is told.
    pub fn remove<D: Driver>(&mut self, place: usize, at: &Moment<D>, work: &mut Work)
        requires rest { AreAtRest at.now.plan.now (parts at.now) }
        requires place { place < length self.old.frames }
        requires kept { IsBoard D.verdict at.now.plan.now (parts at.now) (queued_in self.old) self.old }
        ensures frames { IsBoard D.verdict at.now.plan.now (parts at.now) (remove (queued_in self.old) place) self.new }
        ensures asked { work.new.asked ≤ work.old.asked + named_by_frames at.now.plan.now (drop (place + 1) (queued_in self.old)) (reached_clusters at.now.plan.now (named_clusters at.now.plan.now (asked_at (queued_in self.old) place))) }
        ensures grows { work.old.asked ≤ work.new.asked }
        ensures told { work.new.told ≡ work.old.told }
    {
        let removed = self.frames.remove(place);
        renew_behind(&mut self.frames, &mut self.room, place, &removed, at, work);
    }

    /// Renews some clusters, after values before the first frame were changed in these alone, and ranges with them as far as they follow (of this project): in the frames up to
    /// and with the first behind which they stand as before. The frames behind that one stand over the same values.
    ///
    /// - `change`: the moments before and afterwards, whose values are those before the first frame.
    /// - `clusters`: the clusters; the caller owes that they hold all that is reached from them.
    /// - `work`: its count `asked` grows by at most one for each of the clusters and each frame that names it, a member being among its pairs.
    ///
    /// The caller owes that the board was kept at the moment before, and that no grab and no range that follows nothing differs; after such a change call `rejudge`. It takes
    /// no memory and refuses nothing. Nobody is told.
    pub fn renew<D: Driver>(&mut self, change: &Change<D>, clusters: &[u32], work: &mut Work)
        requires before { AreAtRest change.now.before.plan.now (parts change.now.before) }
        requires after { AreAtRest change.now.before.plan.now (parts_after change.now) }
        requires clusters { IsReach change.now.before.plan.now clusters.now }
        requires ranges { change.now.ranges.now ≡ ranges_under change.now.before.plan.now.followers change.now.before.ranges.now change.now.values.now }
        requires values { DifferIn change.now.before.plan.now clusters.now change.now.before.values.now change.now.values.now }
        requires grabs { change.now.grabs.now ≡ change.now.before.grabs.now }
        requires kept { IsBoard D.verdict change.now.before.plan.now (parts change.now.before) (queued_in self.old) self.old }
        ensures frames { IsBoard D.verdict change.now.before.plan.now (parts_after change.now) (queued_in self.old) self.new }
        ensures asked { work.new.asked ≤ work.old.asked + named_by_frames change.now.before.plan.now (queued_in self.old) clusters.now }
        ensures grows { work.old.asked ≤ work.new.asked }
        ensures told { work.new.told ≡ work.old.told }
    {
        let over = Moment {
            plan: change.before.plan,
            ranges: change.before.ranges,
            values: change.values,
            grabs: change.grabs,
        };
        let room = &mut self.room;
        load_before(
            &mut room.spare,
            self.frames.as_slice(),
            0,
            change.before.values,
            change.before.plan,
            clusters,
        );
        renew_until(
            &mut self.frames,
            0,
            &over,
            &mut room.values,
            &mut room.ranges,
            &mut room.spare,
            clusters,
            work,
        );
    }

    /// Renews some clusters in all frames, after ranges, values or grabs before the first frame were changed in these alone (of this project). Where only values were, `renew`
    /// does the same and asks no more.
    ///
    /// - `change`, `clusters`, `work`: as of `renew`.
    ///
    /// The caller owes that the board was kept at the moment before. It takes no memory and refuses nothing. Nobody is told.
    pub fn rejudge<D: Driver>(&mut self, change: &Change<D>, clusters: &[u32], work: &mut Work)
        requires before { AreAtRest change.now.before.plan.now (parts change.now.before) }
        requires after { AreAtRest change.now.before.plan.now (parts_after change.now) }
        requires clusters { IsReach change.now.before.plan.now clusters.now }
        requires within { DifferOnlyIn change.now.before.plan.now clusters.now (parts change.now.before) (parts_after change.now) }
        requires kept { IsBoard D.verdict change.now.before.plan.now (parts change.now.before) (queued_in self.old) self.old }
        ensures frames { IsBoard D.verdict change.now.before.plan.now (parts_after change.now) (queued_in self.old) self.new }
        ensures asked { work.new.asked ≤ work.old.asked + named_by_frames change.now.before.plan.now (queued_in self.old) clusters.now }
        ensures grows { work.old.asked ≤ work.new.asked }
        ensures told { work.new.told ≡ work.old.told }
    {
        let over = Moment {
            plan: change.before.plan,
            ranges: change.ranges,
            values: change.values,
            grabs: change.grabs,
        };
        let room = &mut self.room;
        renew_frames(
            &mut self.frames,
            0,
            &over,
            &mut room.values,
            &mut room.ranges,
            clusters,
            work,
        );
    }

    /// Takes all frames out (of this project). It takes no memory, and asks nobody.
    pub fn clear(&mut self)
        ensures { self.new ≡ record self.old { frames = [] } }
    {
        self.frames.clear();
    }

    /// What queued frames will have, in their order: the first over what is handed in, each other over what the one before leaves (of this project).
    ///
    /// - `alloc`: where the board lies, and what later calls take.
    /// - `at`: the ranges, values and grabs before the first frame.
    /// - `queued`: the frames, in the order of the queue.
    /// - `work`: its count `asked` grows by at most one for each frame and each cluster with a member among its pairs.
    ///
    /// The error is that a growth was refused. Nobody is told.
    pub fn compute<D: Driver>(
        alloc: Global,
        at: &Moment<D>,
        queued: &[Queued<'_>],
        work: &mut Work,
    ) -> Result<Board, AllocError>
        requires { AreAtRest at.now.plan.now (parts at.now) }
        ensures frames { IfOk result (IsBoard D.verdict at.now.plan.now (parts at.now) queued.now) }
        ensures asked { work.new.asked ≤ work.old.asked + touched_by_all at.now.plan.now queued.now }
        ensures told { work.new.told ≡ work.old.told }
    {
        let mut board = Board::new(alloc, at.plan)?;
        for frame in queued {
            board.push(at, frame, work)?;
        }
        Ok(board)
    }

    // Whether the first rows are seen as the same.
    fn is_like_below(
        &self,
        values: &[CtrlValue],
        other: &Board,
        others: &[CtrlValue],
        count: usize,
    ) -> bool
        requires same { length values.now ≡ length others.now }
        requires few { length values.now ≤ 4294967295 }
        ensures { IsTrue result ↔ ((place : ℕ) → place < count → slice_get (all_seen values.now self.now.frames) place ≡ slice_get (all_seen others.now other.now.frames) place) }
    {
        for place in 0..count {
            if !self.is_like_at(values, other, others, place) {
                return false;
            }
        }
        true
    }

    // Whether the rows at a place are seen as the same, or there is none on either side.
    fn is_like_at(
        &self,
        values: &[CtrlValue],
        other: &Board,
        others: &[CtrlValue],
        place: usize,
    ) -> bool
        requires same { length values.now ≡ length others.now }
        requires few { length values.now ≤ 4294967295 }
        ensures { IsTrue result ↔ (slice_get (all_seen values.now self.now.frames) place ≡ slice_get (all_seen others.now other.now.frames) place) }
    {
        match (self.row(place, values), other.row(place, others)) {
            (Some(own), Some(row)) => own.is_like(&row),
            (None, None) => true,
            _ => false,
        }
    }
}

// The place of the first frame of a request.
fn place_in(frames: &[SparseFrame], request: RequestId) -> Option<usize>
    ensures { result ≡ position (λ f. nat_eq request.0 f.request.0) frames.now }
{
    frames
        .iter()
        .position(|frame| request.0 == frame.request().0)
}

// Works out the last frame, over what those before it leave.
fn renew_last<D: Driver>(
    frames: &mut Vec<SparseFrame>,
    room: &mut JudgingRoom,
    alloc: Global,
    at: &Moment<D>,
    work: &mut Work,
)
    requires some { 0 < length frames.old.items }
    requires room { IsRoomFor at.now.plan.now room.old }
    requires kept { IsKeptSparse at.now.plan.now (sparse_at frames.old.items (length frames.old.items - 1)) }
    ensures frames { frames.new.items ≡ slice_set frames.old.items (length frames.old.items - 1) (worked_out D.verdict at.now.plan.now (parts at.now) (values_upto at.now.values.now frames.old.items (length frames.old.items - 1)) (sparse_at frames.old.items (length frames.old.items - 1))) }
    ensures room { IsRoomFor at.now.plan.now room.new }
    ensures asked { work.new.asked ≤ work.old.asked + touched_count at.now.plan.now (sparse_at frames.old.items (length frames.old.items - 1)).asked }
    ensures grows { work.old.asked ≤ work.new.asked }
    ensures told { work.new.told ≡ work.old.told }
{
    let place = frames.len() - 1;
    let last = &mut frames[place];
    let reached = last.take_reached(alloc);
    renew_frame(
        frames,
        place,
        at,
        &mut room.values,
        &mut room.ranges,
        reached.as_slice(),
        work,
    );
    let last = &mut frames[place];
    last.set_reached(reached);
}

// Renews what a frame that was taken out could change in the frames from its place on.
fn renew_behind<D: Driver>(
    frames: &mut Vec<SparseFrame>,
    room: &mut JudgingRoom,
    place: usize,
    removed: &SparseFrame,
    at: &Moment<D>,
    work: &mut Work,
)
    requires place { place ≤ length frames.old.items }
    requires room { IsRoomFor at.now.plan.now room.old }
    requires known { All (λ k. k < length at.now.plan.now.clusters) removed.now.reached }
    requires ready { AreRenewingBehind D.verdict at.now.plan.now removed.now at.now.ranges.now at.now.grabs.now at.now.values.now frames.old.items place }
    ensures frames { AreRenewed D.verdict at.now.plan.now at.now.ranges.now at.now.grabs.now at.now.values.now frames.old.items frames.new.items place }
    ensures room { IsRoomFor at.now.plan.now room.new }
    ensures asked { work.new.asked ≤ work.old.asked + sum_by (λ f. touched_among at.now.plan.now f.asked removed.now.reached) (drop place frames.old.items) }
    ensures grows { work.old.asked ≤ work.new.asked }
    ensures told { work.new.told ≡ work.old.told }
{
    load_before(
        &mut room.spare,
        frames.as_slice(),
        place,
        at.values,
        at.plan,
        removed.reached(),
    );
    load_reached(&mut room.spare, removed, at.plan, removed.reached());
    renew_until(
        frames,
        place,
        at,
        &mut room.values,
        &mut room.ranges,
        &mut room.spare,
        removed.reached(),
        work,
    );
}
