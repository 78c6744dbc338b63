//! What queued frames will have, kept while they wait.

ghost use Rattle.std.specs.Prelude.{◌≡◌, Some, nat_eq, ◌<◌, ◌≤◌, ◌+◌, ◌++◌, ◌∷◌, ◌↔◌, ℕ, List, [], drop, length, option_map, slice_get, IfOk, OnOk, OnErr, IsTrue};
ghost use Rattle.std.specs.List.{All, position, remove};
ghost use Rattle.ctrl_settle.specs.Control.{Control};
ghost use Rattle.ctrl_clusters.specs.Rows.{Grabs, Values};
ghost use Rattle.ctrl_forecast.specs.Boards.{DifferOnlyIn, ValuesDifferOnlyIn, asked_at, board_at, named_clusters, no_board, board_of};
ghost use Rattle.ctrl_forecast.specs.Forecasts.{named_by_frames, touched_by_all, values_behind};
ghost use Rattle.ctrl_forecast.specs.Looks.{seen};
ghost use Rattle.ctrl_forecast.specs.Touched.{touched_count};

use crate::frame::{Frame, Queued};
use crate::lists::{ClusterList, ValueRow};
use crate::renewing::{rejudge_clusters, renew_clusters};
use ctrl_calls::{Driver, Work};
use ctrl_clusters::Moment;
use ctrl_types::{CtrlValue, RequestId};
use std::alloc::{AllocError, Global};
use std::marker::Model;

/// What a queued frame will have (of this project).
#[derive(Debug, Drop)]
pub struct Forecast {
    /// Its request.
    pub request: RequestId,
    /// The number of the request's buffer.
    pub buffer: u32,
    /// The values of all controls, in the order of their numbers.
    pub values: ValueRow,
    /// The clusters that will be refused, rising.
    pub refused: ClusterList,
}

/// What a queued frame will have, as it lies in the board that keeps it (of this project).
#[derive(Clone, Copy)]
pub struct Row<'a> {
    /// Its request.
    pub request: RequestId,
    /// The number of the request's buffer.
    pub buffer: u32,
    /// The values of all controls, in the order of their numbers.
    pub values: &'a [CtrlValue],
    /// The clusters that will be refused, rising.
    pub refused: &'a [u32],
}

impl<'a> Row<'a> {
    /// The same in memory of its own (of this project), which is taken from `alloc`. The error is that a growth was refused.
    pub fn to_forecast(&self, alloc: Global) -> Result<Forecast, AllocError>
        ensures { IfOk result (λ forecast. forecast ≡ seen self.now) }
    {
        let values = Vec::from_slice(alloc, self.values)?;
        let refused = Vec::from_slice(alloc, self.refused)?;
        Ok(Forecast {
            request: self.request,
            buffer: self.buffer,
            values: ValueRow::from_vec(values),
            refused: ClusterList::from_vec(refused),
        })
    }

    // Whether it is seen as another is.
    fn is_like(&self, other: &Row<'_>) -> bool
        ensures { IsTrue result ↔ (seen self.now ≡ seen other.now) }
    {
        (self.request.0, self.buffer, self.values, self.refused)
            == (other.request.0, other.buffer, other.values, other.refused)
    }
}

/// What queued frames will have, in their order, kept while they wait (of this project). Contracts see it as the frames as they were queued, for
/// each of them the clusters with a member among its pairs, and the list of what they will have.
#[derive(Drop)]
pub struct Board {
    frames: Vec<Frame>,
    alloc: Global,
}

impl Model for Board {
    ghost use Rattle.ctrl_forecast.specs.Boards.{BoardData};
    ghost use Rattle.ctrl_forecast.specs.Frames.{board_seen};

    ghost Value = { BoardData };

    ghost view = { λ b. board_seen b.frames.items };
}

impl Board {
    /// No frame is queued (of this project). It takes no memory; other calls take theirs from `alloc`.
    pub fn empty(alloc: Global) -> Board
        ensures { result ≡ no_board }
    {
        Board {
            frames: Vec::new(alloc),
            alloc,
        }
    }

    /// What the frame at a place will have; none where there is none (of this project). It takes no memory.
    ///
    /// - `place`: any place, from 0.
    pub fn row(&self, place: usize) -> Option<Row<'_>>
        ensures { option_map seen result ≡ slice_get self.now.forecasts place }
    {
        match self.frames.get(place) {
            Some(frame) => Some(Row {
                request: frame.request(),
                buffer: frame.buffer(),
                values: frame.values(),
                refused: frame.refused(),
            }),
            None => None,
        }
    }

    /// The place of the first frame of a request; none where it isn't queued (of this project). It takes no memory.
    ///
    /// - `request`: any request.
    pub fn place_of(&self, request: RequestId) -> Option<usize>
        ensures { result ≡ position (λ q. nat_eq request.0 q.request.0) self.now.queued }
    {
        place_in(self.frames.as_slice(), request)
    }

    /// How many frames there are (of this project). It takes no memory.
    pub fn len(&self) -> usize
        ensures forecasts { result ≡ length self.now.forecasts }
        ensures queued { result ≡ length self.now.queued }
    {
        self.frames.len()
    }

    /// Whether the frames of another board have the same requests, buffers, values and refused clusters, in the same order (of this project). It takes no memory.
    ///
    /// - `other`: any board, of whichever plan.
    pub fn is_like(&self, other: &Board) -> bool
        ensures { IsTrue result ↔ (self.now.forecasts ≡ other.now.forecasts) }
    {
        if self.len() != other.len() {
            return false;
        }
        self.is_like_below(other, self.len())
    }

    // Whether the first rows are seen as the same.
    fn is_like_below(&self, other: &Board, count: usize) -> bool
        ensures { IsTrue result ↔ ((place : ℕ) → place < count → slice_get self.now.forecasts place ≡ slice_get other.now.forecasts place) }
    {
        for place in 0..count {
            if !self.is_like_at(other, place) {
                return false;
            }
        }
        true
    }

    // Whether the rows at a place are seen as the same, or there is none on either side.
    fn is_like_at(&self, other: &Board, place: usize) -> bool
        ensures { IsTrue result ↔ (slice_get self.now.forecasts place ≡ slice_get other.now.forecasts place) }
    {
        match (self.row(place), other.row(place)) {
            (Some(own), Some(row)) => own.is_like(&row),
            (None, None) => true,
            _ => false,
        }
    }

    /// Adds a frame behind the others: what it asks for is laid over the values that the last of them leaves, or over those before the first
    /// (of this project).
    ///
    /// - `at`, `work`: as of `overlay`; its values are those before the first frame.
    /// - `queued`: the frame; what it asks for is copied.
    ///
    /// The caller owes that the board was kept with this plan, over these values, under these ranges and grabs. The error is that a
    /// growth was refused; the frames stay as they were. Nobody is told.
    pub fn push<D: Driver>(
        &mut self,
        at: &Moment<D>,
        queued: &Queued<'_>,
        work: &mut Work,
    ) -> Result<(), AllocError>
        requires kept { self.old ≡ board_at D.verdict at.now self.old.queued }
        ensures ok { OnOk result (self.new ≡ board_at D.verdict at.now (self.old.queued ++ queued.now ∷ [])) }
        ensures err { OnErr result (self.new ≡ self.old) }
        ensures asked { work.new.asked ≤ work.old.asked + touched_count at.now.plan.now queued.now.asked }
        ensures grows { work.old.asked ≤ work.new.asked }
        ensures told { work.new.told ≡ work.old.told }
    {
        self.frames.reserve(1)?;
        let behind = Moment {
            plan: at.plan,
            ranges: at.ranges,
            values: self.values_behind(at.values),
            grabs: at.grabs,
        };
        let frame = Frame::new(self.alloc, &behind, queued, work)?;
        self.frames.push_reserved(frame);
        Ok(())
    }

    /// Takes the first frame out, and answers what it will have, and the clusters with a member among its pairs, rising, which alone it changes (of this project).
    /// What the others will have stays as it is: it is what they have over the values that the first one leaves. The caller owes that a frame is queued. It takes
    /// no memory, and asks nobody.
    pub fn begin(&mut self) -> (Forecast, ClusterList)
        requires { 0 < length self.old.queued }
        ensures first { Some result.0 ≡ slice_get self.old.forecasts 0 }
        ensures named { Some result.1 ≡ slice_get self.old.named 0 }
        ensures rest { self.new ≡ record { queued = drop 1 self.old.queued; named = drop 1 self.old.named; forecasts = drop 1 self.old.forecasts } }
    {
        let first = self.frames.remove(0);
        first.into_parts()
    }

    /// Takes the frame at a place out. Behind it only the clusters with a member among its pairs are judged anew, each up to and with the first frame that comes out as
    /// it was: with the same row of the cluster, which is refused or not as it was (of this project).
    ///
    /// - `place`: a place, from 0; the caller owes a frame there.
    /// - `at`: as of `overlay`; its values are those before the first frame.
    /// - `work`: its count `asked` grows by at most one for each cluster that the frame names, a member being among its pairs, and each frame behind it that
    ///   names the cluster too.
    ///
    /// The caller owes that the board was kept with this plan, over these values, under these ranges and grabs. It takes no memory and
    /// refuses nothing. Nobody is told.
    pub fn remove<D: Driver>(&mut self, place: usize, at: &Moment<D>, work: &mut Work)
        requires place { place < length self.old.queued }
        requires kept { self.old ≡ board_at D.verdict at.now self.old.queued }
        ensures frames { self.new ≡ board_at D.verdict at.now (remove self.old.queued place) }
        ensures asked { work.new.asked ≤ work.old.asked + named_by_frames at.now.plan.now (drop (place + 1) self.old.queued) (named_clusters at.now.plan.now (asked_at self.old.queued place)) }
        ensures grows { work.old.asked ≤ work.new.asked }
        ensures told { work.new.told ≡ work.old.told }
    {
        let removed = self.frames.remove(place);
        renew_clusters(&mut self.frames, place, at, removed.named(), work);
    }

    /// Renews some clusters, after the values before the first frame were changed in these clusters (of this project): each in the frames up to and with the first that
    /// comes out as it was, with the same row of the cluster, which is refused or not as it was. The frames behind that one stand over the same values of the cluster.
    ///
    /// - `at`: as of `overlay`, as it is now; its values are those before the first frame.
    /// - `clusters`: the clusters, in any order; the caller owes that each is one of the plan.
    /// - `work`: its count `asked` grows by at most one for each of the clusters and each frame that names it, a member being among its pairs.
    ///
    /// The caller owes that the board was kept with this plan, under these ranges and grabs, over values that differ from these in the clusters alone; after
    /// a change of ranges or grabs call `rejudge`. It takes no memory and refuses nothing. Nobody is told.
    pub fn renew<D: Driver>(&mut self, at: &Moment<D>, clusters: &[u32], work: &mut Work)
        requires clusters { All (λ k. k < length at.now.plan.now.clusters) clusters.now }
        requires kept { (before : Values) × (self.old ≡ board_of D.verdict at.now.plan.now at.now.ranges.now before at.now.grabs.now self.old.queued) × ValuesDifferOnlyIn at.now.plan.now clusters.now before at.now.values.now }
        ensures frames { self.new ≡ board_at D.verdict at.now self.old.queued }
        ensures asked { work.new.asked ≤ work.old.asked + named_by_frames at.now.plan.now self.old.queued clusters.now }
        ensures grows { work.old.asked ≤ work.new.asked }
        ensures told { work.new.told ≡ work.old.told }
    {
        renew_clusters(&mut self.frames, 0, at, clusters, work);
    }

    /// Renews some clusters in all frames, after the ranges, the values before the first frame, or the grabs, were changed in these clusters (of this
    /// project). Where only the values were, `renew` does the same and asks no more.
    ///
    /// - `at`: as of `overlay`, as it is now; its values are those before the first frame.
    /// - `clusters`: the clusters, in any order; the caller owes that each is one of the plan.
    /// - `work`: its count `asked` grows by at most one for each of the clusters and each frame that names it, a member being among its pairs.
    ///
    /// The caller owes that the board was kept with this plan, under ranges and grabs and over values that differ from these in the
    /// clusters alone. It takes no memory and refuses nothing. Nobody is told.
    pub fn rejudge<D: Driver>(&mut self, at: &Moment<D>, clusters: &[u32], work: &mut Work)
        requires clusters { All (λ k. k < length at.now.plan.now.clusters) clusters.now }
        requires kept { (earlier : List Control) × (before : Values) × (held : Grabs) × (self.old ≡ board_of D.verdict at.now.plan.now earlier before held self.old.queued) × DifferOnlyIn at.now.plan.now clusters.now earlier before held at.now.ranges.now at.now.values.now at.now.grabs.now }
        ensures frames { self.new ≡ board_at D.verdict at.now self.old.queued }
        ensures asked { work.new.asked ≤ work.old.asked + named_by_frames at.now.plan.now self.old.queued clusters.now }
        ensures grows { work.old.asked ≤ work.new.asked }
        ensures told { work.new.told ≡ work.old.told }
    {
        rejudge_clusters(&mut self.frames, 0, at, clusters, work);
    }

    /// Takes all frames out (of this project). It takes no memory, and asks nobody.
    pub fn clear(&mut self)
        ensures { self.new ≡ no_board }
    {
        self.frames.clear();
    }

    /// What queued frames will have, in their order: the first over the values that are handed in, each other over those of the one before
    /// (of this project).
    ///
    /// - `alloc`: where the board lies, and what later calls take.
    /// - `at`: as of `overlay`; its values are those before the first frame.
    /// - `queued`: the frames, in the order of the queue.
    /// - `work`: its count `asked` grows by at most one for each frame and each cluster with a member among its pairs.
    ///
    /// The error is that a growth was refused. Nobody is told.
    pub fn compute<D: Driver>(
        alloc: Global,
        at: &Moment<D>,
        queued: &[Queued<'_>],
        work: &mut Work,
    ) -> Result<Board, AllocError>
        ensures frames { IfOk result (λ b. b ≡ board_at D.verdict at.now queued.now) }
        ensures asked { work.new.asked ≤ work.old.asked + touched_by_all at.now.plan.now queued.now }
        ensures told { work.new.told ≡ work.old.told }
    {
        let mut board = Board::empty(alloc);
        for frame in queued {
            board.push(at, frame, work)?;
        }
        Ok(board)
    }

    // The values that the last frame leaves, or those before the first.
    fn values_behind<'a>(&'a self, values: &'a [CtrlValue]) -> &'a [CtrlValue]
        ensures { result.now ≡ values_behind values.now self.now.forecasts }
    {
        match self.frames.last() {
            Some(frame) => frame.values(),
            None => values,
        }
    }
}

// The place of the first frame of a request.
fn place_in(frames: &[Frame], request: RequestId) -> Option<usize>
    ensures { result ≡ position (λ f. nat_eq request.0 f.request.0) frames.now }
{
    frames
        .iter()
        .position(|frame| request.0 == frame.request().0)
}
