//! Frames that wait, and the board that is kept of them.

ghost use Rattle.std.specs.Prelude.{◌≡◌, ◌<◌, length};
ghost use Rattle.ctrl_clusters.specs.Rows.{AreControlsOf};
ghost use Rattle.ctrl_forecast.specs.Boards.{board_of};
ghost use Rattle.part_tests.specs.Verdicts.{ordered_verdict};

use crate::forecast::driver::Ordered;
use ctrl_calls::Work;
use ctrl_clusters::Controls;
use ctrl_forecast::{Board, Forecast, Queued};
use ctrl_handlers::Plan;
use ctrl_types::{CtrlValue, Pair, RequestId};
use std::alloc::{AllocError, Global};

/// A frame that waits: the number of its request and buffer, and what it asks for.
#[derive(Drop)]
pub struct Waiting {
    number: u32,
    asked: Vec<Pair>,
}

/// A plan with its controls as they are before the first frame, the frames that wait, and what is kept of them.
#[derive(Drop)]
pub struct Scene<'a> {
    plan: &'a Plan<Ordered>,
    controls: Controls,
    waiting: Vec<Waiting>,
    board: Board,
    ghost ranged: { AreControlsOf plan.now controls.ranges },
    ghost valued: { length controls.values ≡ length plan.now.controls },
    ghost kept: { board ≡ board_of ordered_verdict plan.now controls.ranges controls.values controls.grabs board.queued },
}

impl<'a> Scene<'a> {
    /// No frame waits, and each control has its default.
    pub fn new(alloc: Global, plan: &'a Plan<Ordered>) -> Result<Scene<'a>, AllocError> {
        Ok(Scene {
            plan,
            controls: Controls::of_plan(alloc, plan)?,
            waiting: Vec::new(alloc),
            board: Board::empty(alloc),
        })
    }

    /// How many frames wait.
    pub fn len(&self) -> usize {
        self.board.len()
    }

    /// How many controls there are.
    pub fn control_count(&self) -> u32
        ensures { result ≡ length self.now.plan.now.controls }
    {
        self.plan.control_count()
    }

    /// A frame comes behind the others. The answer is how many validators may be asked.
    pub fn push(
        &mut self,
        number: u32,
        asked: Vec<Pair>,
        work: &mut Work,
    ) -> Result<u64, AllocError> {
        let bound = touched(self.plan, asked.as_slice());
        self.waiting.reserve(1)?;
        self.board.push(
            &self.controls.at(self.plan),
            &Queued::new(RequestId(number), number, asked.as_slice()),
            work,
        )?;
        self.waiting.push_reserved(Waiting { number, asked });
        Ok(bound)
    }

    /// The first frame begins, where one waits, and leaves its values.
    pub fn begin(&mut self) {
        self.begin_first();
        if self.waiting.len() > 0 {
            self.waiting.remove(0);
        }
    }

    // The same, but the frame stays among those that wait.
    fn begin_first(&mut self) {
        if self.board.len() == 0 {
            return;
        }
        let (first, _) = self.board.begin();
        let Forecast { values, .. } = first;
        self.controls.replace_values(values.into_vec());
    }

    /// The frame at a place is taken out. The answer is how many validators may be asked.
    pub fn remove(&mut self, place: u32, work: &mut Work) -> u64 {
        let place = place as usize;
        if place >= self.board.len() || place >= self.waiting.len() {
            return 0;
        }
        self.board.remove(place, &self.controls.at(self.plan), work);
        let removed = self.waiting.remove(place);
        let behind = self.waiting.len().saturating_sub(place) as u64;
        touched(self.plan, removed.asked.as_slice()).wrapping_mul(behind)
    }

    /// A control gets a value, as a set gives it. The answer is how many validators may be asked.
    pub fn set(
        &mut self,
        alloc: Global,
        control: u32,
        value: CtrlValue,
        work: &mut Work,
    ) -> Result<u64, AllocError>
        requires { control < length self.old.plan.now.controls }
    {
        let cluster = self.plan.cluster_of(control);
        let mut values = Vec::from_slice(alloc, self.controls.values())?;
        values[control as usize] = value;
        self.controls.replace_values(values);
        self.board
            .renew(&self.controls.at(self.plan), &[cluster], work);
        Ok(self.waiting.len() as u64)
    }

    /// A control gets a value, and another is grabbed or let go. The answer is how many validators may be asked.
    pub fn change(
        &mut self,
        control: u32,
        value: CtrlValue,
        other: u32,
        is_grabbed: bool,
        work: &mut Work,
    ) -> u64
        requires control { control < length self.old.plan.now.controls }
        requires other { other < length self.old.plan.now.controls }
    {
        let clusters = [self.plan.cluster_of(control), self.plan.cluster_of(other)];
        let range = *self.controls.range(control);
        self.controls.modify_range(control, range, value);
        self.controls.grab(other, is_grabbed);
        self.board
            .rejudge(&self.controls.at(self.plan), &clusters, work);
        (self.waiting.len() as u64).wrapping_mul(2)
    }

    /// A control gets another maximum, where it can. The answer is how many validators may be asked.
    pub fn narrow(&mut self, control: u32, maximum: i64, work: &mut Work) -> u64
        requires { control < length self.old.plan.now.controls }
    {
        let Ok(narrowed) = self.controls.range(control).with_range(0, maximum, 1, 0) else {
            return 0;
        };
        let value = self.controls.value(control);
        self.controls.modify_range(control, narrowed, value);
        let cluster = self.plan.cluster_of(control);
        self.board
            .rejudge(&self.controls.at(self.plan), &[cluster], work);
        self.waiting.len() as u64
    }

    /// No frame waits any more.
    pub fn clear(&mut self) {
        self.waiting.clear();
        self.board.clear();
    }

    /// Whether what is kept is what is computed anew.
    pub fn is_twin(&self, alloc: Global) -> Result<bool, AllocError> {
        let queued = queued(alloc, self.waiting.as_slice())?;
        let computed = Board::compute(
            alloc,
            &self.controls.at(self.plan),
            queued.as_slice(),
            &mut Work::new(),
        );
        is_like(&self.board, computed)
    }
}

fn queued(alloc: Global, waiting: &[Waiting]) -> Result<Vec<Queued<'_>>, AllocError> {
    let mut queued = Vec::new(alloc);
    for frame in waiting {
        let request = RequestId(frame.number);
        queued.push(Queued::new(request, frame.number, frame.asked.as_slice()))?;
    }
    Ok(queued)
}

fn is_like(board: &Board, computed: Result<Board, AllocError>) -> Result<bool, AllocError> {
    match computed {
        Ok(other) => Ok(board.is_like(&other)),
        Err(error) => Err(error),
    }
}

// How many clusters have a member among pairs.
fn touched(plan: &Plan<Ordered>, pairs: &[Pair]) -> u64 {
    let mut count: u64 = 0;
    for cluster in 0..plan.cluster_count() {
        let members = plan.members(cluster);
        if members
            .iter()
            .any(|member| pairs.iter().any(|pair| pair.control == *member))
        {
            count = count.wrapping_add(1);
        }
    }
    count
}
