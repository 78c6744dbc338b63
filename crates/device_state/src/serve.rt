use crate::device::Device;
use ctrl_calls::Driver;
use ctrl_handlers::Plan;
use ctrl_types::Fault;
use device_history::{Ask, Reply, Step};
use history::Served;

impl<D: Driver> Served for Device<D> {
    ghost use Rattle.std.specs.Prelude.{ℕ, List};
    ghost use Rattle.history.specs.Past.{past};
    ghost use Rattle.device_history.specs.Answers.{MayAnswer, taken as step_taken};
    ghost use Rattle.device_history.specs.Legal.{IsLegal, IsLegal-start};
    ghost use Rattle.ctrl_clusters.specs.Notified.{HaveWords};
    ghost use Rattle.device_history.specs.Values.{now};

    type Plan = Plan<D>;

    type Step = Step;

    type Ask = Ask;

    type Answer = Result<Reply, Fault>;

    ghost plan = { λ d. d.plan };

    ghost steps = { λ d. d.steps };

    ghost is_legal = { λ plan steps. IsLegal D.verdict plan (past steps) };

    ghost answers = { λ plan steps ask answer. (words : List ℕ) × HaveWords D.told plan (now D.verdict plan (past steps)) words × MayAnswer D.verdict plan (past steps) words ask answer };

    ghost taken = { λ plan steps ask answer. step_taken D.verdict plan (past steps) ask answer };

    ghost starts = { IsLegal-start D.verdict };

    fn handle(&mut self, seat: u32, ask: &Ask) -> Result<Reply, Fault> {
        // what it keeps is legal and was told, as the contract of `steps` says
        let _before = self.steps();
        let answer = self.handle(seat, ask);
        let _after = self.steps();
        answer
    }

    fn step_count(&self) -> u64 {
        self.steps().len() as u64
    }
}
