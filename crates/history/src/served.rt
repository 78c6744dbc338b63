ghost use Rattle.std.specs.Prelude.{◌≡◌, [], ◌++◌, length, List, Option};
ghost use Rattle.history.specs.declared.entry.Entry.{Entry as EntryOf};
ghost use Rattle.history.specs.Past.{entered};

/// What answers asks one at a time and keeps the steps that it accepted.
pub trait Served {
    /// What is fixed for good.
    type Plan;

    /// What an accepted ask adds to the history.
    type Step;

    /// What a caller asks.
    type Ask;

    /// What it is told, refusals included.
    type Answer;

    /// Its plan.
    ghost plan: { Self → Self.Plan };

    /// The steps that it accepted, oldest first.
    ghost steps: { Self → List (EntryOf Self.Step) };

    /// The history can come about under the plan.
    ghost is_legal: { Self.Plan → List (EntryOf Self.Step) → Type 0 };

    /// The answer may be given to the ask after these steps.
    ghost answers: { Self.Plan → List (EntryOf Self.Step) → Self.Ask → Self.Answer → Type 0 };

    /// The step that the ask adds after these steps where this is its answer, if it adds one.
    ghost taken: { Self.Plan → List (EntryOf Self.Step) → Self.Ask → Self.Answer → Option Self.Step };

    /// Answers an ask of the seat with this number. The steps grow by the step that it took, if it took one.
    fn handle(&mut self, seat: u32, ask: &Self::Ask) -> Self::Answer
        ensures plan { plan self.new ≡ plan self.old }
        ensures answer { answers (plan self.old) (steps self.old) ask.now result }
        ensures steps { steps self.new ≡ steps self.old ++ entered seat (taken (plan self.old) (steps self.old) ask.now result) }
        ensures legal { is_legal (plan self.new) (steps self.new) };

    /// How many steps it has accepted.
    fn step_count(&self) -> u64
        ensures { result ≡ length (steps self.now) };

    /// The empty history can come about.
    ghost starts: { (p : Self.Plan) → is_legal p [] };
}
