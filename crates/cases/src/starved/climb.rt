//! Which budgets are tried.

/// What a growth is rounded up to, in bytes.
pub const STEP: usize = 16;

/// No case needs more budgets, nor one of its lines.
pub const MOST_RUNS: u32 = 10_000;

/// A budget that rises from nothing: by steps of 16 bytes at first, which double while the same comes of it. Where something else comes of it
/// behind a wider step, it goes back and looks with steps of half the width, down to 16 bytes, where that began.
#[derive(Clone, Copy)]
pub struct Climb {
    budget: usize,
    // the largest of which the same has come, and where that began
    low: usize,
    since: usize,
}

impl Climb {
    /// Nothing.
    pub fn new() -> Climb {
        Climb {
            budget: 0,
            low: 0,
            since: 0,
        }
    }

    /// The budget to be tried.
    pub fn budget(&self) -> usize {
        self.budget
    }

    /// Goes on behind a budget of which the same has come as before.
    pub fn rise(&mut self) {
        self.low = self.budget;
        let climbed = self.low.saturating_sub(self.since);
        self.go(climbed);
    }

    /// Goes on behind one of which something else has come. Whether that began here.
    pub fn turn(&mut self) -> bool {
        let width = self.budget.saturating_sub(self.low);
        let begins = width <= STEP;
        if begins {
            self.low = self.budget;
            self.since = self.budget;
            self.go(STEP);
        } else {
            self.go(width / 2);
        }
        begins
    }

    // A budget that is wider by about so much.
    fn go(&mut self, width: usize) {
        let steps = (width / STEP).max(1);
        self.budget = self.low.saturating_add(steps.saturating_mul(STEP));
    }
}
