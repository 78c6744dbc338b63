ghost use Rattle.std.specs.Prelude.{◌≡◌};

use ctrl_calls::Driver;
use ctrl_clusters::Moment;
use ctrl_types::{Pair, Which};
use std::marker::Model;

/// What a list of controls is checked against. Contracts see it as the plan, and as these parts.
pub struct View<'a, D: Driver> {
    pub(crate) handler: u32,
    pub(crate) which: Which,
    pub(crate) at: Moment<'a, D>,
    pub(crate) asked: &'a [Pair],
}

impl<'a, D: Driver> Model for View<'a, D> {
    ghost use Rattle.ctrl_lists.specs.Lists.{ListData};

    ghost Value = { ListData };

    ghost view = { λ v. record { plan = v.at.plan.now; parts = record { handler = v.handler; which = v.which; ranges = v.at.ranges.now; values = v.at.values.now; grabs = v.at.grabs.now; asked = v.asked.now } } };
}

impl<'a, D: Driver> Drop for View<'a, D> {
    fn drop(self) {
        let View {
            handler: _,
            which: _,
            at: _,
            asked: _,
        } = self;
    }
}

impl<'a, D: Driver> View<'a, D> {
    /// A view of these parts. It takes no memory and refuses nothing.
    ///
    /// - `handler`: the number of the handler that shows the controls; one that isn't there shows none.
    /// - `which`: which values the list speaks of (Linux userspace API, "struct v4l2_ext_controls").
    /// - `at`: the moment, with the present values, or what a request that is read from keeps.
    /// - `asked`: the pairs that are laid over the values before those of a list that writes, the oldest first: what a request was asked
    ///   before. They are laid whatever `which` says; a pair of a control that isn't there counts for nothing.
    pub fn new(handler: u32, which: Which, at: Moment<'a, D>, asked: &'a [Pair]) -> View<'a, D>
        ensures { result ≡ record { plan = at.entry.plan.now; parts = record { handler = handler; which = which; ranges = at.entry.ranges.now; values = at.entry.values.now; grabs = at.entry.grabs.now; asked = asked.now } } }
    {
        View {
            handler,
            which,
            at,
            asked,
        }
    }
}
