ghost use Rattle.std.specs.Prelude.{◌≡◌, ◌<◌, ℕ, OnOk, OnErr};
ghost use Rattle.std.specs.List.{All};
ghost use Rattle.ctrl_handlers.specs.Plan.{no_handler, owning, adding};

use crate::numbers::NumberList;
use std::alloc::{AllocError, Global};
use std::marker::Model;

/// A handler: its own controls, in the order of their declaration, and the handlers that it adds, in the order of adding.
#[derive(Drop)]
pub struct Handler {
    own: NumberList,
    added: NumberList,
}

impl Model for Handler {
    ghost use Rattle.ctrl_handlers.specs.HandlerData.{HandlerData};

    ghost Value = { HandlerData };

    ghost view = { λ h. record { own = h.own; added = h.added } };
}

impl Handler {
    /// A handler of nothing.
    pub(crate) fn new(alloc: Global) -> Handler
        ensures { result ≡ no_handler }
    {
        Handler {
            own: NumberList::new(alloc),
            added: NumberList::new(alloc),
        }
    }

    /// Gives it one more control of its own.
    #[tactic(auto, unfolding(crate::specs::Plan::owning))]
    pub(crate) fn own_control(&mut self, control: u32) -> Result<(), AllocError>
        ensures ok { OnOk result (self.new ≡ owning self.old control) }
        ensures err { OnErr result (self.new ≡ self.old) }
    {
        self.own.push(control)
    }

    /// Adds another handler, unless it is added already.
    #[tactic(auto, unfolding(crate::specs::Plan::adding))]
    pub(crate) fn add_handler(&mut self, added: u32) -> Result<(), AllocError>
        ensures ok { OnOk result (self.new ≡ adding self.old added) }
        ensures err { OnErr result (self.new ≡ self.old) }
        ensures own { self.new.own ≡ self.old.own }
        ensures before { (n : ℕ) → All (λ a. a < n) self.old.added → added < n → All (λ a. a < n) self.new.added }
    {
        if self.added.as_slice().contains(&added) {
            return Ok(());
        }
        self.added.push(added)
    }

    /// Its own controls.
    pub(crate) fn own(&self) -> &[u32]
        ensures { result.now ≡ self.now.own }
    {
        self.own.as_slice()
    }

    /// The handlers that it adds.
    pub(crate) fn added(&self) -> &[u32]
        ensures { result.now ≡ self.now.added }
    {
        self.added.as_slice()
    }
}
