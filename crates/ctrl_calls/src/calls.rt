ghost use Rattle.std.specs.Prelude.{◌≡◌};

use crate::driver::Driver;
use crate::notifier::Notifier;
use crate::relation::Relations;
use crate::validator::Validator;
use std::marker::Model;

/// The calls of a cluster into its driver, each where there is one (Linux driver API, "V4L2 Controls", "Control
/// Clusters"). Contracts see it as the relations of the two.
pub struct Calls<D: Driver> {
    /// Asked before a row is set; a cluster without one takes each row as it is.
    pub validator: Option<Validator<D>>,
    /// Told after a change.
    pub notifier: Option<Notifier<D>>,
}

impl<D: Driver> Model for Calls<D> {
    ghost use Rattle.ctrl_calls.specs.declared.relation.Relations.{Relations as RelationsOf};

    ghost Value = { RelationsOf };

    ghost view = { λ c. record { validator = c.validator; notifier = c.notifier } };
}

impl<D: Driver> Drop for Calls<D> {
    fn drop(self) {
        let Calls {
            validator: _,
            notifier: _,
        } = self;
    }
}

impl<D: Driver> Calls<D> {
    /// The relations that the two answer by.
    pub fn relations(&self) -> Relations
        ensures { result ≡ self.now }
    {
        Relations {
            validator: self.validator.as_ref().map(|v| v.relation()),
            notifier: self.notifier.as_ref().map(|n| n.relation()),
        }
    }
}
