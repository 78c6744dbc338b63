//! What the loads are asked of.

use ctrl_calls::Driver;
use ctrl_types::RequestId;
use device_state::{Ask, Device, Reply};

/// A device, as far as the loads know it.
pub trait Asked {
    /// Makes an ask, and answers how many were refused, 0 or 1.
    fn ask(&mut self, ask: &Ask) -> u32;

    /// Makes a request; none where that is refused.
    fn new_request(&mut self) -> Option<RequestId>;

    /// The request whose frame is begun next; none where none waits.
    fn first_queued(&self) -> Option<RequestId>;

    /// How many steps are kept.
    fn step_count(&self) -> usize;
}

impl<D: Driver> Asked for Device<D> {
    fn ask(&mut self, ask: &Ask) -> u32 {
        match self.handle(0, ask) {
            Ok(_) => 0,
            Err(_) => 1,
        }
    }

    fn new_request(&mut self) -> Option<RequestId> {
        match self.handle(0, &Ask::Alloc) {
            Ok(Reply::Request(request, ..)) => Some(request),
            _ => None,
        }
    }

    fn first_queued(&self) -> Option<RequestId> {
        self.queued(0)
    }

    fn step_count(&self) -> usize {
        self.steps().len()
    }
}
