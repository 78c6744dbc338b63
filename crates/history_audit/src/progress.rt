ghost use Rattle.std.specs.Prelude.{◌≡◌};
ghost use Rattle.std.specs.Option.{option_and_then, option_map_or};
ghost use Rattle.ctrl_events.specs.Events.{event_at};
ghost use Rattle.history_audit.specs.Scratch.{events_for, open_events};

use ctrl_events::Event;
use ctrl_types::FhId;
use device_parts::State;
use std::marker::Model;

/// What the first steps of a history made of a device, put aside so that an audit can go on from there. Contracts see it as how many steps these
/// were, and as the state that they made.
#[derive(Drop)]
pub struct Progress {
    // how many were replayed
    pub(crate) count: usize,
    pub(crate) state: State,
}

impl Model for Progress {
    ghost use Rattle.history_audit.specs.Replay.{ProgressData};

    ghost Value = { ProgressData };

    ghost view = { λ p. record { count = p.count; state = p.state } };
}

impl Progress {
    // The event that waits for a file handle at a place, as `Scratch::waiting` tells it.
    pub(crate) fn waiting(&self, fh: FhId, place: usize) -> Option<(u32, Event)>
        ensures { result ≡ option_and_then (λ o. event_at o.waiting place) (events_for (open_events self.now.state.events self.now.state.file_handles) fh) }
    {
        match self.state.handler_of(fh) {
            Some(_) => self.state.events().waiting(fh, place),
            None => None,
        }
    }

    // The number of a file handle's next event, as `Scratch::next_sequence` tells it.
    pub(crate) fn next_sequence(&self, fh: FhId) -> u32
        ensures { result ≡ option_map_or (λ o. o.next) (events_for (open_events self.now.state.events self.now.state.file_handles) fh) 0 }
    {
        match self.state.handler_of(fh) {
            Some(_) => self.state.events().next_sequence(fh),
            None => 0,
        }
    }
}
