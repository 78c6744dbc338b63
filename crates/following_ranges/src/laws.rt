//! What follows from the definitions. Each law is the contract of a function that does nothing.

ghost use Rattle.std.specs.Prelude.{◌≡◌, ℕ, Bool, List, [], false};
ghost use Rattle.ctrl_calls.specs.Meanings.{Verdicts};
ghost use Rattle.device_history.specs.declared.ask.Ask.{Ask};
ghost use Rattle.device_history.specs.Refusals.{Answer};
ghost use Rattle.device_state.specs.Device.{DeviceData};
ghost use Rattle.range_followers.specs.declared.follower.Follower.{Follower};
ghost use Rattle.following_ranges.specs.Following.{HandlesAndFollows, is_accepted_change};
ghost use Rattle.following_ranges.specs.declared.asking.RangeAsk.{RangeAsk};

/// Behind an ask that is no accepted change nothing is asked for, and what is owed stays: so behind one that is refused, behind a get, a try, and a set that is stored in a request.
#[tactic(auto, using(crate::proofs::QuietLemmas::quiet))]
pub fn quiet_asks()
    ensures { (verdicts : Verdicts) (followers : List Follower) (old new : DeviceData) (owed owed_then : Bool) (seat : ℕ) (ask : Ask) (answer : Answer) (asked : List RangeAsk)
        → HandlesAndFollows verdicts followers old new owed owed_then seat ask answer asked → is_accepted_change ask answer ≡ false → (asked ≡ []) × (owed_then ≡ owed) }
{}
