//! What a list of controls speaks of.

ghost use Rattle.std.specs.Prelude.{◌≡◌, Some};
ghost use Rattle.ctrl_types.specs.Classes.{which_of};
ghost use Rattle.req_book.specs.Requests.{RequestData};
ghost use Rattle.device_history.specs.Lists.{meant, request_check, which_or, writes_defaults};

use ctrl_types::{Check, RequestId, Which};
use frame_queue::RequestState;

/// The request that a list speaks of (Linux userspace API, "Request API"); none where `which` doesn't speak of one, or can't be read, which
/// refuses the list.
///
/// - `which`: the values that are meant, any `u32`.
/// - `request`: the request that came with the list.
pub fn spoken(which: u32, request: Option<RequestId>) -> Option<RequestId>
    ensures { result ≡ meant (which_or (which_of which)) request }
{
    match Which::of(which) {
        Ok(which) => meant(which, request),
        Err(_) => None,
    }
}

/// The same, where `which` was read.
///
/// - `which`: the values that are meant.
/// - `request`: the request that came with the list.
pub fn meant(which: Which, request: Option<RequestId>) -> Option<RequestId>
    ensures { result ≡ meant which request }
{
    match which {
        Which::Request => request,
        Which::Current | Which::Class(_) | Which::Defaults => None,
    }
}

/// Whether a list is to write the defaults, which none can (Linux userspace API, "struct v4l2_ext_controls").
///
/// - `writes`: whether the list writes.
/// - `which`: the values that are meant.
pub fn writes_defaults(writes: bool, which: Which) -> bool
    ensures { result ≡ writes_defaults writes which }
{
    match which {
        Which::Defaults => writes,
        Which::Current | Which::Class(_) | Which::Request => false,
    }
}

/// Why a request refuses a list, by its state (Linux userspace API, "Request API"): for a list that writes it isn't idle, for one that reads
/// it isn't complete.
///
/// - `writes`: whether the list writes.
/// - `state`: the state of the request that the list speaks of.
pub fn state_check(writes: bool, state: RequestState) -> Option<Check>
    ensures { (r : RequestData) → r.state ≡ state → result ≡ request_check writes (Some r) }
{
    if writes {
        match state {
            RequestState::Idle => None,
            RequestState::Queued | RequestState::Running | RequestState::Complete => {
                Some(Check::ListRequestNotIdle)
            }
        }
    } else {
        match state {
            RequestState::Complete => None,
            RequestState::Idle | RequestState::Queued | RequestState::Running => {
                Some(Check::ListRequestNotComplete)
            }
        }
    }
}
