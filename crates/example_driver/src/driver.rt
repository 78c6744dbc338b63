//! What the camera's closures answer, and the relations that say so.

ghost use Rattle.std.specs.Prelude.{◌≡◌};
ghost use Rattle.example_driver.specs.Camera.{AreJoined, camera_told, camera_verdict};

use ctrl_calls::{ClusterRow, Notifies, Relation, Validates, Verdict};
use ctrl_types::{CtrlValue, Errno};

/// The driver of the camera. It has no value: it only ties the meanings to the types of the closures.
pub enum Camera {}

impl Validates for Camera {
    type Judge = Box<dyn Fn(ClusterRow) -> Verdict + Send>;

    ghost verdict = { camera_verdict };
}

impl Notifies for Camera {
    type Teller = Box<dyn Fn(ClusterRow) -> u64 + Send>;

    ghost told = { camera_told };
}

/// What the validator of red and blue answers by: blue is at most red and 64.
pub const BLUE_LIMIT: Relation = Relation {
    number: 1,
    bounds: [64, 0, 0, 0],
};

/// What the notifier of mode, time and gain answers by: 0 unless the mode is 1, manual, else the time and the gain.
pub const EXPOSURE_WORDS: Relation = Relation {
    number: 2,
    bounds: [1, 0, 0, 0],
};

/// What the validator of red and blue makes of a row, the values of the two: it is accepted with the lesser of blue and red and 64 in
/// the place of blue. A row of another length is refused with EINVAL.
pub fn blue_verdict(row: &ClusterRow) -> Verdict
    ensures { result ≡ camera_verdict BLUE_LIMIT row.now }
{
    let [CtrlValue::Number(red), CtrlValue::Number(blue)] = row.values() else {
        return Verdict::Refuse(Errno::EINVAL);
    };
    // where the sum doesn't fit, any blue is less
    let most = red.saturating_add(BLUE_LIMIT.bounds[0]);
    if *blue <= most {
        return Verdict::Accept(*row);
    }
    Verdict::Accept(row.with(1, CtrlValue::Number(most)))
}

/// What the notifier of mode, time and gain says of a row, the values of the three: 0 where the mode isn't manual; else the word for
/// the exposure register, 256 times the time and the gain, or 0 where one of them doesn't fit. Of a row of another length it says 0.
pub fn exposure_word(row: &ClusterRow) -> u64
    ensures { camera_told EXPOSURE_WORDS row.now result }
{
    match row.values() {
        [
            CtrlValue::Number(mode),
            CtrlValue::Number(time),
            CtrlValue::Number(gain),
        ] if *mode == EXPOSURE_WORDS.bounds[0] => { joined(*time, *gain) }
        _ => 0,
    }
}

fn joined(time: i64, gain: i64) -> u64
    ensures { AreJoined time gain result }
{
    if time < 0 || time > 65535 || gain < 0 || gain > 255 {
        return 0;
    }
    256 * time as u64 + gain as u64
}
