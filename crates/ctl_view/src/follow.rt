//! Ranges that follow other controls: what the device asks for by itself, and which frames may have another range than their forecast.

use crate::frame::frame_at;
use ctrl_calls::Driver;
use device_state::Device;
use following_ranges::{DefaultSource, Follower, RangeAsk, Source};
use range_followers::have_moved;
use script_lines::ControlWords;
use std::io::Write;
use view_layout::Page;
use view_words::word_of;

/// Puts on a page a range change that the device asked for by itself, as a script would say it, and its answer.
pub fn put_range_ask(page: &mut Page, known: &ControlWords, asked: &RangeAsk) {
    let wanted = &asked.wanted;
    page.put("the device asks: range ");
    page.put(word_of(known, asked.control));
    let _ = write!(
        page,
        " {} {} {} {}: ",
        wanted.minimum(),
        wanted.maximum(),
        wanted.step(),
        wanted.default_value()
    );
    match asked.refusal {
        None => page.put("ok"),
        Some(fault) => {
            let number = fault.errno.number();
            let _ = write!(
                page,
                "refused: {number} {:?}; it is asked again",
                fault.errno
            );
        }
    }
}

/// Whether a frame stands behind one that moves what some range follows: then its own ranges may be others than its forecast has.
pub fn is_behind_a_move<D: Driver>(
    device: &Device<D>,
    followers: &[Follower],
    place: usize,
) -> bool {
    !followers.is_empty() && (0..place).any(|place| moves(device, followers, place))
}

// Whether the frame at a place moves what some range follows.
fn moves<D: Driver>(device: &Device<D>, followers: &[Follower], place: usize) -> bool {
    let frame = frame_at(device, place);
    have_moved(followers, frame.before, frame.behind)
}

/// Puts on a page how a control follows others.
pub fn put_follower(page: &mut Page, known: &ControlWords, follower: &Follower) {
    page.put("range of ");
    page.put(word_of(known, follower.control));
    let mut between = ": ";
    let default_value = match follower.default_value {
        DefaultSource::Value(source) => Some(source),
        DefaultSource::Number(_) => None,
    };
    let bounds = [
        ("min", follower.minimum),
        ("max", follower.maximum),
        ("default", default_value),
    ];
    for (key, source) in bounds {
        if let Some(source) = source {
            page.put(between);
            put_source(page, known, key, source);
            between = ", ";
        }
    }
    page.put("\n");
}

fn put_source(page: &mut Page, known: &ControlWords, key: &str, source: Source) {
    page.put(key);
    page.put(" follows ");
    page.put(word_of(known, source.control));
    if source.plus < 0 {
        let _ = write!(page, " - {}", source.plus.unsigned_abs());
    } else if source.plus > 0 {
        let _ = write!(page, " + {}", source.plus);
    }
}
