//! What the clusters of a device are held to, and what is told of them, in words.

ghost use Rattle.std.specs.Prelude.{◌<◌, length};

use crate::words::word_of;
use ctrl_calls::{Driver, Relation};
use data_driver::{Data, Excess, Limit, Word};
use device_state::Plan;
use sample_device::{
    BALANCE_LIMIT, BRIGHTNESS_WORDS, BUTTON_WORDS, GAIN_LIMIT, PAIR_WORDS, Sample,
};
use script_lines::ControlWords;
use std::io::Write;
use view_layout::Page;

/// A driver whose relations can be said in words.
pub trait Explained {
    /// The limit by which a validator with this relation judges; none where it is none.
    fn limit(relation: &Relation) -> Option<Limit>;

    /// The word that a notifier with this relation says; none where it is none.
    fn word(relation: &Relation) -> Option<Word>;
}

impl Explained for Data {
    fn limit(relation: &Relation) -> Option<Limit> {
        Limit::of(relation)
    }

    fn word(relation: &Relation) -> Option<Word> {
        Word::of(relation)
    }
}

// What its closures answer, as docs/SCRIPTS.md has it.
impl Explained for Sample {
    fn limit(relation: &Relation) -> Option<Limit> {
        let most = relation.bounds[0];
        if relation.number == GAIN_LIMIT.number {
            Some(Limit::AtMost {
                member: 1,
                most,
                excess: Excess::Lowered,
            })
        } else if relation.number == BALANCE_LIMIT.number {
            Some(Limit::Sum { most })
        } else {
            None
        }
    }

    fn word(relation: &Relation) -> Option<Word> {
        if relation.number == PAIR_WORDS.number {
            Some(Word::Joined {
                first: 0,
                second: 1,
            })
        } else if relation.number == BUTTON_WORDS.number {
            Some(Word::Constant(1))
        } else if relation.number == BRIGHTNESS_WORDS.number {
            Some(Word::Plus {
                member: 0,
                more: 64,
            })
        } else {
            None
        }
    }
}

/// Puts what a cluster is held to on a page; nothing where it takes each row.
pub fn put_limit<D: Driver + Explained>(
    page: &mut Page,
    known: &ControlWords,
    plan: &Plan<D>,
    cluster: u32,
)
    requires { cluster < length plan.now.clusters }
{
    let Some(validator) = plan.validator(cluster) else {
        return;
    };
    let Some(limit) = D::limit(&validator.relation()) else {
        return;
    };
    let members = Members {
        known,
        numbers: plan.members(cluster),
    };
    page.put("; ");
    match limit {
        Limit::Sum { most } => {
            page.put("the sum");
            put_most(page, Excess::Refused, most);
        }
        Limit::Product {
            first,
            second,
            most,
        } => {
            page.put(members.word(first));
            page.put(" * ");
            page.put(members.word(second));
            put_most(page, Excess::Refused, most);
        }
        Limit::AtMost {
            member,
            most,
            excess,
        } => {
            page.put(members.word(member));
            put_most(page, excess, most);
        }
        Limit::AtMostMember {
            member,
            other,
            margin,
            excess,
        } => {
            page.put(members.word(member));
            page.put(at_most(excess));
            page.put(members.word(other));
            put_more(page, margin);
        }
        Limit::AtMostWhile {
            member,
            most,
            other,
            when,
        } => {
            page.put(members.word(member));
            put_most(page, Excess::Refused, most);
            page.put(" while ");
            page.put(members.word(other));
            page.put(" is ");
            page.put_number(when);
        }
    }
}

/// Puts what is told of a cluster on a page; nothing where nothing is.
pub fn put_told<D: Driver + Explained>(
    page: &mut Page,
    known: &ControlWords,
    plan: &Plan<D>,
    cluster: u32,
)
    requires { cluster < length plan.now.clusters }
{
    let Some(notifier) = plan.notifier(cluster) else {
        return;
    };
    let Some(word) = D::word(&notifier.relation()) else {
        return;
    };
    let members = Members {
        known,
        numbers: plan.members(cluster),
    };
    page.put("; told ");
    match word {
        Word::Joined { first, second } => {
            page.put("256 * ");
            page.put(members.word(first));
            page.put(" + ");
            page.put(members.word(second));
        }
        Word::Plus { member, more } => {
            page.put(members.word(member));
            put_more(page, more);
        }
        Word::Constant(word) => page.put_number(i64::from(word)),
    }
}

// The members of a cluster.
#[derive(Clone, Copy)]
struct Members<'a> {
    known: &'a ControlWords,
    numbers: &'a [u32],
}

impl<'a> Members<'a> {
    // The word of the member at a place.
    fn word(self, place: u8) -> &'a str {
        match self.numbers.get(usize::from(place)) {
            Some(control) => word_of(self.known, *control),
            None => "?",
        }
    }
}

fn at_most(excess: Excess) -> &'static str {
    match excess {
        Excess::Refused => " at most ",
        Excess::Lowered => " lowered to ",
    }
}

fn put_most(page: &mut Page, excess: Excess, most: i64) {
    page.put(at_most(excess));
    page.put_number(most);
}

// A number that is added.
fn put_more(page: &mut Page, more: i64) {
    let size = more.unsigned_abs();
    if more < 0 {
        let _ = write!(page, " - {size}");
    } else if more > 0 {
        let _ = write!(page, " + {size}");
    }
}
