//! Limits and words as data, asked and told through the calls that are made of them.

use crate::values::row_of;
use ctrl_calls::{RowValues, Verdict, Work, ask, tell};
use data_driver::{Excess, Limit, Word, data_calls};

const LOWERED_BEHIND: Limit = Limit::AtMostMember {
    member: 0,
    other: 1,
    margin: -4,
    excess: Excess::Lowered,
};

// A limit, a row, and the row that it accepts in its place.
const LIMITS: &[(Limit, &[i64], &[i64])] = &[
    (Limit::Sum { most: 384 }, &[200, 184], &[200, 184]),
    (
        Limit::Product {
            first: 0,
            second: 2,
            most: 6000,
        },
        &[60, 9, 100],
        &[60, 9, 100],
    ),
    (
        Limit::AtMost {
            member: 1,
            most: 200,
            excess: Excess::Lowered,
        },
        &[900, 201, 7],
        &[900, 200, 7],
    ),
    (LOWERED_BEHIND, &[97, 100], &[96, 100]),
    (
        Limit::AtMostWhile {
            member: 1,
            most: 10,
            other: 0,
            when: 2,
        },
        &[1, 11],
        &[1, 11],
    ),
];

// A word, a row, and what is told of it.
const WORDS: &[(Word, &[i64], u64)] = &[
    (
        Word::Joined {
            first: 0,
            second: 1,
        },
        &[1, 16],
        272,
    ),
    (
        Word::Plus {
            member: 0,
            more: 64,
        },
        &[9, 1],
        73,
    ),
    (Word::Constant(4_294_967_295), &[], 4_294_967_295),
];

// What the validator of a cluster with this limit makes of a row.
fn verdict_on(limit: Limit, row: &RowValues) -> Option<Verdict> {
    let calls = data_calls(8, Some(limit), None).ok()?;
    let mut work = Work::new();
    Some(ask(calls.validator.as_ref()?, row, &mut work))
}

fn word_on(word: Word, row: &RowValues) -> Option<u64> {
    let calls = data_calls(8, None, Some(word)).ok()?;
    let mut work = Work::new();
    Some(tell(calls.notifier.as_ref()?, row.to_cluster_row(), &mut work))
}

#[test]
fn limits_and_words(rt: HostRuntime) {
    for (limit, row, want) in LIMITS {
        let verdict = row_of(row).and_then(|row| verdict_on(*limit, &row));
        let want = row_of(want).map(|row| Verdict::Accept(row.to_cluster_row()));
        let is_read = Limit::of(&limit.relation()) == Some(*limit);
        assert!(rt;
            is_read && verdict.is_some() && verdict == want,
            "{limit:?} {row:?} {verdict:?}"
        );
    }
    for (word, row, want) in WORDS {
        let told = row_of(row).and_then(|row| word_on(*word, &row));
        let is_read = Word::of(&word.relation()) == Some(*word);
        assert!(rt; is_read && told == Some(*want), "{word:?} {row:?} {told:?}");
    }
}
