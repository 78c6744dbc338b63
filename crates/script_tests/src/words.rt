//! The words that the sample's notifiers say of values that its controls don't take, so that no script brings them there.

use ctl_script::{brightness_word, pair_word};
use ctrl_calls::ClusterRow;
use ctrl_types::CtrlValue;

// Values of brightness, each with its word.
const BRIGHTNESS: [(i64, u64); 8] = [
    (i64::MIN, 0),
    (-65, 0),
    (-64, 0),
    (-63, 1),
    (2_147_483_647, 2_147_483_711),
    (2_147_483_648, 2_147_483_712),
    (9_223_372_036_854_775_744, 9_223_372_036_854_775_808),
    (i64::MAX, 9_223_372_036_854_775_871),
];

// Values of red and blue, each two with their word.
const BALANCE: [([i64; 2], u64); 6] = [
    ([2_147_483_647, 2_147_483_647], 551_903_297_279),
    ([0, 2_147_483_647], 2_147_483_647),
    ([0, 2_147_483_648], 0),
    ([2_147_483_648, 0], 0),
    ([-1, 300], 0),
    ([1, -1], 0),
];

fn is_told_of_brightness(value: i64, word: u64) -> bool {
    matches!(ClusterRow::from_slice(&[CtrlValue::Number(value)]), Some(row) if brightness_word(&row) == word)
}

fn is_told_of_balance(values: [i64; 2], word: u64) -> bool {
    let values = values.map(CtrlValue::Number);
    matches!(ClusterRow::from_slice(&values), Some(row) if pair_word(&row) == word)
}

#[test]
fn words_of_values_out_of_range(rt: HostRuntime) {
    for (value, word) in BRIGHTNESS {
        assert!(rt; is_told_of_brightness(value, word), "{value}");
    }
    for (values, word) in BALANCE {
        assert!(rt; is_told_of_balance(values, word), "{values:?}");
    }
}
