//! The sample device: its plan, the words that name its controls, what its driver means by its relations, and what its closures
//! answer.
#![tactic(auto)]

mod driver;
mod plan;
mod words;

pub use driver::{
    BALANCE_LIMIT, BRIGHTNESS_WORDS, BUTTON_WORDS, GAIN_LIMIT, Judge, PAIR_WORDS, Sample, Teller,
    balance_verdict, brightness_word, button_word, gain_verdict, pair_word,
};
pub use plan::{array_builder, own_sample_plan, sample_builder, sample_plan};
pub use words::sample_words;
