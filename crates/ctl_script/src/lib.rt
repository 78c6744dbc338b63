//! The run of a script on a device: names and what they stand for, what a command asks, and the lines in order; and the board of what the
//! queued frames will have.
#![tactic(auto)]

mod ask;
mod auditing;
mod binding;
mod board;
mod fault;
mod input;
mod names;
mod run;

pub use ask::ask_of;
pub use auditing::{audit_of, compared};
pub use binding::Binding;
pub use board::run_board;
pub use fault::InputFault;
pub use input::{MAX_INPUT, MAX_READS, read_input};
pub use names::Bindings;
pub use run::{first_line, run_script, with_line, without_line};
pub use sample_device::{
    BALANCE_LIMIT, BRIGHTNESS_WORDS, BUTTON_WORDS, GAIN_LIMIT, PAIR_WORDS, Sample, array_builder,
    balance_verdict, brightness_word, button_word, gain_verdict, own_sample_plan, pair_word,
    sample_builder, sample_plan, sample_words,
};
pub use script_lines::ControlWords;
pub use script_replies::{Audited, Outcome};
