//! What is wrong with a file that describes a device: which table, which key, and how; and the same for people, with its line. docs/DEVICES.md has all the words.
#![tactic(auto)]

mod advice;
mod explaining;
mod fault;
mod key;
mod lines;
mod place;
mod problem;
mod schema;
mod syntax;

pub use explaining::{explain, key_words};
pub use fault::{FileFault, KeyFault};
pub use key::Key;
pub use lines::line_of;
pub use place::Place;
pub use problem::{Problem, Sort};
pub use schema::{
    AT_MOST_KEYS, AT_MOST_MEMBER_KEYS, AT_MOST_WHILE_KEYS, CLASS_KEYS, CLUSTER_KEYS, CONSTANT_KEYS,
    CONTROL_KEYS, FILE_KEYS, HANDLER_KEYS, JOINED_KEYS, PLUS_KEYS, PRODUCT_KEYS, SOURCE_KEYS,
    SUM_KEYS,
};
