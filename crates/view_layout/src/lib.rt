//! How a script is laid out for people: pages, lines of at most 100 columns, and the marks of a table of queued frames. It knows nothing of devices; only
//! a page takes memory.
#![tactic(auto)]

mod cell;
mod layout;
mod page;

pub use cell::{Cell, Look, Mark, put_cell, put_look, put_missed, put_wanted};
pub use layout::{
    INDENT, Ink, Line, WIDTH, put_command, put_folded, put_plain, put_skipped, put_spaces,
};
pub use page::Page;
