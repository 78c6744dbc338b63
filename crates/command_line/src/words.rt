ghost use Rattle.std.specs.Prelude.{◌≡◌, map};
ghost use Rattle.command_line.specs.Words.{is_mode as is_mode_of, words_fault};

use std::convert::AsStr;
use thiserror::Error;

/// What is wrong with a word of a command line.
#[derive(Clone, Copy, Debug, PartialEq, Eq, Error)]
pub enum WordsFault {
    /// There is no word behind the program's name.
    #[error("a word is missing: run, pair or board")]
    Missing,
    /// It is none of the three.
    #[error("none of run, pair and board")]
    Unknown,
    /// One of the three stands before it.
    #[error("a word too many; a script is read from standard input")]
    Further,
}

/// What is wrong with the words of a command line, and the place of the first word that is wrong; the first of the words, at place 0, is the program. None
/// where one of the three stands behind it, and nothing else.
pub fn words_fault<S: AsStr>(words: &[S]) -> Option<(usize, WordsFault)>
    ensures { result ≡ words_fault (map S.text words.now) }
{
    match words {
        [] | [_] => Some((1, WordsFault::Missing)),
        [_, word, ..] if !is_mode(word.as_str()) => Some((1, WordsFault::Unknown)),
        [_, _] => None,
        [_, _, _, ..] => Some((2, WordsFault::Further)),
    }
}

fn is_mode(word: &str) -> bool
    ensures { result ≡ is_mode_of word.now }
{
    word == "run" || word == "pair" || word == "board"
}
