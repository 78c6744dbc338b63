//! The word that may be meant by one that is none.

use crate::names::Words;
use near_words::distance;
use script_lines::VERB_WORDS;
use std::alloc::{AllocError, Global};

/// The first word of a command that is nearest to one that was given; none where none is near. The error is that a growth was refused.
pub fn nearest_verb(alloc: Global, given: &[u8]) -> Result<Option<&'static [u8]>, AllocError> {
    let mut nearest = Nearest::to(alloc, given)?;
    for verb in VERB_WORDS {
        nearest.offer(alloc, verb)?;
    }
    Ok(nearest.word)
}

/// The word of a device that is nearest to one that was given; none where none is near. The error is that a growth was refused.
pub fn nearest_word<'a>(
    alloc: Global,
    given: &[u8],
    words: Words<'a>,
) -> Result<Option<&'a [u8]>, AllocError> {
    let mut nearest = Nearest::to(alloc, given)?;
    for control in 0..words.count() {
        if let Some(word) = words.word(control) {
            nearest.offer(alloc, word)?;
        }
    }
    Ok(nearest.word)
}

// The nearest to a word of those that were offered, and how far it is.
#[derive(Drop)]
struct Nearest<'a> {
    // in lower case
    given: Vec<u8>,
    word: Option<&'a [u8]>,
    far: usize,
}

impl<'a> Nearest<'a> {
    fn to(alloc: Global, given: &[u8]) -> Result<Nearest<'a>, AllocError> {
        Ok(Nearest {
            given: given.to_ascii_lowercase(alloc)?,
            word: None,
            far: usize::MAX,
        })
    }

    // Takes a word that is nearer than those before.
    fn offer(&mut self, alloc: Global, word: &'a [u8]) -> Result<(), AllocError> {
        if let Some(far) = far_of(alloc, self.given.as_slice(), word)? {
            if far < self.far {
                self.word = Some(word);
                self.far = far;
            }
        }
        Ok(())
    }
}

// How far two words are from each other, where one may be meant by the other.
fn far_of(alloc: Global, given: &[u8], word: &[u8]) -> Result<Option<usize>, AllocError> {
    match (str::from_utf8(given), str::from_utf8(word)) {
        (Ok(given), Ok(word)) => distance(alloc, given, word),
        _ => Ok(None),
    }
}
