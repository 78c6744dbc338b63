//! The word that may be meant by one that is none of those that can stand there.
#![tactic(auto)]

use std::alloc::{AllocError, Global};
use strsim::osa_distance;

// The most bytes of words that are compared letter by letter.
const LONGEST: usize = 64;

/// The nearest to a word of those that were offered.
#[derive(Drop)]
pub struct Nearest<'a, 'g> {
    given: &'g str,
    word: Option<&'a str>,
    far: usize,
}

impl<'a, 'g> Nearest<'a, 'g> {
    /// None yet.
    ///
    /// - `given`: the word that was written.
    pub fn new(given: &'g str) -> Nearest<'a, 'g> {
        Nearest {
            given,
            word: None,
            far: usize::MAX,
        }
    }

    /// Takes a word that may be meant, where it is nearer than those before. The error is that a growth was refused, which leaves those.
    ///
    /// - `word`: one that can stand there.
    pub fn offer(&mut self, alloc: Global, word: &'a str) -> Result<(), AllocError> {
        if let Some(far) = distance(alloc, self.given, word)? {
            if far < self.far {
                self.word = Some(word);
                self.far = far;
            }
        }
        Ok(())
    }

    /// The nearest; none where none is near.
    pub fn word(&self) -> Option<&'a str> {
        self.word
    }
}

/// How far two words are from each other, whatever their capitals, where one may be meant by the other: they differ by few edits; or, which is farther than any of
/// these, one stands within the other. The error is that a growth was refused.
pub fn distance(alloc: Global, given: &str, word: &str) -> Result<Option<usize>, AllocError> {
    let given = given.as_bytes().to_ascii_lowercase(alloc)?;
    let word = word.as_bytes().to_ascii_lowercase(alloc)?;
    let (Ok(given), Ok(word)) = (
        str::from_utf8(given.as_slice()),
        str::from_utf8(word.as_slice()),
    ) else {
        return Ok(None);
    };
    let longer = given.len().max(word.len());
    let shorter = given.len().min(word.len());
    let more = longer.saturating_sub(shorter);
    // one edit in three letters
    let few = longer / 3;
    if longer <= LONGEST && more <= few {
        let edits = osa_distance(alloc, given, word)?;
        if edits <= few {
            return Ok(Some(edits));
        }
    }
    if shorter >= 3 && (given.contains(word) || word.contains(given)) {
        return Ok(Some(LONGEST.saturating_add(more)));
    }
    Ok(None)
}
