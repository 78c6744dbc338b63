//! Which commands take memory.

use crate::starved::lines::word;
use script_lines::VERB_WORDS;

// The commands that take none.
const TAKE_NONE: [&[u8]; 4] = [b"query", b"next", b"told", b"state"];

/// Which commands found no memory on the device of a file, another than the sample device, that has a notifier.
#[derive(Drop)]
pub struct Wanting {
    refused: [bool; VERB_WORDS.len()],
}

impl Wanting {
    /// None.
    pub fn new() -> Wanting {
        Wanting {
            refused: [false; VERB_WORDS.len()],
        }
    }

    /// The command of this line found none. Whether it is one that may take memory.
    ///
    /// - `is_other_told`: whether it was asked of such a device.
    pub fn add(&mut self, line: &[u8], is_other_told: bool) -> bool {
        let Some(verb) = word(line, 0) else {
            return false;
        };
        match VERB_WORDS.iter().position(|one| *one == verb) {
            Some(place) if takes_memory(verb) => {
                if let Some(refused) = self.refused.get_mut(place) {
                    *refused = *refused || is_other_told;
                }
                true
            }
            _ => false,
        }
    }

    /// The first word of a command that takes memory and never wanted it, if there is one.
    pub fn missing(&self) -> Option<&'static [u8]> {
        for (verb, refused) in VERB_WORDS.iter().zip(self.refused.iter()) {
            if takes_memory(*verb) && !*refused {
                return Some(*verb);
            }
        }
        None
    }
}

fn takes_memory(verb: &[u8]) -> bool {
    !TAKE_NONE.iter().any(|none| *none == verb)
}
