//! What the words for calls at the desk ask for.

use crate::counter::Ask;

/// How the object is called.
#[derive(Clone, Copy)]
pub enum Way {
    /// At a desk.
    Desk,
    /// Behind a `Mutex`.
    Mutex,
}

impl Way {
    /// The way that a word says.
    pub fn read(word: &str) -> Option<Way> {
        match word {
            "desk" => Some(Way::Desk),
            "mutex" => Some(Way::Mutex),
            _ => None,
        }
    }
}

/// What is called, and how often.
#[derive(Clone, Copy)]
pub struct DeskLoad<'a> {
    /// The words for the way and the ask.
    pub words: (&'a str, &'a str),
    /// How the object is called.
    pub way: Way,
    /// What it is asked; None: how many steps there are.
    pub ask: Option<Ask>,
    /// How many calls each thread makes.
    pub calls: u32,
    /// How many threads call.
    pub threads: u32,
}

impl<'a> DeskLoad<'a> {
    /// What four words say: a way, an ask, how many calls, and of how many threads, 1 to 64. None where they say anything else.
    pub fn read(words: &'a [String]) -> Option<DeskLoad<'a>> {
        let [way, ask, calls, threads] = words else {
            return None;
        };
        let words = (way.as_str(), ask.as_str());
        let ask = match words.1 {
            "add" => Some(Ask::Add),
            "read" => Some(Ask::Read),
            "front" => None,
            _ => return None,
        };
        let load = DeskLoad {
            words,
            way: Way::read(words.0)?,
            ask,
            calls: calls.parse::<u32>().ok()?,
            threads: threads.parse::<u32>().ok()?,
        };
        matches!(load.threads, 1..=64).then_some(load)
    }

    /// How many calls all threads make.
    pub fn all(&self) -> u64 {
        u64::from(self.calls) * u64::from(self.threads)
    }
}
