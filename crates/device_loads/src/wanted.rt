//! What the command line asks for.

use crate::asks::Asks;
use crate::desk_wanted::{DeskLoad, Way};
use crate::loads::is_load;

/// What the program is to do: something at a device, calls at a desk, or one behind the other.
#[derive(Clone, Copy)]
pub struct Wanted<'a> {
    /// What is made at a device, if anything.
    pub device: Option<AtDevice<'a>>,
    /// The words for calls at a desk, each four of which say some.
    pub calls: &'a [String],
}

impl<'a> Wanted<'a> {
    /// What the words say, the first of which is the program's name: what `AtDevice` reads, behind it what `DeskLoad` reads, once or oftener, or one
    /// of the two alone. None where they say anything else.
    pub fn read(words: &'a [String]) -> Option<Wanted<'a>> {
        let [_, words @ ..] = words else {
            return None;
        };
        let end = words
            .iter()
            .position(|word| Way::read(word.as_str()).is_some())
            .unwrap_or(words.len());
        let (device, calls) = words.split_at_checked(end)?;
        if calls.chunks(4).any(|words| DeskLoad::read(words).is_none()) {
            return None;
        }
        let device = if device.is_empty() && !calls.is_empty() {
            None
        } else {
            Some(AtDevice::read(device)?)
        };
        Some(Wanted { device, calls })
    }
}

/// What is made at a device.
#[derive(Clone, Copy)]
pub enum AtDevice<'a> {
    /// The loads, before and behind many steps.
    Loads(Loads<'a>),
    /// Asks of one kind.
    Asks(Asks),
}

impl<'a> AtDevice<'a> {
    /// What the words say: seven numbers, as `Asks` reads them, or what `Loads` reads. None where they say anything else.
    pub fn read(words: &'a [String]) -> Option<AtDevice<'a>> {
        match Asks::read(words) {
            Some(asks) => Some(AtDevice::Asks(asks)),
            None => Some(AtDevice::Loads(Loads::read(words)?)),
        }
    }
}

/// How many steps and rounds there are to be, and of which loads.
#[derive(Clone, Copy)]
pub struct Loads<'a> {
    /// How many steps are kept before the loads are made again.
    pub steps: u32,
    /// How many rounds of each load are made each time.
    pub rounds: u32,
    // the loads that are named
    names: &'a [String],
}

impl<'a> Loads<'a> {
    /// What the words say: a number of steps, a number of rounds, and names of loads. None where they say anything else.
    pub fn read(words: &'a [String]) -> Option<Loads<'a>> {
        let [steps, rounds, names @ ..] = words else {
            return None;
        };
        if !names.iter().all(|name| is_load(name.as_str())) {
            return None;
        }
        Some(Loads {
            steps: steps.parse::<u32>().ok()?,
            rounds: rounds.parse::<u32>().ok()?,
            names,
        })
    }

    /// Whether the load of this name is made: it is named, or none is.
    pub fn has(&self, load: &str) -> bool {
        self.names.is_empty() || self.names.iter().any(|name| name.as_str() == load)
    }
}
