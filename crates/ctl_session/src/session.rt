ghost use Rattle.std.specs.Prelude.{◌≡◌, ◌⊎◌, None, Some, false, MatchOption};
ghost use Rattle.ctrl_types.specs.Checks.{errno_of as errno_for};
ghost use Rattle.ctrl_types.specs.Numbers.{errno_number};
ghost use Rattle.ctrl_types.specs.declared.errno.Errno.TheVariants.{ENOMEM};
ghost use Rattle.ctl_session.specs.Calls.{plan_in};
ghost use Rattle.ctrl_types.specs.Refusals.{memory_refusal};
ghost use Rattle.device_history.specs.AskChecks.{published};
ghost use Rattle.ctl_session.specs.Session.{Asked, Stays, errno_in, refusal_in};

use call_structs::is_heading;
use ctrl_calls::Driver;
use ctrl_handlers::Plan;
use ctrl_types::{Check, Errno, Fault, Refusal};
use device_file::ClassNames;
use device_state::{Ask, CtrlInfo, Device, Reply};
use following_ranges::{Follower, handle_and_follow};
use kernel_names::{control_name, heading_name};
use script_lines::ControlWords;
use std::alloc::Global;
use std::marker::Model;

/// What controls and classes are called.
#[derive(Drop)]
pub struct Names {
    /// The words of the controls, in the order of their numbers.
    pub words: ControlWords,
    /// The names of classes that aren't the kernel's.
    pub classes: ClassNames,
}

/// A device behind control calls.
#[derive(Drop)]
pub struct Session<D: Driver> {
    device: Device<D>,
    followers: Vec<Follower>,
    owed: bool,
    names: Names,
    // what refused the last ask
    refusal: Option<Refusal>,
    alloc: Global,
}

impl<D: Driver> Model for Session<D> {
    ghost use Rattle.ctl_session.specs.Session.{SessionData};

    ghost Value = { SessionData };

    ghost view = { λ s. record { device = s.device; followers = s.followers.items; owed = s.owed } };
}

impl<D: Driver> Session<D> {
    /// A session over a device.
    ///
    /// - `alloc`: where lists lie for the moment.
    /// - `device`: any; what it has by then stays.
    /// - `names`: what its controls are called; a control without a word is called by its id.
    /// - `followers`: how ranges of it follow other controls, as `handle_and_follow` of `following_ranges` takes them.
    pub fn new(
        alloc: Global,
        device: Device<D>,
        names: Names,
        followers: Vec<Follower>,
    ) -> Session<D>
        ensures { result ≡ record { device = device; followers = followers.items; owed = false } }
    {
        Session {
            device,
            followers,
            owed: false,
            names,
            refusal: None,
            alloc,
        }
    }

    /// The device, to read it.
    pub fn device(&self) -> &Device<D>
        ensures { result.now ≡ self.now.device }
    {
        &self.device
    }

    // The plan of the device.
    pub(crate) fn plan(&self) -> &Plan<D>
        ensures { result.now ≡ plan_in self.now }
    {
        self.device.plan()
    }

    /// What its controls are called.
    pub fn names(&self) -> &Names {
        &self.names
    }

    /// The words of its controls, by which scripts name them.
    pub fn words(&self) -> &ControlWords {
        &self.names.words
    }

    /// How its ranges follow other controls.
    pub fn followers(&self) -> &[Follower]
        ensures { result.now ≡ self.now.followers }
    {
        self.followers.as_slice()
    }

    /// What refused the last call, or the last ask; none where it was accepted, or refused by what the device isn't asked for: a file handle that isn't open, a struct of another
    /// size, a payload. A list of too many entries, and want of room for the answers of ranges, are refusals.
    pub fn refusal(&self) -> Option<Refusal> {
        self.refusal
    }

    /// Takes another device in place of this one. Where a range was owed, one is owed still.
    ///
    /// - `device`: any; it is meant to have the same controls.
    pub fn replace(&mut self, device: Device<D>)
        ensures { self.new ≡ record self.old { device = device } }
    {
        self.device = device;
        self.refusal = None;
    }

    /// Asks the device as `handle_and_follow` of `following_ranges` does, at seat 0: an accepted change has the ranges follow that are to.
    ///
    /// Refused as `Device::handle` refuses it; and with ENOMEM (12) where there was no room for the answers of ranges: then nothing was asked. `refusal` has then what refused it.
    pub fn ask(&mut self, ask: &Ask) -> Result<Reply, Fault>
        ensures { Asked D.verdict self.old self.new ask.now result }
    {
        match self.answer(ask) {
            Ok(reply) => {
                self.refusal = None;
                Ok(reply)
            }
            Err(refusal) => {
                self.refusal = Some(refusal);
                Err(ask.fault(refusal))
            }
        }
    }

    // Answers an ask, or says what refuses it.
    fn answer(&mut self, ask: &Ask) -> Result<Reply, Refusal>
        ensures { Asked D.verdict self.old self.new ask.now (published ask.now result) }
    {
        match handle_and_follow(
            self.alloc,
            &mut self.device,
            self.followers.as_slice(),
            &mut self.owed,
            0,
            ask,
        ) {
            Ok((answer, _)) => answer,
            Err(_) => Err(Refusal::of_memory()),
        }
    }

    // What would refuse an ask; nothing is asked but validators.
    pub(crate) fn find_refusal(&mut self, ask: &Ask) -> Option<Refusal>
        ensures why { MatchOption result (refusal_in D.verdict self.old ask.now ≡ None) (λ refusal. (refusal_in D.verdict self.old ask.now ≡ Some refusal) ⊎ (refusal ≡ memory_refusal)) }
        ensures stays { Stays self.old self.new }
    {
        self.device.refusal(ask)
    }

    // Forgets what refused the last ask.
    pub(crate) fn begin_call(&mut self)
        ensures { self.new ≡ self.old }
    {
        self.refusal = None;
    }

    // Refuses a list as a whole by a check, without asking the device.
    pub(crate) fn refuse(&mut self, check: Check) -> u32
        ensures session { self.new ≡ self.old }
        ensures errno { result ≡ errno_number (errno_for check) }
    {
        self.refusal = Some(Refusal::whole(check));
        check.errno().number()
    }

    pub(crate) fn alloc(&self) -> Global {
        self.alloc
    }

    // The name of a control that a handler shows.
    pub(crate) fn name(&self, handler: u32, info: &CtrlInfo) -> &[u8] {
        if is_heading(info.id, info.flags) {
            let class = info.id.class();
            return heading_name(class, self.names.classes.name_of(class)).as_bytes();
        }
        let word = match self.device.plan().find(handler, info.id) {
            Ok(control) => self.names.words.word_of(control),
            Err(_) => None,
        };
        match word {
            Some(word) => match control_name(info.id, word) {
                Some(name) => name.as_bytes(),
                None => word,
            },
            None => b"Control",
        }
    }
}

// No room was made, and nothing was asked.
pub(crate) fn no_memory() -> Fault
    ensures { result ≡ record { errno = ENOMEM; index = None } }
{
    Fault {
        errno: Errno::ENOMEM,
        index: None,
    }
}

// The errno of an answer, 0 for none.
pub(crate) fn errno_of(answer: &Result<Reply, Fault>) -> u32
    ensures { result ≡ errno_in answer.now }
{
    match answer {
        Ok(_) => 0,
        Err(fault) => fault.errno.number(),
    }
}
