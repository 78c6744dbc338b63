ghost use Rattle.std.specs.Prelude.{◌≡◌, ◌<◌, IfErr, OnErr, OnOk};
ghost use Rattle.data_driver.specs.Data.{data_verdict};
ghost use Rattle.device_renewal.specs.Alike.{StandAlike};
ghost use Rattle.device_renewal.specs.Quiet.{IsQuiet};
ghost use Rattle.ctl_session.specs.Calls.{plan_in};
ghost use Rattle.camera_messages.specs.Messages.{last_handler};

use crate::lines::Lines;
use crate::reply_buffer::count;
use ctl_session::{Names, Session};
use data_driver::Data;
use device_file::{DeviceFile, FileFault, read_camera};
use device_renewal::{carry, is_alike, is_quiet};
use device_state::Device;
use std::alloc::{AllocError, Global};

// The errno of want of memory.
const ENOMEM: u32 = 12;
// The errno of a camera that isn't quiet.
const EBUSY: u32 = 16;
// The errno of a fresh device that doesn't come to stand alike.
const EIO: u32 = 5;

/// A camera that a device file describes: its device behind control calls, and what its control lines have named.
#[derive(Drop)]
pub struct Camera {
    pub(crate) session: Session<Data>,
    pub(crate) lines: Lines,
    // how many requests are there
    pub(crate) requests: u32,
    // the file, of which a fresh device is made
    text: Vec<u8>,
    pub(crate) alloc: Global,
}

impl Camera {
    /// The camera that a file describes, whose bytes these are.
    ///
    /// The error is the first fault of the file, or that a growth was refused; the bytes are handed back.
    pub fn of_file(alloc: Global, text: Vec<u8>) -> Result<Camera, (Vec<u8>, FileFault)> {
        let file = match read_camera(alloc, text.as_slice()) {
            Ok(file) => file,
            Err(fault) => return Err((text, fault)),
        };
        let (Ok(session), Ok(lines)) = (session_of(alloc, file), Lines::new(alloc)) else {
            return Err((text, FileFault::Memory));
        };
        Ok(Camera {
            session,
            lines,
            requests: 0,
            text,
            alloc,
        })
    }

    /// The number of the last handler.
    pub(crate) fn last_handler(&self) -> u32
        ensures { result ≡ last_handler (plan_in self.now.session) }
    {
        let plan = self.session.device().plan();
        plan.handler_count().saturating_sub(1)
    }

    /// Begins the history anew, where no file handle is subscribed and no request is there: a fresh device of the same file takes the place of this one, where it stands alike. The file handles
    /// that control lines named are opened anew then, and all others are closed.
    ///
    /// Answered is how many steps there were, and how many there are now. The error is an errno: EBUSY (16) where a file handle is subscribed or a request is there, EIO (5) where the fresh device
    /// doesn't come to stand alike, and ENOMEM (12); nothing is changed then.
    pub(crate) fn renew(&mut self) -> Result<(u32, u32), u32>
        ensures alike { OnOk result (StandAlike data_verdict self.old.session.device self.new.session.device) }
        ensures quiet { OnOk result (IsQuiet data_verdict self.old.session.device) }
        ensures followers { self.new.session.followers ≡ self.old.session.followers }
        ensures owed { self.new.session.owed ≡ self.old.session.owed }
        ensures err { OnErr result (self.new.session ≡ self.old.session) }
        ensures errno { IfErr result (λ errno. 0 < errno) }
    {
        if !is_quiet(self.session.device()) {
            return Err(EBUSY);
        }
        let Ok(DeviceFile { plan, .. }) = read_camera(self.alloc, self.text.as_slice()) else {
            return Err(ENOMEM);
        };
        let Ok(mut fresh) = Device::new(self.alloc, plan) else {
            return Err(ENOMEM);
        };
        if carry(self.alloc, self.session.device(), &mut fresh).is_err() {
            return Err(ENOMEM);
        }
        let Ok(lines) = self
            .lines
            .carried(self.alloc, self.session.device(), &mut fresh)
        else {
            return Err(ENOMEM);
        };
        if !is_alike(self.session.device(), &fresh) {
            return Err(EIO);
        }
        let before = count(self.session.device().steps().len());
        let after = count(fresh.steps().len());
        self.session.replace(fresh);
        self.lines = lines;
        Ok((before, after))
    }
}

fn session_of(alloc: Global, file: DeviceFile) -> Result<Session<Data>, AllocError> {
    let DeviceFile {
        plan,
        words,
        followers,
        classes,
    } = file;
    match Device::new(alloc, plan) {
        Ok(device) => {
            let names = Names { words, classes };
            Ok(Session::new(alloc, device, names, followers))
        }
        Err(_) => Err(AllocError),
    }
}
