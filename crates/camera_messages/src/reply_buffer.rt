ghost use Rattle.std.specs.Prelude.{◌≡◌, ◌≤◌, ◌-◌, ◌++◌, ℕ, List, length, drop, IfOk};
ghost use Rattle.byteorder.specs.Endian.{little_bytes};
ghost use Rattle.data_driver.specs.Data.{data_verdict};
ghost use Rattle.device_history.specs.declared.info.CtrlInfo.{CtrlInfo};
ghost use Rattle.ctl_session.specs.Calls.{Calls, call_of};
ghost use Rattle.camera_messages.specs.Replies.{Puts, accepted, bare, counted, errno_alone, front, reply_bytes, settled, wide};

use ctl_session::Session;
use ctrl_types::{Errno, FhId, RequestId};
use data_driver::Data;
use ioctl_bytes::put_u32;
use std::alloc::{AllocError, Global};
use std::marker::Model;

// How many bytes of a reply stand before its payload, the length included.
const REPLY_HEAD: usize = 20;

// For how many bytes there is room from the start: the longest answer of a control call, and the lists of 256 controls.
const ROOM: usize = REPLY_HEAD + 20_480;

// How many bytes a field for a name or a value has.
const WIDE: usize = 32;

/// What a reply says in front of its payload: an errno, 0 for none, and three numbers.
#[derive(Clone, Copy)]
pub struct Head {
    /// The errno.
    pub errno: u32,
    /// The first number.
    pub x: u32,
    /// The second.
    pub y: u32,
    /// The third.
    pub z: u32,
}

impl Head {
    /// Accepted, with three numbers.
    pub(crate) fn accepted(x: u32, y: u32, z: u32) -> Head
        ensures { result ≡ accepted x y z }
    {
        Head { errno: 0, x, y, z }
    }

    /// An errno, 0 for none, with the numbers 0.
    pub(crate) fn of_errno(errno: u32) -> Head
        ensures { result ≡ errno_alone errno }
    {
        Head {
            errno,
            x: 0,
            y: 0,
            z: 0,
        }
    }
}

/// What a reply is put together in: its length, its errno, three numbers, and a payload. Contracts see all but the length, and whether what was put there found room.
#[derive(Drop)]
pub struct ReplyBuffer {
    // room for the length and the head, which are written at the end, and the payload
    bytes: Vec<u8>,
    head: Head,
    is_whole: bool,
}

impl Model for ReplyBuffer {
    ghost use Rattle.std.specs.Prelude.{◌≤◌, length, drop};
    ghost use Rattle.camera_messages.specs.Replies.{ReplyData};
    ghost use Rattle.camera_messages.specs.declared.reply_buffer.TheConstants.{REPLY_HEAD};

    ghost Value = { ReplyData };

    ghost view = { λ r. record { head = r.head; payload = drop REPLY_HEAD r.bytes.items; is_whole = r.is_whole } };

    ghost invariant = { λ r. REPLY_HEAD ≤ length r.bytes.items };
}

impl ReplyBuffer {
    /// A reply that says nothing yet.
    pub fn new(alloc: Global) -> Result<ReplyBuffer, AllocError>
        ensures { IfOk result (λ reply. reply ≡ bare 0) }
    {
        let mut bytes = Vec::with_capacity(alloc, ROOM)?;
        bytes.resize(REPLY_HEAD, 0)?;
        Ok(ReplyBuffer {
            bytes,
            head: Head::of_errno(0),
            is_whole: true,
        })
    }

    /// Begins a reply: accepted, with the numbers 0 and no payload.
    pub fn begin(&mut self)
        ensures { self.new ≡ bare 0 }
    {
        self.refuse(0);
    }

    /// Makes it a refusal, with the numbers 0 and no payload.
    #[tactic(auto, using(crate::proofs::ReplyLemmas::emptied))]
    pub fn refuse(&mut self, errno: u32)
        ensures { self.new ≡ bare errno }
    {
        self.bytes.truncate(REPLY_HEAD);
        self.head = Head::of_errno(errno);
        self.is_whole = true;
    }

    /// Whether all that was put there found room.
    pub(crate) fn is_whole(&self) -> bool
        ensures { result ≡ self.now.is_whole }
    {
        self.is_whole
    }

    /// Says this in front of the payload, which stays.
    pub(crate) fn put_head(&mut self, head: Head)
        ensures { self.new ≡ record self.old { head = head } }
    {
        self.head = head;
    }

    /// Makes it an acceptance with these numbers; the payload stays.
    pub fn put_numbers(&mut self, x: u32, y: u32, z: u32)
        ensures { self.new ≡ record self.old { head = accepted x y z } }
    {
        self.put_head(Head::accepted(x, y, z));
    }

    /// Puts bytes behind the payload.
    pub fn put(&mut self, bytes: &[u8])
        ensures { Puts self.old self.new bytes.now }
    {
        let is_put = self.bytes.extend_from_slice(bytes).is_ok();
        self.is_whole &= is_put;
    }

    /// Puts a number of 32 bits behind the payload.
    pub fn put_u32(&mut self, number: u32)
        ensures { Puts self.old self.new (little_bytes 4 number) }
    {
        self.put(&number.to_le_bytes());
    }

    /// Puts 32 bytes behind the payload: these, and zeros behind them; what is beyond 32 is cut off.
    #[tactic(auto, using(crate::proofs::ReplyLemmas::puts_both))]
    pub fn put_wide(&mut self, bytes: &[u8])
        ensures { Puts self.old self.new (wide bytes.now) }
    {
        let len = bytes.len().min(WIDE);
        self.put(&bytes[..len]);
        self.put(&[0; WIDE][len..]);
    }

    /// Makes a control call, whose struct is the payload: the payload is written anew, and the call's errno put beside it.
    pub(crate) fn call(
        &mut self,
        session: &mut Session<Data>,
        fh: FhId,
        request: Option<RequestId>,
        number: u32,
    )
        ensures whole { self.new.is_whole ≡ self.old.is_whole }
        ensures numbers { self.new.head ≡ errno_alone self.new.head.errno }
        ensures calls { (name : CtrlInfo → List ℕ) × Calls data_verdict session.old (call_of data_verdict session.old name fh request number self.old.payload) session.new (self.new.head.errno, self.new.payload) }
    {
        let bytes = self.bytes.as_mut_slice();
        let errno = session.call(fh, request, number, &mut bytes[REPLY_HEAD..]);
        self.head = Head::of_errno(errno);
    }

    /// The reply's bytes, its length in front. Where something that was put there found no room it is a refusal for want of memory (ENOMEM, 12).
    pub fn finish(&mut self) -> &[u8]
        ensures { result.now ≡ reply_bytes self.old }
    {
        self.settle();
        put_front(self.bytes.as_mut_slice(), self.head);
        self.bytes.as_slice()
    }

    // Where something found no room, it becomes a refusal for want of memory.
    fn settle(&mut self)
        ensures { self.new ≡ settled self.old }
    {
        if !self.is_whole {
            self.refuse(Errno::ENOMEM.number());
        }
    }
}

// Writes what stands in front of the payload.
fn put_front(bytes: &mut [u8], head: Head)
    requires { REPLY_HEAD ≤ length bytes.old }
    ensures { bytes.new ≡ front (length bytes.old - 4) head ++ drop REPLY_HEAD bytes.old }
{
    let length = count(bytes.len() - 4);
    put_u32(bytes, 0, length);
    put_u32(bytes, 4, head.errno);
    put_u32(bytes, 8, head.x);
    put_u32(bytes, 12, head.y);
    put_u32(bytes, 16, head.z);
}

/// A count as 32 bits; where it doesn't fit, the greatest number.
pub(crate) fn count(number: usize) -> u32
    ensures { result ≡ counted number }
{
    number.min(u32::MAX as usize) as u32
}
