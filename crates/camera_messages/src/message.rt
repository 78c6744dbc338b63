ghost use Rattle.std.specs.Prelude.{◌≡◌};
ghost use Rattle.std.specs.Option.{option_map};
ghost use Rattle.camera_messages.specs.Reading.{IsReadAs, bare_message, message_by, named, as_request};

use ctrl_types::{FhId, RequestId};
use ioctl_bytes::u32_at;

/// How many bytes of a message stand between its length and its payload.
pub const HEAD: usize = 16;

/// How long a payload is at most.
pub const MAX_PAYLOAD: usize = 16_368;

// The number of no request, and of no handler.
const NONE: u32 = 0xffff_ffff;

/// What a camera is asked. A message is its number and three more, a, b and c, and a payload; its reply is an errno, 0 for none, three numbers x, y and z, and a payload. A number that isn't named here
/// isn't looked at, and is 0 in a reply; a payload that isn't named is empty. Where nothing else is said, the errno is the one with which the device refuses.
#[derive(Clone, Copy)]
pub enum Message<'a> {
    /// 1: opens a file handle. x is the file handle.
    Open {
        /// a: the handler's number; 0xffffffff, none, for the last one.
        handler: Option<u32>,
    },
    /// 2: closes a file handle.
    Close {
        /// a.
        fh: FhId,
    },
    /// 3: makes a control call. The payload comes back, written anew, also where the call is refused.
    Call {
        /// a: the file handle.
        fh: FhId,
        /// b: the request that the call names; 0xffffffff for none.
        request: Option<RequestId>,
        /// c: the number of the call.
        number: u32,
        /// The payload: the call's struct, and of a list what `Session::call` wants behind it.
        arg: &'a [u8],
    },
    /// 4: makes a request. x is the request.
    Alloc,
    /// 5: lets a request go.
    Free {
        /// a.
        request: RequestId,
    },
    /// 6: gives a request a buffer.
    AddBuffer {
        /// a.
        request: RequestId,
        /// b: the buffer's number.
        buffer: u32,
    },
    /// 7: queues a request.
    Queue {
        /// a.
        request: RequestId,
    },
    /// 8: makes a request as new.
    Reinit {
        /// a.
        request: RequestId,
    },
    /// 9: begins the frame of the first request that waits. x is the request, y its buffer, and z how many clusters were refused.
    Begin,
    /// 10: ends the frame that is being made.
    Complete,
    /// 11: stops the stream.
    StreamOff,
    /// 12: reads the state of a request. x is 0 where it is idle, 1 where it is queued, 2 where its frame is being made, and 3 where it is complete.
    State {
        /// a.
        request: RequestId,
    },
    /// 13: reads what a queued frame will have. x is the request, y its buffer, z how many clusters will be refused, and the payload the value of each control, as that of `Values`.
    Forecast {
        /// a: the frame's place in the queue, from 0.
        place: u32,
    },
    /// 14: reads which controls there are. x is how many; the payload has 44 bytes for each, in the order of their numbers: its id, its `enum v4l2_ctrl_type`, how many elements it has where it is an
    /// array, and else 0, and in 32 bytes the word by which scripts name it, cut to 31 bytes and ended by a zero.
    Controls,
    /// 15: reads the present values. The payload has 36 bytes for each control, in the order of their numbers: how many bytes its value has, and these, with zeros up to 32. A number has 8.
    Values,
    /// 16: reads whether an event waits for a file handle: then x is 1.
    Waits {
        /// a.
        fh: FhId,
    },
    /// 17: answers a line of a script. x is 1 where it is accepted, and the payload is what is said of it, with its line feed.
    Line {
        /// The payload: the line without its line feed.
        line: &'a [u8],
    },
    /// 18: reads why the last ask or control call was refused. The payload says it, and is empty where it was accepted, where no check of the device refused it, or where it isn't known.
    Why,
    /// 19: begins the history anew, where nobody would notice. x is how many steps there were, and y how many there are.
    Renew,
    /// 20: x is how many steps there are, y how many file handles are open, and z how many requests are there.
    Counts,
    /// 21: reads which events a file handle has had. x is how many were raised for it, which is the number of its next one, and y how many controls it is subscribed to; both are 0 where it isn't open.
    Events {
        /// a.
        fh: FhId,
    },
}

// The numbers of a message's head.
#[derive(Clone, Copy)]
struct Numbers {
    what: u32,
    a: u32,
    b: u32,
    c: u32,
}

/// The message that bytes are; none where there is no message of this number, or where it takes no payload and has one.
///
/// - `bytes`: the four numbers, of 32 bits each, the lowest bits first, and the payload.
pub fn message_of(bytes: &[u8]) -> Option<Message<'_>>
    ensures { IsReadAs bytes.now result }
{
    if bytes.len() < HEAD {
        return None;
    }
    let numbers = Numbers {
        what: u32_at(bytes, 0),
        a: u32_at(bytes, 4),
        b: u32_at(bytes, 8),
        c: u32_at(bytes, 12),
    };
    with_payload(numbers, &bytes[HEAD..])
}

fn with_payload<'a>(numbers: Numbers, payload: &'a [u8]) -> Option<Message<'a>>
    ensures { result ≡ message_by numbers payload.entry }
{
    match numbers.what {
        3 => Some(Message::Call {
            fh: FhId(numbers.a),
            request: request_named(numbers.b),
            number: numbers.c,
            arg: payload,
        }),
        17 => Some(Message::Line { line: payload }),
        _ => {
            if payload.is_empty() {
                without_payload(numbers)
            } else {
                None
            }
        }
    }
}

fn without_payload<'a>(numbers: Numbers) -> Option<Message<'a>>
    ensures { result ≡ bare_message numbers }
{
    let (fh, request) = (FhId(numbers.a), RequestId(numbers.a));
    match numbers.what {
        1 => Some(Message::Open {
            handler: named(numbers.a),
        }),
        2 => Some(Message::Close { fh }),
        4 => Some(Message::Alloc),
        5 => Some(Message::Free { request }),
        6 => Some(Message::AddBuffer {
            request,
            buffer: numbers.b,
        }),
        7 => Some(Message::Queue { request }),
        8 => Some(Message::Reinit { request }),
        9 => Some(Message::Begin),
        10 => Some(Message::Complete),
        11 => Some(Message::StreamOff),
        12 => Some(Message::State { request }),
        13 => Some(Message::Forecast { place: numbers.a }),
        14 => Some(Message::Controls),
        15 => Some(Message::Values),
        16 => Some(Message::Waits { fh }),
        18 => Some(Message::Why),
        19 => Some(Message::Renew),
        20 => Some(Message::Counts),
        21 => Some(Message::Events { fh }),
        _ => None,
    }
}

// What a number names, where it names something.
fn named(number: u32) -> Option<u32>
    ensures { result ≡ named number }
{
    if number == NONE { None } else { Some(number) }
}

fn request_named(number: u32) -> Option<RequestId>
    ensures { result ≡ option_map as_request (named number) }
{
    match named(number) {
        Some(request) => Some(RequestId(request)),
        None => None,
    }
}
