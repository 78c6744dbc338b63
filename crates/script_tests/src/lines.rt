//! Lines on a writer that takes all that it is given, a few bytes a write, or fails at one of its writes.

use crate::streams::Sink;
use bitflags::Flags as FlagSet;
use ctrl_events::Event;
use ctrl_lists::ControlList;
use ctrl_types::{Changes, CtrlId, CtrlValue, Errno, ExtControl, Fault, Flags, Kind};
use device_history::{Ask, Reply};
use req_book::RequestState;
use script_replies::{
    Audited, Outcome, ReplyLine, write_answer, write_audit, write_no_frames, write_no_memory,
    write_outcome,
};
use std::alloc::Global;
use std::io;
use std::io::ErrorKind;
use std::process::Abort;
use std::test::Fail;

const ALL: usize = usize::MAX;

// What a line is of.
#[derive(Clone, Copy, Debug)]
enum Line {
    Done,
    NoValues,
    Values(i64, i64),
    State(RequestState),
    // Of the id, what changed, the value, the flags, the number, and how many still wait.
    Event(u32, u32, i64, u32, u32, u32),
    Next(u32),
    Word(u64),
    Refused(Errno, Option<u32>),
    Ended(Outcome),
    // Of an audit that agrees, with the number of steps, and of one that doesn't.
    Equal(usize),
    Differs,
    NoMemory,
    NoFrames,
}

#[derive(Clone, Copy, Debug)]
enum Case {
    // A line that goes out at once.
    Whole(Line, &'static [u8]),
    // The line `ok -64 250` on a writer that takes so many bytes a write and fails at the write of this number: what the writer has
    // then, and after how many writes.
    Cut(usize, u32, &'static [u8], u32),
    // An outcome without a line.
    Silent(Outcome),
}

const CUT: Line = Line::Values(-64, 250);

const CASES: &[Case] = &[
    Case::Whole(Line::Done, b"ok\n"),
    Case::Whole(CUT, b"ok -64 250\n"),
    Case::Whole(Line::NoValues, b"ok\n"),
    Case::Whole(Line::State(RequestState::Idle), b"ok idle\n"),
    Case::Whole(Line::State(RequestState::Queued), b"ok queued\n"),
    Case::Whole(Line::State(RequestState::Running), b"ok running\n"),
    Case::Whole(Line::State(RequestState::Complete), b"ok complete\n"),
    Case::Whole(
        Line::Event(0x0098_0913, 3, -64, 0x12, 7, 5),
        b"event 0x00980913 changes 3 value -64 flags 0x12 sequence 7 pending 5\n",
    ),
    Case::Whole(
        Line::Event(1, 0, i64::MIN, 0, u32::MAX, 0),
        b"event 0x00000001 changes 0 value -9223372036854775808 flags 0x0 sequence 4294967295 pending 0\n",
    ),
    Case::Whole(Line::Next(0x0098_0900), b"ok 0x00980900\n"),
    Case::Whole(Line::Word(u64::MAX), b"ok 18446744073709551615\n"),
    Case::Whole(Line::Refused(Errno::ENOENT, None), b"error 2\n"),
    Case::Whole(Line::Refused(Errno::EINVAL, Some(3)), b"error 22 index 3\n"),
    Case::Whole(Line::Ended(Outcome::BadLine(7)), b"line 7: not a command\n"),
    Case::Whole(Line::Ended(Outcome::TooLong), b"input too long\n"),
    Case::Whole(Line::Ended(Outcome::ReadFault), b"read fault\n"),
    Case::Whole(Line::Ended(Outcome::NoSecond), b"no second script\n"),
    Case::Whole(Line::Ended(Outcome::Memory), b"no memory\n"),
    Case::Whole(Line::Equal(7), b"audit equal 7\n"),
    Case::Whole(Line::Differs, b"audit differs\n"),
    Case::Whole(Line::NoMemory, b"no memory\n"),
    Case::Whole(Line::NoFrames, b"no frames\n"),
    Case::Silent(Outcome::Finished),
    Case::Silent(Outcome::WriteFault),
    Case::Cut(4, 0, b"ok -64 250\n", 3),
    Case::Cut(10, 0, b"ok -64 250\n", 2),
    Case::Cut(ALL, 1, b"", 1),
    Case::Cut(4, 2, b"ok -", 2),
    Case::Cut(4, 3, b"ok -64 2", 3),
    Case::Cut(0, 0, b"", 1),
];

fn write_line(
    alloc: Global,
    sink: &mut Sink,
    reply: &mut ReplyLine,
    line: Line,
) -> Result<io::Result<()>, Fail> {
    let answer = match line {
        Line::Done => Ok(Reply::Done),
        Line::NoValues => Ok(Reply::Controls(ControlList::from_vec(Vec::new(alloc)))),
        Line::Values(first, second) => {
            let list = vec![in alloc; entry(first), entry(second)]?;
            Ok(Reply::Controls(ControlList::from_vec(list)))
        }
        Line::State(state) => Ok(Reply::State(state)),
        Line::Event(id, changes, value, flags, sequence, pending) => Ok(Reply::Event(Event {
            id: CtrlId(id),
            kind: Kind::Integer,
            changes: Changes::from_bits_retain(changes),
            value,
            flags: Flags::from_bits_retain(flags),
            minimum: 0,
            maximum: 0,
            step: 1,
            default_value: 0,
            sequence,
            pending,
        })),
        Line::Next(id) => Ok(Reply::Id(CtrlId(id))),
        Line::Word(word) => Ok(Reply::Word(word)),
        Line::Refused(errno, index) => Err(Fault { errno, index }),
        Line::Ended(outcome) => return Ok(write_outcome(sink, reply, outcome)),
        Line::Equal(count) => return Ok(write_audit(sink, reply, Audited::Equal(count))),
        Line::Differs => return Ok(write_audit(sink, reply, Audited::Differs)),
        Line::NoMemory => return Ok(write_no_memory(sink)),
        Line::NoFrames => return Ok(write_no_frames(sink)),
    };
    // none of these lines has to do with its ask
    Ok(write_answer(sink, reply, &Ask::Begin, &answer))
}

fn entry(value: i64) -> ExtControl {
    ExtControl {
        id: CtrlId(0),
        value: CtrlValue::Number(value),
    }
}

fn expect<R: AllocGlobal + Abort>(rt: &R, case: Case) -> Result<(), Fail> {
    let (line, most, fails_at, text, writes) = match case {
        Case::Whole(line, text) => (line, ALL, 0, text, 1),
        Case::Cut(most, fails_at, text, writes) => (CUT, most, fails_at, text, writes),
        Case::Silent(outcome) => (Line::Ended(outcome), ALL, 0, b"".as_slice(), 0),
    };
    let mut sink = Sink {
        bytes: Vec::new(rt.alloc()),
        most,
        writes: 0,
        fault: Some((fails_at, Some(ErrorKind::Interrupted))),
    };
    let mut reply = ReplyLine::new(rt.alloc())?;
    let is_written = write_line(rt.alloc(), &mut sink, &mut reply, line)?.is_ok();
    let is_whole = most == ALL && fails_at == 0 || text.len() == 11;
    let is_so = sink.bytes.as_slice() == text && sink.writes == writes && is_written == is_whole;
    assert!(rt; is_so, "{case:?}");
    Ok(())
}

#[test]
fn lines_on_writers(rt: HostRuntime) -> Result<(), Fail> {
    for case in CASES {
        expect(&rt, *case)?;
    }
    Ok(())
}

// With which status the tool ends after an outcome.
const STATUSES: &[(Outcome, u8)] = &[
    (Outcome::Finished, 0),
    (Outcome::BadLine(1), 1),
    (Outcome::TooLong, 1),
    (Outcome::ReadFault, 1),
    (Outcome::WriteFault, 1),
    (Outcome::NoSecond, 1),
    (Outcome::Memory, 1),
];

#[test]
fn statuses_of_outcomes(rt: HostRuntime) -> Result<(), Fail> {
    for (outcome, status) in STATUSES {
        assert!(rt; outcome.status() == *status, "{outcome:?}");
    }
    Ok(())
}
