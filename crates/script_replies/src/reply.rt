ghost use Rattle.std.specs.Prelude.{◌≡◌, OnOk, Some, ◌++◌, ◌∷◌, codes};
ghost use Rattle.std.specs.Fmt.{decimal, signed_decimal};
ghost use Rattle.std.specs.List.{flat_map};
ghost use Rattle.hex.specs.Hex.{encode_lower};
ghost use Rattle.ctrl_types.specs.Numbers.{errno_number, kind_number};
ghost use Rattle.script_replies.specs.Replies.{accepted_line, answer_line, audit_line, clusters_text, elems_text, ending_text, entry_text, event_line, flags_text, forecast_line, frame_line, further_text, id_text, info_line, item_text, line_of, outcome_line, place_of as asked_place, range_text, refusal_line, state_line, value_text};

use crate::audited::Audited;
use crate::hexadecimal::{MAX_DIGITS, eight_digits, write_hexadecimal};
use crate::outcome::Outcome;
use crate::room::{LineFull, ReplyLine};
use bitflags::Flags as FlagSet;
use ctrl_events::Event;
use ctrl_forecast::Forecast;
use ctrl_handlers::MenuItem;
use ctrl_types::{ByteRow, CtrlId, CtrlValue, Errno, ExtControl, Fault, Flags, Kind, MAX_ELEMENTS};
use device_history::{Ask, CtrlInfo, Reply};
use itoa::{Buffer, Integer};
use req_book::RequestState;

/// Prints the line of an answer to an ask behind what the line has. It takes no memory.
pub fn print_answer(
    line: &mut ReplyLine,
    ask: &Ask,
    answer: &Result<Reply, Fault>,
) -> Result<(), LineFull>
    ensures { OnOk result (line.new ≡ line.old ++ answer_line ask.now answer.now) }
{
    match answer {
        Ok(reply) => print_reply(line, ask, reply),
        Err(fault) => print_fault(line, *fault),
    }
}

fn print_reply(line: &mut ReplyLine, ask: &Ask, reply: &Reply) -> Result<(), LineFull>
    ensures { OnOk result (line.new ≡ line.old ++ line_of ask.now reply.now) }
{
    match reply {
        Reply::Fh(_) | Reply::Done | Reply::Request(_) => line.put(b"ok\n"),
        Reply::Controls(list) => print_values(line, list.as_slice()),
        Reply::State(state) => print_state(line, *state),
        Reply::Frame {
            buffer,
            refused,
            ..
        } => print_frame(line, *buffer, refused.as_slice()),
        Reply::Forecast(row) => print_forecast(line, place_of(ask), row),
        Reply::Event(event) => print_event(line, *event),
        Reply::Info(info) => print_info(line, *info),
        Reply::Id(id) => print_next(line, *id),
        Reply::Item(item) => print_item(line, item),
        Reply::Word(word) => print_counted(line, b"ok ", *word),
    }
}

fn print_values(line: &mut ReplyLine, list: &[ExtControl]) -> Result<(), LineFull>
    ensures { OnOk result (line.new ≡ line.old ++ (codes "ok" ++ (flat_map entry_text list.now ++ codes "\n"))) }
{
    line.put(b"ok")?;
    for entry in list {
        print_value(line, &entry.value)?;
    }
    line.put(b"\n")
}

// A value behind a space.
fn print_value(line: &mut ReplyLine, value: &CtrlValue) -> Result<(), LineFull>
    ensures { OnOk result (line.new ≡ line.old ++ value_text value.now) }
{
    match value {
        CtrlValue::Number(number) => print_number(line, *number),
        CtrlValue::Bytes(row) => print_elements(line, row),
    }
}

// A number behind a space.
fn print_number(line: &mut ReplyLine, number: i64) -> Result<(), LineFull>
    ensures { OnOk result (line.new ≡ line.old ++ (codes " " ++ signed_decimal number)) }
{
    print_named(line, b" ", number)
}

// A number, behind a minus where it is negative.
pub(crate) fn print_decimal<I: Integer>(line: &mut ReplyLine, number: I) -> Result<(), LineFull>
    ensures { OnOk result (line.new ≡ line.old ++ I.text number) }
{
    let mut digits = Buffer::new();
    line.put(digits.format(number).as_bytes())
}

// A number behind a word.
fn print_named<I: Integer>(line: &mut ReplyLine, word: &[u8], number: I) -> Result<(), LineFull>
    ensures { OnOk result (line.new ≡ line.old ++ (word.now ++ I.text number)) }
{
    line.put(word)?;
    print_decimal(line, number)
}

// A line that ends with a number behind a word.
fn print_counted<I: Integer>(line: &mut ReplyLine, word: &[u8], number: I) -> Result<(), LineFull>
    ensures { OnOk result (line.new ≡ line.old ++ (word.now ++ (I.text number ++ codes "\n"))) }
{
    print_named(line, word, number)?;
    line.put(b"\n")
}

// The elements of an array behind a space.
fn print_elements(line: &mut ReplyLine, row: &ByteRow) -> Result<(), LineFull>
    ensures { OnOk result (line.new ≡ line.old ++ (codes " x" ++ encode_lower row.now)) }
{
    let mut digits = [0; 2 * MAX_ELEMENTS];
    let digits = &mut digits[..2 * row.len()];
    let _ = hex::encode_to_slice(row.bytes(), digits);
    line.put(b" x")?;
    line.put(digits)
}

// The state of a request.
fn print_state(line: &mut ReplyLine, state: RequestState) -> Result<(), LineFull>
    ensures { OnOk result (line.new ≡ line.old ++ state_line state) }
{
    match state {
        RequestState::Idle => line.put(b"ok idle\n"),
        RequestState::Queued => line.put(b"ok queued\n"),
        RequestState::Running => line.put(b"ok running\n"),
        RequestState::Complete => line.put(b"ok complete\n"),
    }
}

// A frame that was begun: its buffer, and the clusters that were refused.
fn print_frame(line: &mut ReplyLine, buffer: u32, refused: &[u32]) -> Result<(), LineFull>
    ensures { OnOk result (line.new ≡ line.old ++ frame_line buffer refused.now) }
{
    print_named(line, b"ok buffer ", buffer)?;
    line.put(b" refused ")?;
    print_clusters(line, refused)?;
    line.put(b"\n")
}

// The place in the queue that an ask names; 0 where it names none.
fn place_of(ask: &Ask) -> u32
    ensures { result ≡ asked_place ask.now }
{
    match ask {
        Ask::Forecast { place } => *place,
        _ => 0,
    }
}

// What a queued frame will have: its place, its buffer, the clusters that will be refused, and the values of all controls.
fn print_forecast(line: &mut ReplyLine, place: u32, row: &Forecast) -> Result<(), LineFull>
    ensures { OnOk result (line.new ≡ line.old ++ forecast_line place row.now.buffer row.now.refused row.now.values) }
{
    print_frame_head(line, place, row.buffer)?;
    print_clusters(line, row.refused.as_slice())?;
    print_row(line, row.values.as_slice())
}

// The place of a frame in the queue, and its buffer.
fn print_frame_head(line: &mut ReplyLine, place: u32, buffer: u32) -> Result<(), LineFull>
    ensures { OnOk result (line.new ≡ line.old ++ (codes "frame " ++ (decimal place ++ (codes " buffer " ++ (decimal buffer ++ codes " refused "))))) }
{
    print_named(line, b"frame ", place)?;
    print_named(line, b" buffer ", buffer)?;
    line.put(b" refused ")
}

// The values of a frame, and the end of its line.
fn print_row(line: &mut ReplyLine, values: &[CtrlValue]) -> Result<(), LineFull>
    ensures { OnOk result (line.new ≡ line.old ++ (codes " values" ++ (flat_map value_text values.now ++ codes "\n"))) }
{
    line.put(b" values")?;
    for value in values {
        print_value(line, value)?;
    }
    line.put(b"\n")
}

// Numbers of clusters, joined by commas; where there is none, `-`.
fn print_clusters(line: &mut ReplyLine, clusters: &[u32]) -> Result<(), LineFull>
    ensures { OnOk result (line.new ≡ line.old ++ clusters_text clusters.now) }
{
    match clusters {
        [] => line.put(b"-"),
        [first, more @ ..] => print_joined(line, *first, more),
    }
}

fn print_joined(line: &mut ReplyLine, first: u32, more: &[u32]) -> Result<(), LineFull>
    ensures { OnOk result (line.new ≡ line.old ++ clusters_text (first ∷ more.now)) }
{
    print_decimal(line, first)?;
    for cluster in more {
        print_further(line, *cluster)?;
    }
    Ok(())
}

// A number behind a comma.
fn print_further(line: &mut ReplyLine, cluster: u32) -> Result<(), LineFull>
    ensures { OnOk result (line.new ≡ line.old ++ further_text cluster) }
{
    print_named(line, b",", cluster)
}

// An event that was taken.
fn print_event(line: &mut ReplyLine, event: Event) -> Result<(), LineFull>
    ensures { OnOk result (line.new ≡ line.old ++ event_line event) }
{
    print_change(line, event)?;
    line.put(b" flags ")?;
    print_flags(line, event.flags)?;
    print_named(line, b" sequence ", event.sequence)?;
    print_counted(line, b" pending ", event.pending)
}

// The control of an event, what changed, and the value that it tells.
fn print_change(line: &mut ReplyLine, event: Event) -> Result<(), LineFull>
    ensures { OnOk result (line.new ≡ line.old ++ (codes "event " ++ (id_text event.id ++ (codes " changes " ++ (decimal event.changes.0 ++ (codes " value " ++ signed_decimal event.value)))))) }
{
    line.put(b"event ")?;
    print_id(line, event.id)?;
    print_named(line, b" changes ", event.changes.bits())?;
    print_named(line, b" value ", event.value)
}

fn print_info(line: &mut ReplyLine, info: CtrlInfo) -> Result<(), LineFull>
    ensures { OnOk result (line.new ≡ line.old ++ info_line info) }
{
    line.put(b"ok ")?;
    print_id(line, info.id)?;
    print_range(line, info)?;
    print_ending(line, info)
}

// The flags of a control, of an array its elements, and the end of the line.
fn print_ending(line: &mut ReplyLine, info: CtrlInfo) -> Result<(), LineFull>
    ensures { OnOk result (line.new ≡ line.old ++ ending_text info) }
{
    print_flags(line, info.flags)?;
    print_elems(line, info.kind, info.elems)?;
    line.put(b"\n")
}

// How many elements an array has.
fn print_elems(line: &mut ReplyLine, kind: Kind, elems: u32) -> Result<(), LineFull>
    ensures { OnOk result (line.new ≡ line.old ++ elems_text kind elems) }
{
    match kind {
        Kind::U8 => print_named(line, b" elems ", elems),
        _ => Ok(()),
    }
}

fn print_next(line: &mut ReplyLine, id: CtrlId) -> Result<(), LineFull>
    ensures { OnOk result (line.new ≡ line.old ++ (codes "ok " ++ (id_text id ++ codes "\n"))) }
{
    line.put(b"ok ")?;
    print_id(line, id)?;
    line.put(b"\n")
}

// An item of a menu: its name, or its number.
fn print_item(line: &mut ReplyLine, item: &MenuItem) -> Result<(), LineFull>
    ensures { OnOk result (line.new ≡ line.old ++ (codes "ok " ++ (item_text item.now ++ codes "\n"))) }
{
    match item {
        MenuItem::Name(name) => {
            line.put(b"ok ")?;
            line.put(name.as_str().as_bytes())?;
            line.put(b"\n")
        }
        MenuItem::Number(number) => print_counted(line, b"ok ", *number),
    }
}

// An id, with all its digits.
fn print_id(line: &mut ReplyLine, id: CtrlId) -> Result<(), LineFull>
    ensures { OnOk result (line.new ≡ line.old ++ id_text id) }
{
    line.put(b"0x")?;
    line.put(&eight_digits(id.0))
}

// What stands between the id and the flags of a control.
fn print_range(line: &mut ReplyLine, info: CtrlInfo) -> Result<(), LineFull>
    ensures { OnOk result (line.new ≡ line.old ++ range_text info) }
{
    print_bounds(line, info)?;
    print_named(line, b" step ", info.step)?;
    print_named(line, b" default ", info.default_value)?;
    line.put(b" flags ")
}

// The number of a control's kind, and its bounds.
fn print_bounds(line: &mut ReplyLine, info: CtrlInfo) -> Result<(), LineFull>
    ensures { OnOk result (line.new ≡ line.old ++ (codes " kind " ++ (decimal (kind_number info.kind) ++ (codes " min " ++ (signed_decimal info.minimum ++ (codes " max " ++ signed_decimal info.maximum)))))) }
{
    print_named(line, b" kind ", info.kind.number())?;
    print_named(line, b" min ", info.minimum)?;
    print_named(line, b" max ", info.maximum)
}

fn print_flags(line: &mut ReplyLine, flags: Flags) -> Result<(), LineFull>
    ensures { OnOk result (line.new ≡ line.old ++ flags_text flags) }
{
    let mut room = [0; MAX_DIGITS];
    let start = write_hexadecimal(flags.bits(), &mut room);
    line.put(b"0x")?;
    line.put(&room[start..])
}

fn print_fault(line: &mut ReplyLine, fault: Fault) -> Result<(), LineFull>
    ensures { OnOk result (line.new ≡ line.old ++ refusal_line (errno_number fault.errno) fault.index) }
{
    let number = fault.errno.number();
    match fault.index {
        Some(index) => print_indexed_fault(line, number, index),
        None => print_counted(line, b"error ", number),
    }
}

fn print_indexed_fault(line: &mut ReplyLine, number: u32, index: u32) -> Result<(), LineFull>
    ensures { OnOk result (line.new ≡ line.old ++ refusal_line number (Some index)) }
{
    print_named(line, b"error ", number)?;
    print_counted(line, b" index ", index)
}

/// Prints the line of an audit behind what the line has. It takes no memory.
pub fn print_audit(line: &mut ReplyLine, audited: Audited) -> Result<(), LineFull>
    ensures { OnOk result (line.new ≡ line.old ++ audit_line audited) }
{
    match audited {
        Audited::Equal(count) => print_counted(line, b"audit equal ", count),
        Audited::Differs => line.put(b"audit differs\n"),
        Audited::Memory => print_fault(
            line,
            Fault {
                errno: Errno::ENOMEM,
                index: None,
            },
        ),
    }
}

/// Prints how many steps of each of two scripts were accepted behind what the line has. It takes no memory.
pub fn print_accepted(line: &mut ReplyLine, first: usize, second: usize) -> Result<(), LineFull>
    ensures { OnOk result (line.new ≡ line.old ++ accepted_line first second) }
{
    print_named(line, b"accepted ", first)?;
    print_counted(line, b" ", second)
}

/// Prints the line of an outcome that has one behind what the line has. It takes no memory.
pub fn print_outcome(line: &mut ReplyLine, outcome: Outcome) -> Result<(), LineFull>
    ensures { OnOk result (line.new ≡ line.old ++ outcome_line outcome) }
{
    match outcome {
        Outcome::BadLine(number) => print_bad_line(line, number),
        Outcome::TooLong => line.put(b"input too long\n"),
        Outcome::ReadFault => line.put(b"read fault\n"),
        Outcome::NoSecond => line.put(b"no second script\n"),
        Outcome::Memory => line.put(b"no memory\n"),
        Outcome::Finished | Outcome::WriteFault => Ok(()),
    }
}

// The line of a script that is not a command.
fn print_bad_line(line: &mut ReplyLine, number: u32) -> Result<(), LineFull>
    ensures { OnOk result (line.new ≡ line.old ++ (codes "line " ++ (decimal number ++ codes ": not a command\n"))) }
{
    print_named(line, b"line ", number)?;
    line.put(b": not a command\n")
}
