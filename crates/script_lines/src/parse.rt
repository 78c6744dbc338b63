ghost use Rattle.std.specs.Prelude.{◌≡◌, ◌+◌, ◌<◌, ◌≤◌, ◌^◌, [], ◌∷◌, ◌==◌, length, map, position, true, Some, IfSome};
ghost use Rattle.std.specs.Option.{option_map};
ghost use Rattle.script_lines.specs.Commands.{IsRead, words as words_in, line_of, command_of, verb_of, open_of, close_of, grab_of, range_of, on_or_off as on_or_off_of, handle_and_control as handle_and_control_of, query_of, next_of, menu_of, replied_with, buffer_of, request_of, on_request, row_of, bare_of, subscribe_of, sub_flag as sub_flag_of, sub_flags as sub_flags_of, unsubscribe_of, take_of, list_command_of, which_of, fixed_which_of, entry_of, entry_at, list_of};
ghost use Rattle.script_lines.specs.Dividing.{divides as divides_of};
ghost use Rattle.script_lines.specs.Walking.{head_of, is_short};
ghost use Rattle.script_lines.specs.declared.command.Command.TheVariants as commands;

use crate::command::{Command, WhichWord};
use crate::control_words::ControlWords;
use crate::entry_list::EntryList;
use crate::fault::LineFault;
use crate::lexeme::{control_id, decimal_i64, decimal_u32, decimal_u64, hexadecimal_u32, value};
use crate::name::Name;
use crate::walk::{first_word, only_word, word_count};
use bitflags::Flags as FlagSet;
use ctrl_types::{CtrlId, CtrlValue, ExtControl, SubFlags};
use std::alloc::Global;

/// Reads a line (of this project): the command, or nothing where the line is to be skipped, since it has no word or its first word begins with
/// `#`. `NotACommand` where it is neither; `Memory` where a growth was refused.
///
/// - `alloc`: where the command lies.
/// - `known`: the words by which the line may name controls.
/// - `line`: the line, without its line feed and of fewer than 2^32 - 1 bytes.
pub fn read_line(
    alloc: Global,
    known: &ControlWords,
    line: &[u8],
) -> Result<Option<Command>, LineFault>
    requires { length line.now + 1 < 2 ^ 32 }
    ensures { IsRead result (line_of known.now (words_in line.now)) }
{
    match first_word(line) {
        Some((verb, operands)) => read_words(alloc, known, verb, operands),
        None => Ok(None),
    }
}

/// Whether a line, without its line feed, divides an input into two scripts: its only word is `==`. It takes no memory.
pub fn divides(line: &[u8]) -> bool
    ensures { result ≡ divides_of (words_in line.now) }
{
    match first_word(line) {
        Some((word, rest)) => match first_word(rest) {
            Some(_) => false,
            None => word == b"==".as_slice(),
        },
        None => false,
    }
}

fn read_words(
    alloc: Global,
    known: &ControlWords,
    verb: &[u8],
    operands: &[u8],
) -> Result<Option<Command>, LineFault>
    requires { length operands.now < 2 ^ 32 }
    ensures { IsRead result (line_of known.now (verb.now ∷ words_in operands.now)) }
{
    if let [b'#', ..] = verb {
        return Ok(None);
    }
    read_command(alloc, known, verb, operands)
}

// The first words of commands.
#[derive(Clone, Copy)]
enum Verb {
    Open,
    Close,
    Get,
    Set,
    Try,
    Grab,
    Range,
    Query,
    Next,
    Menu,
    Told,
    Buffer,
    OfRequest(RequestVerb),
    Row,
    Begin,
    Complete,
    Off,
    Subscribe,
    Unsubscribe,
    Take,
    Audit,
}

// Those of commands with a request and nothing else.
#[derive(Clone, Copy)]
enum RequestVerb {
    Alloc,
    Queue,
    Cancel,
    Reinit,
    Free,
    State,
}

/// The first words of the commands (docs/SCRIPTS.md).
pub const VERB_WORDS: [&[u8]; 26] = [
    b"open",
    b"close",
    b"get",
    b"set",
    b"try",
    b"grab",
    b"range",
    b"query",
    b"next",
    b"menu",
    b"told",
    b"alloc",
    b"buffer",
    b"queue",
    b"cancel",
    b"reinit",
    b"free",
    b"state",
    b"row",
    b"begin",
    b"complete",
    b"off",
    b"sub",
    b"unsub",
    b"take",
    b"audit",
];

fn read_verb(word: &[u8]) -> Option<Verb>
    ensures { result ≡ verb_of word.now }
{
    match word {
        b"set" => Some(Verb::Set),
        b"get" => Some(Verb::Get),
        b"take" => Some(Verb::Take),
        b"try" => Some(Verb::Try),
        b"queue" => Some(Verb::OfRequest(RequestVerb::Queue)),
        b"buffer" => Some(Verb::Buffer),
        b"reinit" => Some(Verb::OfRequest(RequestVerb::Reinit)),
        b"begin" => Some(Verb::Begin),
        b"complete" => Some(Verb::Complete),
        b"row" => Some(Verb::Row),
        b"grab" => Some(Verb::Grab),
        b"range" => Some(Verb::Range),
        b"cancel" => Some(Verb::OfRequest(RequestVerb::Cancel)),
        b"query" => Some(Verb::Query),
        b"next" => Some(Verb::Next),
        b"menu" => Some(Verb::Menu),
        b"told" => Some(Verb::Told),
        b"state" => Some(Verb::OfRequest(RequestVerb::State)),
        b"alloc" => Some(Verb::OfRequest(RequestVerb::Alloc)),
        b"free" => Some(Verb::OfRequest(RequestVerb::Free)),
        b"sub" => Some(Verb::Subscribe),
        b"unsub" => Some(Verb::Unsubscribe),
        b"open" => Some(Verb::Open),
        b"close" => Some(Verb::Close),
        b"off" => Some(Verb::Off),
        b"audit" => Some(Verb::Audit),
        _ => None,
    }
}

fn read_command(
    alloc: Global,
    known: &ControlWords,
    verb: &[u8],
    operands: &[u8],
) -> Result<Option<Command>, LineFault>
    requires { length operands.now < 2 ^ 32 }
    ensures { IsRead result (option_map (λ command. Some command) (command_of known.now (verb_of verb.now) (words_in operands.now))) }
{
    match read_verb(verb) {
        Some(Verb::Set) => read_set(alloc, known, operands),
        Some(Verb::Get) => read_get(alloc, known, operands),
        Some(Verb::Try) => read_try(alloc, known, operands),
        Some(verb) => read_other(known, verb, operands),
        None => Err(LineFault::NotACommand),
    }
}

// A command that isn't about a list, as that of a line.
fn read_other(
    known: &ControlWords,
    verb: Verb,
    operands: &[u8],
) -> Result<Option<Command>, LineFault>
    requires { is_short verb ≡ true }
    ensures { IsRead result (option_map (λ command. Some command) (command_of known.now (Some verb) (words_in operands.now))) }
{
    match read_short(known, verb, operands) {
        Ok(command) => Ok(Some(command)),
        Err(fault) => Err(fault),
    }
}

// How many operands a command has at most that isn't about a list.
const MOST: usize = 5;

// A command that isn't about a list.
fn read_short(known: &ControlWords, verb: Verb, operands: &[u8]) -> Result<Command, LineFault>
    requires { is_short verb ≡ true }
    ensures { IsRead result (command_of known.now (Some verb) (words_in operands.now)) }
{
    let mut room: [&[u8]; MOST] = [b""; MOST];
    let mut count = 0;
    let mut rest = operands;
    while let Some((word, more)) = first_word(rest) {
        if count == MOST {
            return Err(LineFault::NotACommand);
        }
        room[count] = word;
        count += 1;
        rest = more;
    }
    read_operands(known, verb, &room[..count])
}

fn read_operands(known: &ControlWords, verb: Verb, operands: &[&[u8]]) -> Result<Command, LineFault>
    requires { is_short verb ≡ true }
    ensures { IsRead result (command_of known.now (Some verb) (map (λ w. w.now) operands.now)) }
{
    match verb {
        Verb::Open => read_open(operands),
        Verb::Close => read_close(operands),
        Verb::Grab => read_grab(known, operands),
        Verb::Range => read_range(known, operands),
        Verb::Query => read_query(known, operands),
        Verb::Next => read_next(operands),
        Verb::Menu => read_menu(known, operands),
        Verb::Told => read_told(operands),
        Verb::Buffer => read_buffer(operands),
        Verb::OfRequest(verb) => read_of_request(verb, operands),
        Verb::Row => read_row(operands),
        Verb::Begin => read_bare(Command::Begin, operands),
        Verb::Complete => read_bare(Command::Complete, operands),
        Verb::Off => read_bare(Command::Off, operands),
        Verb::Subscribe => read_subscribe(known, operands),
        Verb::Unsubscribe => read_unsubscribe(known, operands),
        Verb::Take => read_take(operands),
        Verb::Audit => read_bare(Command::Audit, operands),
        // commands about lists are read word by word
        Verb::Get | Verb::Set | Verb::Try => Err(LineFault::NotACommand),
    }
}

fn read_open(operands: &[&[u8]]) -> Result<Command, LineFault>
    ensures { IsRead result (open_of (map (λ w. w.now) operands.now)) }
{
    let [fh, handler] = operands else {
        return Err(LineFault::NotACommand);
    };
    match (Name::read(*fh), decimal_u32(*handler)) {
        (Some(fh), Some(handler)) => Ok(Command::Open { fh, handler }),
        _ => Err(LineFault::NotACommand),
    }
}

fn read_close(operands: &[&[u8]]) -> Result<Command, LineFault>
    ensures { IsRead result (close_of (map (λ w. w.now) operands.now)) }
{
    let [fh] = operands else {
        return Err(LineFault::NotACommand);
    };
    match Name::read(*fh) {
        Some(fh) => Ok(Command::Close { fh }),
        None => Err(LineFault::NotACommand),
    }
}

fn read_grab(known: &ControlWords, operands: &[&[u8]]) -> Result<Command, LineFault>
    ensures { IsRead result (grab_of known.now (map (λ w. w.now) operands.now)) }
{
    let [control, form] = operands else {
        return Err(LineFault::NotACommand);
    };
    match (known.number_of(*control), on_or_off(*form)) {
        (Some(control), Some(on)) => Ok(Command::Grab { control, on }),
        _ => Err(LineFault::NotACommand),
    }
}

fn on_or_off(word: &[u8]) -> Option<bool>
    ensures { result ≡ on_or_off_of word.now }
{
    match word {
        b"on" => Some(true),
        b"off" => Some(false),
        _ => None,
    }
}

fn read_range(known: &ControlWords, operands: &[&[u8]]) -> Result<Command, LineFault>
    ensures { IsRead result (range_of known.now (map (λ w. w.now) operands.now)) }
{
    let [control, min, max, step, default_value] = operands else {
        return Err(LineFault::NotACommand);
    };
    match (
        known.number_of(*control),
        decimal_i64(*min),
        decimal_i64(*max),
        decimal_u64(*step),
        decimal_i64(*default_value),
    ) {
        (Some(control), Some(min), Some(max), Some(step), Some(default_value)) => {
            Ok(Command::Range {
                control,
                min,
                max,
                step,
                default_value,
            })
        }
        _ => Err(LineFault::NotACommand),
    }
}

fn read_query(known: &ControlWords, operands: &[&[u8]]) -> Result<Command, LineFault>
    ensures { IsRead result (query_of known.now (map (λ w. w.now) operands.now)) }
{
    match handle_and_control(known, operands) {
        Some((fh, id)) => Ok(Command::Query { fh, id }),
        None => Err(LineFault::NotACommand),
    }
}

// A file handle and a control, and nothing else.
fn handle_and_control(known: &ControlWords, operands: &[&[u8]]) -> Option<(Name, CtrlId)>
    ensures { result ≡ handle_and_control_of known.now (map (λ w. w.now) operands.now) }
{
    let [fh, control] = operands else {
        return None;
    };
    match (Name::read(*fh), control_id(known, *control)) {
        (Some(fh), Some(id)) => Some((fh, id)),
        _ => None,
    }
}

fn read_next(operands: &[&[u8]]) -> Result<Command, LineFault>
    ensures { IsRead result (next_of (map (λ w. w.now) operands.now)) }
{
    let [fh, id] = operands else {
        return Err(LineFault::NotACommand);
    };
    match (Name::read(*fh), hexadecimal_u32(*id)) {
        (Some(fh), Some(id)) => Ok(Command::Next { fh, id: CtrlId(id) }),
        _ => Err(LineFault::NotACommand),
    }
}

fn read_menu(known: &ControlWords, operands: &[&[u8]]) -> Result<Command, LineFault>
    ensures { IsRead result (menu_of known.now (map (λ w. w.now) operands.now)) }
{
    let [fh, control, index] = operands else {
        return Err(LineFault::NotACommand);
    };
    match (
        Name::read(*fh),
        control_id(known, *control),
        decimal_u32(*index),
    ) {
        (Some(fh), Some(id), Some(index)) => Ok(Command::Menu { fh, id, index }),
        _ => Err(LineFault::NotACommand),
    }
}

fn read_told(operands: &[&[u8]]) -> Result<Command, LineFault>
    ensures { IsRead result (replied_with (map (λ w. w.now) operands.now)) }
{
    let [cluster] = operands else {
        return Err(LineFault::NotACommand);
    };
    match decimal_u32(*cluster) {
        Some(cluster) => Ok(Command::Told { cluster }),
        None => Err(LineFault::NotACommand),
    }
}

fn read_buffer(operands: &[&[u8]]) -> Result<Command, LineFault>
    ensures { IsRead result (buffer_of (map (λ w. w.now) operands.now)) }
{
    let [request, buffer] = operands else {
        return Err(LineFault::NotACommand);
    };
    match (Name::read(*request), decimal_u32(*buffer)) {
        (Some(request), Some(buffer)) => Ok(Command::Buffer { request, buffer }),
        _ => Err(LineFault::NotACommand),
    }
}

fn read_of_request(verb: RequestVerb, operands: &[&[u8]]) -> Result<Command, LineFault>
    ensures { IsRead result (request_of verb (map (λ w. w.now) operands.now)) }
{
    let [request] = operands else {
        return Err(LineFault::NotACommand);
    };
    match Name::read(*request) {
        Some(request) => Ok(command_on(verb, request)),
        None => Err(LineFault::NotACommand),
    }
}

fn command_on(verb: RequestVerb, request: Name) -> Command
    ensures { result ≡ on_request verb request }
{
    match verb {
        RequestVerb::Alloc => Command::Alloc { request },
        RequestVerb::Queue => Command::Queue { request },
        RequestVerb::Cancel => Command::Cancel { request },
        RequestVerb::Reinit => Command::Reinit { request },
        RequestVerb::Free => Command::Free { request },
        RequestVerb::State => Command::State { request },
    }
}

fn read_row(operands: &[&[u8]]) -> Result<Command, LineFault>
    ensures { IsRead result (row_of (map (λ w. w.now) operands.now)) }
{
    let [place] = operands else {
        return Err(LineFault::NotACommand);
    };
    match decimal_u32(*place) {
        Some(place) => Ok(Command::Row { place }),
        None => Err(LineFault::NotACommand),
    }
}

// A command without operands.
fn read_bare(command: Command, operands: &[&[u8]]) -> Result<Command, LineFault>
    ensures { IsRead result (bare_of command (map (λ w. w.now) operands.now)) }
{
    match operands {
        [] => Ok(command),
        _ => Err(LineFault::NotACommand),
    }
}

fn read_subscribe(known: &ControlWords, operands: &[&[u8]]) -> Result<Command, LineFault>
    ensures { IsRead result (subscribe_of known.now (map (λ w. w.now) operands.now)) }
{
    let [fh, control, words @ ..] = operands else {
        return Err(LineFault::NotACommand);
    };
    match (
        Name::read(*fh),
        control_id(known, *control),
        sub_flags(words),
    ) {
        (Some(fh), Some(id), Some(flags)) => Ok(Command::Subscribe { fh, id, flags }),
        _ => Err(LineFault::NotACommand),
    }
}

// How a file handle subscribes: no word, `initial`, `feedback`, or both in this order.
fn sub_flags(words: &[&[u8]]) -> Option<SubFlags>
    ensures { result ≡ sub_flags_of (map (λ w. w.now) words.now) }
{
    match words {
        [] => Some(SubFlags::empty()),
        [word] => sub_flag(*word),
        [first, second] if *first == INITIAL && *second == FEEDBACK => {
            Some(SubFlags::SEND_INITIAL.union(SubFlags::ALLOW_FEEDBACK))
        }
        _ => None,
    }
}

// The words for the flags of a subscription.
const INITIAL: &[u8] = b"initial";

const FEEDBACK: &[u8] = b"feedback";

fn sub_flag(word: &[u8]) -> Option<SubFlags>
    ensures { result ≡ sub_flag_of word.now }
{
    if word == INITIAL {
        Some(SubFlags::SEND_INITIAL)
    } else if word == FEEDBACK {
        Some(SubFlags::ALLOW_FEEDBACK)
    } else {
        None
    }
}

fn read_unsubscribe(known: &ControlWords, operands: &[&[u8]]) -> Result<Command, LineFault>
    ensures { IsRead result (unsubscribe_of known.now (map (λ w. w.now) operands.now)) }
{
    match handle_and_control(known, operands) {
        Some((fh, id)) => Ok(Command::Unsubscribe { fh, id }),
        None => Err(LineFault::NotACommand),
    }
}

fn read_take(operands: &[&[u8]]) -> Result<Command, LineFault>
    ensures { IsRead result (take_of (map (λ w. w.now) operands.now)) }
{
    let [fh] = operands else {
        return Err(LineFault::NotACommand);
    };
    match Name::read(*fh) {
        Some(fh) => Ok(Command::Take { fh }),
        None => Err(LineFault::NotACommand),
    }
}

#[tactic(auto, using(crate::proofs::Walks::list_by_head))]
fn read_get(
    alloc: Global,
    known: &ControlWords,
    operands: &[u8],
) -> Result<Option<Command>, LineFault>
    requires { length operands.now < 2 ^ 32 }
    ensures { IsRead result (option_map (λ command. Some command) (list_command_of known.now (λ fh which list. commands.Get fh which list) EntryForm.Control (words_in operands.now))) }
{
    let Some((fh, which, entries)) = list_head(operands) else {
        return Err(LineFault::NotACommand);
    };
    let list = read_list(alloc, known, EntryForm::Control, entries)?;
    Ok(Some(Command::Get { fh, which, list }))
}

#[tactic(auto, using(crate::proofs::Walks::list_by_head))]
fn read_set(
    alloc: Global,
    known: &ControlWords,
    operands: &[u8],
) -> Result<Option<Command>, LineFault>
    requires { length operands.now < 2 ^ 32 }
    ensures { IsRead result (option_map (λ command. Some command) (list_command_of known.now (λ fh which list. commands.Set fh which list) EntryForm.ControlWithValue (words_in operands.now))) }
{
    let Some((fh, which, entries)) = list_head(operands) else {
        return Err(LineFault::NotACommand);
    };
    let list = read_list(alloc, known, EntryForm::ControlWithValue, entries)?;
    Ok(Some(Command::Set { fh, which, list }))
}

#[tactic(auto, using(crate::proofs::Walks::list_by_head))]
fn read_try(
    alloc: Global,
    known: &ControlWords,
    operands: &[u8],
) -> Result<Option<Command>, LineFault>
    requires { length operands.now < 2 ^ 32 }
    ensures { IsRead result (option_map (λ command. Some command) (list_command_of known.now (λ fh which list. commands.Try fh which list) EntryForm.ControlWithValue (words_in operands.now))) }
{
    let Some((fh, which, entries)) = list_head(operands) else {
        return Err(LineFault::NotACommand);
    };
    let list = read_list(alloc, known, EntryForm::ControlWithValue, entries)?;
    Ok(Some(Command::Try { fh, which, list }))
}

// What stands before the entries of a command about a list, and these.
#[inline(always)]
fn list_head(operands: &[u8]) -> Option<(Name, WhichWord, &[u8])>
    ensures head { option_map (λ h. (h.0, h.1, words_in h.2.now)) result ≡ head_of (words_in operands.now) }
    ensures within { IfSome result (λ h. length h.2.now ≤ length operands.now) }
{
    let Some((fh, operands)) = first_word(operands) else {
        return None;
    };
    let Some((which, entries)) = first_word(operands) else {
        return None;
    };
    match (Name::read(fh), read_which(which)) {
        (Some(fh), Some(which)) => Some((fh, which, entries)),
        _ => None,
    }
}

// Which values a list speaks of.
fn read_which(word: &[u8]) -> Option<WhichWord>
    ensures { result ≡ which_of word.now }
{
    if let Some(number) = fixed_which(word) {
        return Some(WhichWord::Number(number));
    }
    match word.strip_prefix(b"req:") {
        Some(name) => Name::read(name).map(WhichWord::Request),
        None => hexadecimal_u32(word).map(WhichWord::Number),
    }
}

// The numbers that have words.
fn fixed_which(word: &[u8]) -> Option<u32>
    ensures { result ≡ fixed_which_of word.now }
{
    match word {
        b"cur" => Some(0),
        b"def" => Some(0x0f00_0000),
        b"user" => Some(0x0098_0000),
        b"camera" => Some(0x009a_0000),
        _ => None,
    }
}

// How the entries of a list are written.
#[derive(Clone, Copy)]
enum EntryForm {
    // `CTRL`
    Control,
    // `CTRL=V`
    ControlWithValue,
}

// The entries of a list. Most lists have one.
fn read_list(
    alloc: Global,
    known: &ControlWords,
    form: EntryForm,
    text: &[u8],
) -> Result<EntryList, LineFault>
    requires { length text.now < 2 ^ 32 }
    ensures { IsRead result (list_of known.now form (words_in text.now)) }
{
    match only_word(text) {
        Some(word) => read_single(alloc, known, form, text, word),
        None => read_several(alloc, known, form, text),
    }
}

// The entry of a text that has no more words.
fn read_single(
    alloc: Global,
    known: &ControlWords,
    form: EntryForm,
    text: &[u8],
    word: &[u8],
) -> Result<EntryList, LineFault>
    requires { words_in text.now ≡ word.now ∷ [] }
    ensures { IsRead result (list_of known.now form (words_in text.now)) }
{
    let _ = text;
    let Ok(mut list) = Vec::with_capacity(alloc, 1) else {
        return Err(LineFault::Memory);
    };
    let Some(ExtControl { id, value }) = read_entry(known, form, word) else {
        return Err(LineFault::NotACommand);
    };
    list.push_reserved(ExtControl { id, value });
    Ok(EntryList::from_vec(list))
}

fn read_several(
    alloc: Global,
    known: &ControlWords,
    form: EntryForm,
    text: &[u8],
) -> Result<EntryList, LineFault>
    requires { length text.now < 2 ^ 32 }
    ensures { IsRead result (list_of known.now form (words_in text.now)) }
{
    let Ok(mut list) = Vec::with_capacity(alloc, word_count(text)) else {
        return Err(LineFault::Memory);
    };
    let mut rest = text;
    while let Some((word, more)) = first_word(rest) {
        let Some(ExtControl { id, value }) = read_entry(known, form, word) else {
            return Err(LineFault::NotACommand);
        };
        list.push_reserved(ExtControl { id, value });
        rest = more;
    }
    Ok(EntryList::from_vec(list))
}

#[inline(always)]
fn read_entry(known: &ControlWords, form: EntryForm, word: &[u8]) -> Option<ExtControl>
    ensures { result ≡ entry_of known.now form word.now }
{
    match form {
        EntryForm::Control => Some(ExtControl {
            id: control_id(known, word)?,
            value: CtrlValue::Number(0),
        }),
        EntryForm::ControlWithValue => read_valued_entry(known, word),
    }
}

// An entry with a value: what stands before the first `=`, and what behind it.
fn read_valued_entry(known: &ControlWords, word: &[u8]) -> Option<ExtControl>
    ensures { result ≡ entry_at known.now word.now (position (λ b. b == 61) word.now) }
{
    let at = equals_sign(word)?;
    match (control_id(known, &word[..at]), value(&word[at + 1..])) {
        (Some(id), Some(value)) => Some(ExtControl { id, value }),
        _ => None,
    }
}

fn equals_sign(word: &[u8]) -> Option<usize>
    ensures at { result ≡ position (λ b. b == 61) word.now }
    ensures within { IfSome result (λ at. at < length word.now) }
{
    word.iter().position(|byte| *byte == b'=')
}
