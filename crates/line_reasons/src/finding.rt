//! What of a line isn't in its command's form. Whether a word is what it is to be is mostly asked of `read_line` itself, by the shortest command with such a
//! word.

use crate::forms::{Form, Kind, Slot, Tail, form_of};
use crate::names::Names;
use crate::nearest::{nearest_verb, nearest_word};
use crate::reason::{Complaint, Fault, Rule};
use crate::shown::Word;
use crate::values::{in_bound, in_number, in_step, in_value, is_quoted, item_begun};
use ctrl_calls::Driver;
use ctrl_types::CtrlId;
use script_lines::{Command, ControlWords, LineFault, MAX_NAME, decimal_u64, read_line};
use std::alloc::{AllocError, Global};

/// What is wrong with a line that isn't a command: the first word that its command doesn't take, and why. None where nothing is found,
/// as of a command. The error is that a growth was refused.
///
/// - `names`: what the line may name.
/// - `line`: the line, without its line feed; any bytes.
pub fn reason_of<'a, D: Driver>(
    alloc: Global,
    names: &Names<'a, D>,
    line: &'a [u8],
) -> Result<Option<Complaint<'a>>, AllocError> {
    let words = words_of(alloc, line)?;
    in_words(alloc, names, words.as_slice())
}

/// The same of a line of one of two scripts, which has no command `audit`.
pub fn reason_in_pair<'a, D: Driver>(
    alloc: Global,
    names: &Names<'a, D>,
    line: &'a [u8],
) -> Result<Option<Complaint<'a>>, AllocError> {
    let words = words_of(alloc, line)?;
    let rule = match words.as_slice() {
        [b"=="] => Rule::DividesAgain,
        [b"audit", ..] => Rule::Audit,
        words => return in_words(alloc, names, words),
    };
    Ok(first_word(words.as_slice(), Fault::Against(rule)))
}

fn words_of(alloc: Global, line: &[u8]) -> Result<Vec<&[u8]>, AllocError> {
    line.split(|byte| *byte == b' ')
        .filter(|word| !word.is_empty())
        .collect(alloc)
}

fn first_word<'a>(words: &[&'a [u8]], fault: Fault<'a>) -> Option<Complaint<'a>> {
    let word = words.first()?;
    Some(Complaint::of(1, *word, fault))
}

fn in_words<'a, D: Driver>(
    alloc: Global,
    names: &Names<'a, D>,
    words: &[&'a [u8]],
) -> Result<Option<Complaint<'a>>, AllocError> {
    let [verb, operands @ ..] = words else {
        return Ok(None);
    };
    if let [b'#', ..] = *verb {
        return Ok(None);
    }
    if let Some(complaint) = stray_byte(words) {
        return Ok(Some(complaint));
    }
    match form_of(*verb) {
        Some(form) => in_form(alloc, names, form, operands),
        None => {
            let fault = in_verb(alloc, words)?;
            Ok(first_word(words, fault))
        }
    }
}

// Why no command begins with the first of these words.
fn in_verb<'a>(alloc: Global, words: &[&'a [u8]]) -> Result<Fault<'a>, AllocError> {
    let verb = match words {
        [b"=="] => return Ok(Fault::Against(Rule::Divides)),
        [[b'[', ..], ..] => return Ok(Fault::Against(Rule::DeviceFile)),
        [[b'/', b'/' | b'*', ..], ..] => return Ok(Fault::Against(Rule::CommentMark)),
        [b"v4l2-ctl", ..] => return Ok(Fault::Against(Rule::OtherProgram)),
        [verb, ..] => nearest_verb(alloc, *verb)?,
        [] => None,
    };
    Ok(match verb {
        Some(verb) => Fault::NearCommand(Word(verb)),
        None => Fault::NoCommand,
    })
}

// A byte that no word of a command has, and that can't be seen.
fn stray_byte<'a>(words: &[&'a [u8]]) -> Option<Complaint<'a>> {
    for (place, &word) in words.iter().enumerate() {
        let number = place.saturating_add(1);
        let rule = if place == 0 && word.starts_with(b"\xef\xbb\xbf") {
            Rule::OrderMark
        } else if word.contains(&b'\t') {
            Rule::Tab
        } else if number == words.len() && word.ends_with(b"\r") {
            Rule::CarriageReturn
        } else {
            continue;
        };
        return Some(Complaint::of(number, word, Fault::Against(rule)));
    }
    None
}

// What is wrong with the words behind a command's first.
fn in_form<'a, D: Driver>(
    alloc: Global,
    names: &Names<'a, D>,
    form: Form,
    operands: &[&'a [u8]],
) -> Result<Option<Complaint<'a>>, AllocError> {
    let (text, slots, tail) = form;
    for (place, &slot) in slots.iter().enumerate() {
        let number = place.saturating_add(2);
        let Some(&word) = operands.get(place) else {
            return Ok(Some(Complaint::of_missing(number, slot.what, text)));
        };
        if let Some(fault) = in_slot(alloc, names, slot, word)? {
            let next = operands.get(place.saturating_add(1)).copied();
            let is_before = is_before_word(alloc, names.known, slot.kind, next)?;
            let fault = if is_before {
                Fault::Further(text)
            } else {
                fault
            };
            return Ok(Some(Complaint::of(number, word, fault)));
        }
    }
    let (_, rest) = operands.split_at(slots.len().min(operands.len()));
    let first = slots.len().saturating_add(2);
    match tail {
        Tail::Nothing => Ok(in_none(rest, first, text)),
        Tail::Subscription => Ok(in_subscription(rest, first)),
        Tail::All(slot) => in_slots(alloc, names, slot, rest, first),
    }
}

// Whether a word stands before the one that is to be in its place, as a file handle's name before a control that is grabbed.
fn is_before_word(
    alloc: Global,
    known: &ControlWords,
    kind: Kind,
    next: Option<&[u8]>,
) -> Result<bool, AllocError> {
    match (kind, next) {
        (Kind::Word, Some(next)) => is_right(alloc, known, kind, next),
        _ => Ok(false),
    }
}

// What is wrong with words that no command has there, of which the first has this number.
fn in_none<'a>(words: &[&'a [u8]], first: usize, form: &'static str) -> Option<Complaint<'a>> {
    let word = words.first()?;
    Some(Complaint::of(first, *word, Fault::Further(form)))
}

// What is wrong with words that are all to be the same, of which the first has this number.
fn in_slots<'a, D: Driver>(
    alloc: Global,
    names: &Names<'a, D>,
    slot: Slot,
    words: &[&'a [u8]],
    first: usize,
) -> Result<Option<Complaint<'a>>, AllocError> {
    for (place, &word) in words.iter().enumerate() {
        if let Some(fault) = in_slot(alloc, names, slot, word)? {
            let number = first.saturating_add(place);
            let fault = match item_around(alloc, names, slot.kind, words, place) {
                Ok(Some((name, index))) => Fault::Item(name, index),
                Ok(None) => fault,
                Err(error) => return Err(error),
            };
            return Ok(Some(Complaint::of(number, word, fault)));
        }
    }
    Ok(None)
}

// The item, and its index, that is named by several words, of which this is one.
fn item_around<'a, D: Driver>(
    alloc: Global,
    names: &Names<'a, D>,
    kind: Kind,
    words: &[&[u8]],
    place: usize,
) -> Result<Option<(&'a str, u32)>, AllocError> {
    let (Kind::Entry, Some(&word)) = (kind, words.get(place)) else {
        return Ok(None);
    };
    if let Some(&next) = words.get(place.saturating_add(1)) {
        let item = item_over(alloc, names, word, next)?;
        if item.is_some() {
            return Ok(item);
        }
    }
    match place.checked_sub(1) {
        Some(before) => match words.get(before) {
            Some(&before) => item_over(alloc, names, before, word),
            None => Ok(None),
        },
        None => Ok(None),
    }
}

// The item, and its index, whose first two words are the value of a word and the word behind it.
fn item_over<'a, D: Driver>(
    alloc: Global,
    names: &Names<'a, D>,
    word: &[u8],
    next: &[u8],
) -> Result<Option<(&'a str, u32)>, AllocError> {
    let Some(at) = word.iter().position(|byte| *byte == b'=') else {
        return Ok(None);
    };
    let (control, value) = word.split_at(at);
    let id = id_of(alloc, names.known, control)?;
    let value = value.get(1..).unwrap_or(value);
    Ok(match names.control(control, id) {
        Some(control) => item_begun(names, control, value, next),
        None => None,
    })
}

// What is wrong with words that say how a file handle subscribes, of which the first has this number.
fn in_subscription<'a>(words: &[&'a [u8]], first: usize) -> Option<Complaint<'a>> {
    let (initial, feedback): (&[u8], &[u8]) = (b"initial", b"feedback");
    let right = match words {
        [one, two, ..] if *one == initial && *two == feedback => 2,
        [one, ..] if *one == initial || *one == feedback => 1,
        _ => 0,
    };
    let word = words.get(right)?;
    let number = first.saturating_add(right);
    Some(Complaint::of(number, *word, Fault::Against(Rule::Subscription)))
}

// Why a word isn't what it is to be, if it isn't.
fn in_slot<'a, D: Driver>(
    alloc: Global,
    names: &Names<'a, D>,
    slot: Slot,
    word: &'a [u8],
) -> Result<Option<Fault<'a>>, AllocError> {
    if is_right(alloc, names.known, slot.kind, word)? {
        return Ok(None);
    }
    match fault_in(alloc, names, slot, word) {
        Ok(fault) => Ok(Some(fault)),
        Err(error) => Err(error),
    }
}

// Why a word isn't what it is to be, which it isn't.
fn fault_in<'a, D: Driver>(
    alloc: Global,
    names: &Names<'a, D>,
    slot: Slot,
    word: &'a [u8],
) -> Result<Fault<'a>, AllocError> {
    match slot.kind {
        Kind::Control => in_control(alloc, names, word),
        Kind::Word => in_word(alloc, names, word),
        Kind::Entry => in_entry(alloc, names, word),
        Kind::Id => Ok(in_id(names.known, word)),
        Kind::Cluster => Ok(in_cluster(names, slot.what, word)),
        kind => Ok(fault_of(kind, slot.what, word)),
    }
}

// The same of a word that names no control.
fn fault_of(kind: Kind, what: &'static str, word: &[u8]) -> Fault<'static> {
    match kind {
        Kind::Name if word.len() > MAX_NAME => Fault::LongName(what),
        Kind::Name => Fault::Name(what),
        Kind::Number | Kind::Cluster => in_number(word, what),
        Kind::Bound => in_bound(word, what),
        Kind::Step => in_step(word, what),
        Kind::Which if word.starts_with(b"req:") => Fault::Against(Rule::Request),
        _ => Fault::Not(what),
    }
}

// Whether a word is what it is to be.
fn is_right(
    alloc: Global,
    known: &ControlWords,
    kind: Kind,
    word: &[u8],
) -> Result<bool, AllocError> {
    match kind {
        Kind::Name => is_read(alloc, known, b"close ", word, b""),
        Kind::Number | Kind::Cluster => is_read(alloc, known, b"told ", word, b""),
        Kind::Control => is_read(alloc, known, b"query f ", word, b""),
        Kind::Word => is_read(alloc, known, b"grab ", word, b" on"),
        Kind::Id => is_read(alloc, known, b"next f ", word, b""),
        Kind::Which => is_read(alloc, known, b"get f ", word, b""),
        Kind::OnOff => Ok(is_on_or_off(word)),
        Kind::Bound => is_number(alloc, known, word),
        Kind::Step => Ok(decimal_u64(word).is_some()),
        Kind::Entry => is_read(alloc, known, b"set f cur ", word, b""),
    }
}

// Whether a word says how a grab is to be. No line asks this of `read_line`, as a table may have no word to grab.
fn is_on_or_off(word: &[u8]) -> bool {
    let (on, off): (&[u8], &[u8]) = (b"on", b"off");
    word == on || word == off
}

// Whether a word is a value that isn't the bytes of an array.
fn is_number(alloc: Global, known: &ControlWords, word: &[u8]) -> Result<bool, AllocError> {
    Ok(!word.starts_with(b"x") && is_read(alloc, known, b"set f cur 0x0=", word, b"")?)
}

// Why a word isn't a control.
fn in_control<'a, D: Driver>(
    alloc: Global,
    names: &Names<'a, D>,
    word: &[u8],
) -> Result<Fault<'a>, AllocError> {
    // what begins with a digit is an id that is written wrong
    if let [b'0'..=b'9', ..] = word {
        return Ok(Fault::Against(Rule::Id));
    }
    if is_quoted(word) {
        return Ok(Fault::Against(Rule::Quotes));
    }
    if has_comma_behind(names.known, word) {
        return Ok(Fault::Against(Rule::Comma));
    }
    let words = names.words();
    Ok(match nearest_word(alloc, word, words)? {
        Some(near) => Fault::NearWord(Word(near)),
        None => Fault::NoWord(words),
    })
}

// Whether a comma stands behind a control's word.
fn has_comma_behind(known: &ControlWords, word: &[u8]) -> bool {
    match word.iter().position(|byte| *byte == b',') {
        Some(at) => {
            let (control, _) = word.split_at(at);
            known.number_of(control).is_some()
        }
        None => false,
    }
}

// Why a word isn't one of the device.
fn in_word<'a, D: Driver>(
    alloc: Global,
    names: &Names<'a, D>,
    word: &[u8],
) -> Result<Fault<'a>, AllocError> {
    let Some(id) = id_of(alloc, names.known, word)? else {
        return in_control(alloc, names, word);
    };
    Ok(match names.word_of_id(id) {
        Some(word) => Fault::IdOfWord(Word(word)),
        None => Fault::NoWord(names.words()),
    })
}

// Why a word isn't the number of a cluster.
fn in_cluster<'a, D: Driver>(
    names: &Names<'a, D>,
    what: &'static str,
    word: &'a [u8],
) -> Fault<'a> {
    match names.cluster(word) {
        Some(cluster) => Fault::ClusterOf(Word(word), cluster),
        None => in_number(word, what),
    }
}

// Why a word isn't an id.
fn in_id(known: &ControlWords, word: &[u8]) -> Fault<'static> {
    match known.id_of(word) {
        Some(id) => Fault::WordOfId(id.0),
        None => Fault::Against(Rule::Id),
    }
}

// Why a word isn't a control with a value.
fn in_entry<'a, D: Driver>(
    alloc: Global,
    names: &Names<'a, D>,
    word: &[u8],
) -> Result<Fault<'a>, AllocError> {
    let Some(at) = word.iter().position(|byte| *byte == b'=') else {
        return Ok(Fault::Against(Rule::Entry));
    };
    let (control, value) = word.split_at(at);
    if !is_read(alloc, names.known, b"query f ", control, b"")? {
        return in_control(alloc, names, control);
    }
    let id = id_of(alloc, names.known, control)?;
    let value = value.get(1..).unwrap_or(value);
    Ok(in_value(names, control, id, value))
}

// The id that a word writes, if it does.
fn id_of(alloc: Global, known: &ControlWords, word: &[u8]) -> Result<Option<CtrlId>, AllocError> {
    match read(alloc, known, b"next f ", word, b"")? {
        Some(Command::Next { id, .. }) => Ok(Some(id)),
        _ => Ok(None),
    }
}

// Whether a line of these three parts is a command.
fn is_read(
    alloc: Global,
    known: &ControlWords,
    before: &[u8],
    word: &[u8],
    behind: &[u8],
) -> Result<bool, AllocError> {
    Ok(read(alloc, known, before, word, behind)?.is_some())
}

// The command of a line of these three parts, if it is one.
fn read(
    alloc: Global,
    known: &ControlWords,
    before: &[u8],
    word: &[u8],
    behind: &[u8],
) -> Result<Option<Command>, AllocError> {
    let mut line = Vec::from_slice(alloc, before)?;
    line.extend_from_slice(word)?;
    line.extend_from_slice(behind)?;
    if line.len() > 2_097_152 {
        // no line of a script is so long
        return Ok(None);
    }
    match read_line(alloc, known, line.as_slice()) {
        Ok(command) => Ok(command),
        Err(LineFault::NotACommand) => Ok(None),
        Err(LineFault::Memory) => Err(AllocError),
    }
}
