//! Why a file isn't TOML, in words.

use crate::explaining::brief;
use std::alloc::{AllocError, Global};
use std::fmt::Write;
use toml::de::Error;

// The line of the fault, from 1; none where memory was wanting.
pub(crate) fn syntax_line(text: &[u8], error: &Error) -> Option<usize> {
    let span = error.span()?;
    let before = text.get(..span.start)?;
    let ends = before.iter().filter(|byte| **byte == b'\n').count();
    Some(ends.saturating_add(1))
}

// What is said of the fault.
pub(crate) fn syntax_words(
    alloc: Global,
    text: &[u8],
    error: &Error,
) -> Result<String, AllocError> {
    let mut out = String::new(alloc);
    let (Some(line), Some(span)) = (syntax_line(text, error), error.span()) else {
        write!(out, "{}", error.message())?;
        return Ok(out);
    };
    let (begin, end) = line_around(text, span.start);
    let before = text_of(text, begin, span.start);
    let whole = text_of(text, begin, end);
    write!(out, "line {line}")?;
    if error.message() == "duplicate key" {
        write_duplicate(&mut out, text_of(text, span.start, end))?;
    } else if let Some(word) = bare_word(before, whole) {
        write!(out, ": a text stands in quotation marks: {:?}", brief(word))?;
    } else if whole.is_empty() {
        write!(out, ": {}", error.message())?;
        if error.message() == "invalid UTF-8" {
            write!(out, "; save the file in UTF-8")?;
        }
    } else {
        let column = before.chars().count().saturating_add(1);
        write!(out, ", column {column}: {}", error.message())?;
        let rest = text_of(text, span.start, end);
        let advice = advice_on(error.message(), rest.trim(), whole.trim());
        if !advice.is_empty() {
            write!(out, "; {advice}")?;
        }
    }
    Ok(out)
}

// What to do about a fault, where that is known.
//
// - `rest`: what the line has from the fault on.
fn advice_on(message: &str, rest: &str, line: &str) -> &'static str {
    let value = part_behind(line, "=");
    if message == "invalid string" && rest.is_empty() {
        "it is closed by a quotation mark on this line"
    } else if rest.starts_with("//") {
        "a comment begins with #"
    } else if value.starts_with("True") || value.starts_with("False") {
        "true and false are of small letters"
    } else if begins_in_other_marks(rest) {
        "the quotation marks of TOML are straight"
    } else if is_of_hexadecimal(part_before(value, "#")) {
        "a hexadecimal number begins with 0x, and another one not with 0"
    } else if line.ends_with(" Controls") {
        "tools/device_from_v4l2 makes a device file of a listing of v4l2-ctl"
    } else if line.starts_with("open ") {
        "a script has no --device before it"
    } else {
        ""
    }
}

fn part_behind<'a>(text: &'a str, mark: &str) -> &'a str {
    match text.split_once(mark) {
        Some((_, part)) => part.trim(),
        None => "",
    }
}

// Whether a text begins with a quotation mark that is none of TOML.
fn begins_in_other_marks(text: &str) -> bool {
    match text.chars().next() {
        Some(first) => matches!(first, '\u{2018}'..='\u{201f}'),
        None => false,
    }
}

fn is_of_hexadecimal(value: &str) -> bool {
    value.starts_with("0") && value.bytes().all(|byte| byte.is_ascii_hexdigit())
}

// Where the line of a place begins and ends.
fn line_around(text: &[u8], at: usize) -> (usize, usize) {
    let at = at.min(text.len());
    let begin = match text[..at].iter().rposition(|byte| *byte == b'\n') {
        Some(end) => end + 1,
        None => 0,
    };
    let end = match text[at..].iter().position(|byte| *byte == b'\n') {
        Some(end) => at + end,
        None => text.len(),
    };
    (begin, end)
}

// A part of the text; empty where it isn't UTF-8.
fn text_of(text: &[u8], from: usize, to: usize) -> &str {
    match text.get(from..to) {
        Some(part) => str::from_utf8(part).unwrap_or(""),
        None => "",
    }
}

// What stands twice, where the second statement begins so.
fn write_duplicate(out: &mut String, statement: &str) -> Result<(), AllocError> {
    if let Some(rest) = statement.strip_prefix("[[") {
        let name = brief(part_before(rest, "]"));
        return write!(
            out,
            ": duplicate key {name}: it stands further up, and not as [[{name}]], which has to come first"
        );
    }
    if let Some(rest) = statement.strip_prefix("[") {
        let name = brief(part_before(rest, "]"));
        return match name {
            "handler" | "cluster" | "class" | "handler.control" => {
                write!(out, ": duplicate key {name}: write [[{name}]], each time")
            }
            _ => write!(out, ": duplicate key {name}: it stands further up, too"),
        };
    }
    let name = brief(part_before(statement, "="));
    write!(
        out,
        ": duplicate key {name}: it stands further up in this table, too"
    )
}

fn part_before<'a>(text: &'a str, mark: &str) -> &'a str {
    match text.split_once(mark) {
        Some((part, _)) => part.trim(),
        None => text.trim(),
    }
}

// The word of a text that lacks its quotation marks: the value of a key of this line, where the fault lies behind its `=`.
fn bare_word<'a>(before: &str, line: &'a str) -> Option<&'a str> {
    let sign = before.bytes().rposition(|byte| byte == b'=')?;
    let rest = line.get(sign + 1..)?;
    let end = rest
        .bytes()
        .position(|byte| matches!(byte, b',' | b'}' | b']' | b'#'));
    let value = rest.get(..end.unwrap_or(rest.len()))?.trim();
    let is_word = value
        .bytes()
        .all(|byte| byte.is_ascii_alphanumeric() || byte == b'_');
    let is_begun = value.bytes().next()?.is_ascii_alphabetic();
    let is_truth = value.eq_ignore_ascii_case("true") || value.eq_ignore_ascii_case("false");
    if is_begun && is_word && !is_truth {
        Some(value)
    } else {
        None
    }
}
