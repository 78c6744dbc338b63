//! On which line of a file something stands. A table that is read has no lines, so the file is read again: the first of its statements after which
//! the table and the key are there is the one that has them. It is found by halving, in some 20 reads.

ghost use Rattle.std.specs.Prelude.{◌<◌, length};

use crate::fault::{FileFault, KeyFault};
use crate::key::Key;
use crate::place::{Place, table_at, value_at};
use crate::problem::Problem;
use crate::syntax::syntax_line;
use std::alloc::{AllocError, Global};
use toml::Table;

/// The line on which a fault's key stands, from 1; where the key isn't there, the line on which its table begins, and for a file that isn't
/// TOML the line of that fault. None where it is of no line: the whole file is wrong, or memory was wanting. The error is that a growth was
/// refused.
///
/// - `text`: the file that was read; of another one the line may be any.
/// - `fault`: what was answered.
pub fn line_of(alloc: Global, text: &[u8], fault: &FileFault) -> Result<Option<usize>, AllocError> {
    match fault {
        FileFault::Memory => Ok(None),
        FileFault::Table { place, fault } => table_line(alloc, text, *place, fault),
    }
}

fn table_line(
    alloc: Global,
    text: &[u8],
    place: Place,
    fault: &KeyFault,
) -> Result<Option<usize>, AllocError> {
    match fault.problem {
        Problem::TooLong => return Ok(None),
        Problem::Syntax(error) => return Ok(syntax_line(text, &error)),
        _ => {}
    }
    match toml::table_from_slice(alloc, text) {
        Ok(file) => line_in(alloc, text, &file, place, fault.key),
        Err(error) => {
            if error.is_memory() {
                Err(AllocError)
            } else {
                Ok(None)
            }
        }
    }
}

// The line of a table's key in a file that was read.
pub(crate) fn line_in(
    alloc: Global,
    text: &[u8],
    file: &Table,
    place: Place,
    key: Key,
) -> Result<Option<usize>, AllocError> {
    let key = key_in(file, place, key);
    let wanted = match key {
        Some(_) if is_there(file, place, key) => key,
        _ => None,
    };
    if matches!(place, Place::File) && wanted.is_none() {
        return Ok(None);
    }
    let statements = count(text);
    let first = first_with(alloc, text, statements, place, wanted)?;
    Ok(Some(cut(text, first).line))
}

// A key as it stands in a table of the file; none where it is the table itself.
pub(crate) fn key_in(file: &Table, place: Place, key: Key) -> Option<&str> {
    match key {
        Key::Table => None,
        Key::Other(number) => {
            let mut keys = table_at(file, place)?.keys();
            Some(keys.nth(number)?.as_str())
        }
        key => Some(key.word()),
    }
}

// Whether the table at a place is there, and has the key, where one is named.
fn is_there(file: &Table, place: Place, key: Option<&str>) -> bool {
    match key {
        Some(key) => match table_at(file, place) {
            Some(table) => table.contains_key(key),
            None => false,
        },
        None => matches!(place, Place::File) || value_at(file, place).is_some(),
    }
}

// The number of the first statements after which the table and the key are there: those are at most `statements`, after which they are.
fn first_with(
    alloc: Global,
    text: &[u8],
    statements: usize,
    place: Place,
    key: Option<&str>,
) -> Result<usize, AllocError> {
    let mut without = 0usize;
    let mut with = statements;
    for _ in 0..usize::BITS {
        if with <= without || with - without <= 1 {
            break;
        }
        let middle = without + (with - without) / 2;
        if stands_in(
            alloc,
            &text[..cut(text, middle).end.min(text.len())],
            place,
            key,
        )? {
            with = middle;
        } else {
            without = middle;
        }
    }
    Ok(with)
}

// Whether the beginning of a file has the table and the key.
fn stands_in(
    alloc: Global,
    text: &[u8],
    place: Place,
    key: Option<&str>,
) -> Result<bool, AllocError> {
    match toml::table_from_slice(alloc, text) {
        Ok(file) => Ok(is_there(&file, place, key)),
        Err(error) => {
            if error.is_memory() {
                Err(AllocError)
            } else {
                Ok(false)
            }
        }
    }
}

// Where some statements end, the first of a file.
#[derive(Clone, Copy)]
struct Ending {
    // the number of bytes up to there
    end: usize,
    // the line on which the last of them begins, from 1
    line: usize,
}

// How many statements a file has; a comment and an empty line count.
fn count(text: &[u8]) -> usize {
    let mut scan = Scan::new();
    let mut statements = 0usize;
    for at in 0..text.len() {
        if scan.ends_at(text, at) {
            statements = statements.saturating_add(1);
        }
    }
    statements.saturating_add(1)
}

// Where so many statements end.
fn cut(text: &[u8], statements: usize) -> Ending {
    let mut scan = Scan::new();
    let mut ended = 0usize;
    let mut lines = 0usize;
    let mut line = 1usize;
    for at in 0..text.len() {
        let ends = scan.ends_at(text, at);
        if text[at] == b'\n' {
            lines = lines.saturating_add(1);
        }
        if ends {
            ended = ended.saturating_add(1);
            if ended >= statements {
                return Ending { end: at + 1, line };
            }
            line = lines.saturating_add(1);
        }
    }
    Ending {
        end: text.len(),
        line,
    }
}

// Where a byte of a TOML text stands.
#[derive(Clone, Copy)]
enum Inside {
    // in none of the others
    Plain,
    Comment,
    // a string in quotation marks, where a backslash takes the next byte with it
    Quoted,
    // a string in apostrophes
    Literal,
    // the same over several lines, between three marks
    LongQuoted,
    LongLiteral,
}

// What is known behind the bytes that were looked at.
#[derive(Clone, Copy)]
struct Scan {
    inside: Inside,
    // how many brackets and braces are open
    open: usize,
    // the next byte that isn't of a mark that was looked at
    next: usize,
}

impl Scan {
    fn new() -> Scan {
        Scan {
            inside: Inside::Plain,
            open: 0,
            next: 0,
        }
    }

    // Whether a statement ends with the byte at this place: an end of a line, with no string and no bracket open.
    fn ends_at(&mut self, text: &[u8], at: usize) -> bool
        requires { at < length text.now }
    {
        if at < self.next {
            return false;
        }
        let byte = text[at];
        match self.inside {
            Inside::Plain => return self.plain(text, at),
            Inside::Comment => {
                if byte == b'\n' {
                    self.inside = Inside::Plain;
                    return self.open == 0;
                }
            }
            Inside::Quoted => self.quoted(at, byte, b'"'),
            Inside::Literal => self.quoted(at, byte, b'\''),
            Inside::LongQuoted => self.long(text, at, b'"'),
            Inside::LongLiteral => self.long(text, at, b'\''),
        }
        false
    }

    fn plain(&mut self, text: &[u8], at: usize) -> bool
        requires { at < length text.now }
    {
        match text[at] {
            b'\n' => return self.open == 0,
            b'#' => self.inside = Inside::Comment,
            b'[' | b'{' => self.open = self.open.saturating_add(1),
            b']' | b'}' => self.open = self.open.saturating_sub(1),
            b'"' => self.begin(text, at, b'"', Inside::Quoted, Inside::LongQuoted),
            b'\'' => self.begin(text, at, b'\'', Inside::Literal, Inside::LongLiteral),
            _ => {}
        }
        false
    }

    // A string begins, which is a long one with three marks.
    fn begin(&mut self, text: &[u8], at: usize, mark: u8, short: Inside, long: Inside)
        requires { at < length text.now }
    {
        if marks(text, at, mark) >= 3 {
            self.inside = long;
            self.next = at.saturating_add(3);
        } else {
            self.inside = short;
        }
    }

    fn quoted(&mut self, at: usize, byte: u8, mark: u8) {
        if byte == mark || byte == b'\n' {
            self.inside = Inside::Plain;
        } else if byte == b'\\' && mark == b'"' {
            self.next = at.saturating_add(2);
        }
    }

    // A long string ends with three marks or more, of which the last three are its end.
    fn long(&mut self, text: &[u8], at: usize, mark: u8)
        requires { at < length text.now }
    {
        let found = marks(text, at, mark);
        if found >= 3 {
            self.inside = Inside::Plain;
            self.next = at.saturating_add(found);
        } else if found > 0 {
            self.next = at.saturating_add(found);
        } else if text[at] == b'\\' && mark == b'"' {
            self.next = at.saturating_add(2);
        }
    }
}

// How many of a mark stand in a row, up to five.
fn marks(text: &[u8], at: usize, mark: u8) -> usize
    requires { at < length text.now }
{
    let row = text[at..].iter().take(5);
    row.take_while(|byte| **byte == mark).count()
}
