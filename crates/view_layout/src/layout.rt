//! How lines are laid out, on at most 100 columns.

ghost use Rattle.std.specs.Prelude.{◌≡◌, ◌<◌, ◌≤◌, ◌+◌, ◌++◌, length};

use crate::page::Page;
use std::io::Write;

/// How wide a line may be.
pub const WIDTH: usize = 100;

/// Where what belongs to a command stands.
pub const INDENT: usize = 6;

// Where replies stand.
const REPLIES: usize = 50;

/// What is written before and behind coloured words; nothing where nothing is coloured.
#[derive(Clone, Copy)]
pub struct Ink {
    /// Before what is refused.
    pub bad: &'static str,
    /// Before what changes.
    pub good: &'static str,
    /// Before what is beside the point.
    pub faint: &'static str,
    /// Behind each of them.
    pub plain: &'static str,
}

impl Ink {
    /// The colours of a terminal, or none.
    pub fn new(is_coloured: bool) -> Ink {
        if is_coloured {
            Ink {
                bad: "\x1b[31m",
                good: "\x1b[32m",
                faint: "\x1b[2m",
                plain: "\x1b[0m",
            }
        } else {
            Ink {
                bad: "",
                good: "",
                faint: "",
                plain: "",
            }
        }
    }
}

/// A line of a script, with its number, from 1.
#[derive(Clone, Copy)]
pub struct Line<'a> {
    /// Its number.
    pub number: u32,
    /// Its text, without its line feed.
    pub text: &'a [u8],
}

/// Puts so many spaces on a page.
pub fn put_spaces(page: &mut Page, count: usize) {
    for _ in 0..count {
        page.put(" ");
    }
}

/// Puts a line of a script on a page with its number, and what was said to it beside it, or below it where one of them is long.
///
/// - `colour`: the colour of what was said, as `ink` has it.
pub fn put_command(page: &mut Page, line: Line<'_>, said: &[u8], colour: &str, ink: Ink) {
    let margin = put_number(page, line.number);
    let end = margin.saturating_add(line.text.len());
    if end < REPLIES {
        page.put_bytes(line.text);
        put_spaces(page, REPLIES.saturating_sub(end));
    } else {
        put_folded(page, margin, line.text, "", "");
        put_spaces(page, REPLIES);
    }
    let behind = if colour.is_empty() { "" } else { ink.plain };
    put_folded(page, REPLIES, said, colour, behind);
}

/// Puts a line of a script that is no command on a page with its number.
pub fn put_skipped(page: &mut Page, line: Line<'_>, ink: Ink) {
    if line.text.is_empty() {
        page.put("\n");
        return;
    }
    let margin = put_number(page, line.number);
    put_folded(page, margin, line.text, ink.faint, ink.plain);
}

// Puts the number of a line on a page, and answers where its text stands.
fn put_number(page: &mut Page, number: u32) -> usize {
    if number < 10_000 {
        let _ = write!(page, "{number:>4}  ");
        INDENT
    } else {
        let _ = write!(page, "{number:>7}  ");
        9
    }
}

/// Puts a text on a page from a column on, on as many lines as it needs, and ends the last one.
///
/// - `column`: where the first line stands already, and where each further one begins.
/// - `before`, `behind`: what is put before and behind the text of each line; it takes no column.
pub fn put_folded(page: &mut Page, column: usize, text: &[u8], before: &str, behind: &str) {
    let width = WIDTH.saturating_sub(column).max(1);
    let mut rest = text;
    // each turn puts a byte at least
    for _ in 0..text.len() {
        let (piece, more) = folded(rest, width);
        page.put(before);
        put_plain(page, piece.trim_ascii_end());
        page.put(behind);
        page.put("\n");
        if more.is_empty() {
            return;
        }
        put_spaces(page, column);
        rest = more;
    }
    page.put("\n");
}

/// Puts a text on a page, and a space in place of each tab or other control character, which would move what stands behind it.
pub fn put_plain(page: &mut Page, text: &[u8]) {
    for byte in text {
        let shown = if byte.is_ascii_control() { b' ' } else { *byte };
        page.put_bytes(&[shown]);
    }
}

// What of a text goes on a line of this width, and what is left: behind the last space that the line has room for, or where it has none in the middle of
// a word, though not of a character. The space may stand behind the end of the line.
fn folded(text: &[u8], width: usize) -> (&[u8], &[u8])
    requires some { 0 < width }
    ensures parts { text.now ≡ result.0.now ++ result.1.now }
    ensures within { length result.0.now ≤ width + 1 }
    ensures moves { 0 < length text.now → 0 < length result.0.now }
{
    if text.len() <= width {
        return (text, &[]);
    }
    text.split_at(cut_at(text, width))
}

fn cut_at(text: &[u8], width: usize) -> usize
    requires some { 0 < width }
    requires longer { width < length text.now }
    ensures moves { 0 < result }
    ensures within { result ≤ width + 1 }
{
    let head = &text[..width + 1];
    if let Some(at) = head.iter().rposition(|byte| *byte == b' ') {
        return at + 1;
    }
    match head.iter().rposition(|byte| *byte & 0xc0 != 0x80) {
        Some(at) if at > 0 => at,
        _ => width,
    }
}
