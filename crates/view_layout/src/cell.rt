//! What the table says of a control in a frame.

ghost use Rattle.std.specs.Prelude.{◌≡◌};
ghost use Rattle.view_layout.specs.Marks.{is_alike, mark as mark_of};

use crate::page::Page;
use ctrl_types::CtrlValue;

/// A control's value, and whether its auto cluster makes it INACTIVE.
#[derive(Clone, Copy)]
pub struct Look {
    /// The value.
    pub value: CtrlValue,
    /// Whether it is INACTIVE.
    pub is_inactive: bool,
}

impl Look {
    // Whether two looks are the same.
    fn is_alike(&self, other: &Look) -> bool
        ensures { result ≡ is_alike self.now other.now }
    {
        self.value.is_same(&other.value) && self.is_inactive == other.is_inactive
    }
}

/// How a control fares in a frame.
#[derive(Clone, Copy, PartialEq, Eq)]
pub enum Mark {
    /// It is as before.
    Stays,
    /// Its value changes, or whether it is INACTIVE.
    Changes,
    /// A value is asked of it, and its cluster is refused.
    Refused,
}

/// A control in a frame.
#[derive(Clone, Copy)]
pub struct Cell {
    /// What it is before.
    pub before: Look,
    /// What it is in the frame.
    pub behind: Look,
    /// The value that the frame's request asks of it.
    pub asked: Option<CtrlValue>,
    /// Whether its cluster is refused.
    pub is_refused: bool,
}

impl Cell {
    /// Whether the frame doesn't say more of the control than that it is as before.
    pub fn is_still(&self) -> bool {
        if self.mark() != Mark::Stays {
            return false;
        }
        match &self.asked {
            Some(asked) => asked.is_same(&self.behind.value),
            None => true,
        }
    }

    /// How the control fares.
    pub fn mark(&self) -> Mark
        ensures { result ≡ mark_of self.now }
    {
        if self.is_refused && self.asked.is_some() {
            Mark::Refused
        } else if self.before.is_alike(&self.behind) {
            Mark::Stays
        } else {
            Mark::Changes
        }
    }
}

/// Puts on a page what the table says of a control in a frame.
pub fn put_cell(page: &mut Page, cell: &Cell) {
    match cell.mark() {
        Mark::Stays => {
            page.put(".");
            put_inactive(page, &cell.behind);
            put_missed(page, cell);
        }
        Mark::Refused => {
            page.put("!");
            page.put_value(wanted(cell));
            put_inactive(page, &cell.behind);
        }
        Mark::Changes => {
            page.put("*");
            put_look(page, &cell.behind);
            put_missed(page, cell);
        }
    }
}

// What was asked of a control; what it has in the frame, where nothing was.
fn wanted(cell: &Cell) -> &CtrlValue {
    match &cell.asked {
        Some(asked) => asked,
        None => &cell.behind.value,
    }
}

/// Puts on a page what was asked of a control in a frame, where another value came of it.
pub fn put_missed(page: &mut Page, cell: &Cell) {
    put_wanted(page, &cell.behind.value, wanted(cell));
}

/// Puts on a page what was asked for, where another value came of it.
pub fn put_wanted(page: &mut Page, value: &CtrlValue, asked: &CtrlValue) {
    if !asked.is_same(value) {
        page.put(" (for ");
        page.put_value(asked);
        page.put(")");
    }
}

/// Puts on a page what a control is now.
pub fn put_look(page: &mut Page, look: &Look) {
    page.put_value(&look.value);
    put_inactive(page, look);
}

fn put_inactive(page: &mut Page, look: &Look) {
    if look.is_inactive {
        page.put("~");
    }
}
