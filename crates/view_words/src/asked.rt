//! What the controls of an ask are called.

use crate::words::word_of;
use ctrl_calls::Driver;
use ctrl_types::{CtrlId, FhId};
use device_state::{Ask, Device};
use script_lines::ControlWords;
use std::alloc::AllocError;
use std::io::Write;
use view_layout::{Page, put_plain};

/// An ask with the line that makes it. A word of the line stands for an id alone, which several handlers may show, each with another control: so a control is
/// called by the word of the one that the ask's file handle finds. Where it finds none, or isn't open, it is called as the line calls it.
pub struct Asked<'a, D: Driver> {
    /// The words of the device's controls.
    pub known: &'a ControlWords,
    /// The device, as it is behind the ask.
    pub device: &'a Device<D>,
    /// The line of a script, without its line feed.
    pub line: &'a [u8],
    /// What it asks.
    pub ask: &'a Ask,
}

impl<'a, D: Driver> Copy for Asked<'a, D> {}

impl<'a, D: Driver> Clone for Asked<'a, D> {
    fn clone(&self) -> Result<Self, AllocError> {
        Ok(*self)
    }
}

impl<'a, D: Driver> Asked<'a, D> {
    /// The number of the control that the file handle of the ask finds under an id; none where it finds none, where it isn't open, and where the ask has none.
    pub fn control(&self, id: CtrlId) -> Option<u32> {
        let handler = self.device.handler_of(handle_of(self.ask)?)?;
        self.device.plan().find(handler, id).ok()
    }

    /// Puts the name of a control on a page.
    ///
    /// - `id`: the control's id.
    /// - `place`: of a list that of its entry, from 0; else 0.
    pub fn put_name(&self, page: &mut Page, id: CtrlId, place: usize) {
        if let Some(control) = self.control(id) {
            page.put(word_of(self.known, control));
            return;
        }
        match self.word_at(place) {
            Some(word) => put_plain(page, word),
            None => {
                let number = id.0;
                let _ = write!(page, "0x{number:08x}");
            }
        }
    }

    // What the line calls the control of an entry, or the one that another ask names.
    fn word_at(&self, place: usize) -> Option<&'a [u8]> {
        let before = match self.ask {
            Ask::GetCtrls { .. } | Ask::SetCtrls { .. } | Ask::TryCtrls { .. } => 3,
            _ => 2,
        };
        let line = self.line;
        let word = line
            .split(|byte| *byte == b' ')
            .filter(|word| !word.is_empty())
            .nth(place.saturating_add(before))?;
        match word.iter().position(|byte| *byte == b'=') {
            Some(end) => word.get(..end),
            None => Some(word),
        }
    }
}

// The file handle that an ask is made through.
fn handle_of(ask: &Ask) -> Option<FhId> {
    match ask {
        Ask::CloseFh { fh }
        | Ask::GetCtrls { fh, .. }
        | Ask::SetCtrls { fh, .. }
        | Ask::TryCtrls { fh, .. }
        | Ask::Subscribe { fh, .. }
        | Ask::Unsubscribe { fh, .. }
        | Ask::Take { fh }
        | Ask::Query { fh, .. }
        | Ask::NextId { fh, .. }
        | Ask::MenuItem { fh, .. } => Some(*fh),
        _ => None,
    }
}
