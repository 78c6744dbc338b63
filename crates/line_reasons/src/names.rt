//! The names that a line may use.

use ctrl_calls::Driver;
use ctrl_handlers::Plan;
use ctrl_settle::Ctrl;
use ctrl_types::CtrlId;
use menu_items::MenuItem;
use script_lines::ControlWords;

/// What a line may name: the controls of a device by their words, and what people write in place of an item's index.
pub struct Names<'a, D: Driver> {
    /// The words by which the line may name controls.
    pub known: &'a ControlWords,
    /// The device's controls, and the items of its menus.
    pub plan: &'a Plan<D>,
}

impl<'a, D: Driver> Drop for Names<'a, D> {
    fn drop(self) {
        let Names { known: _, plan: _ } = self;
    }
}

/// The words of a device's controls, in the order of their numbers.
#[derive(Clone, Copy)]
pub struct Words<'a> {
    known: &'a ControlWords,
    // of how many controls
    count: u32,
}

impl<'a> Words<'a> {
    /// How many controls the device has.
    pub fn count(&self) -> u32 {
        self.count
    }

    /// The word of a control, by its number.
    pub fn word(&self, control: u32) -> Option<&'a [u8]> {
        self.known.word_of(control)
    }
}

impl<'a, D: Driver> Names<'a, D> {
    /// The words of the device's controls.
    pub fn words(&self) -> Words<'a> {
        Words {
            known: self.known,
            count: self.plan.control_count(),
        }
    }

    /// The word of the control with an id; none where there is no such control, or it has no word.
    pub fn word_of_id(&self, id: CtrlId) -> Option<&'a [u8]> {
        self.known.word_of(self.number_of_id(id)?)
    }

    /// The control that a word or an id names, as a line writes it, by its number.
    pub fn control(&self, written: &[u8], id: Option<CtrlId>) -> Option<u32> {
        match self.known.number_of(written) {
            Some(number) => Some(number),
            None => self.number_of_id(id?),
        }
    }

    /// What a control takes, by its number.
    pub fn ctrl(&self, control: u32) -> Option<&'a Ctrl> {
        self.plan.controls().get(control as usize)
    }

    /// The name of a menu's item; none where there is no item, or it is a number.
    pub fn item(&self, control: u32, index: u32) -> Option<&'a str> {
        match self.plan.menu_item(control, index) {
            Ok(MenuItem::Name(name)) => Some(name.as_str()),
            Ok(MenuItem::Number(_)) | Err(_) => None,
        }
    }

    /// The number of the cluster that a control is in, by the control's word.
    pub fn cluster(&self, word: &[u8]) -> Option<u32> {
        match self.known.number_of(word) {
            Some(control) if control < self.plan.control_count() => {
                Some(self.plan.cluster_of(control))
            }
            _ => None,
        }
    }

    fn number_of_id(&self, id: CtrlId) -> Option<u32> {
        let place = self
            .plan
            .controls()
            .iter()
            .position(|ctrl| ctrl.id() == id)?;
        u32::try_from(place).ok()
    }
}
