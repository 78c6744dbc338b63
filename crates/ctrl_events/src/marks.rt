//! The bits by which a raise finds the file handles that may be subscribed to a control (of this project).
ghost use Rattle.std.specs.Prelude.{◌≡◌, ◌<◌, ℕ, true, length, get_or, OnOk, Some};
ghost use Rattle.std.specs.Int.{bit_at};
ghost use Rattle.ctrl_events.specs.Order.{has, logged};
ghost use Rattle.ctrl_events.specs.Heard.{IsHeard};

use std::alloc::AllocError;

/// The bits of the places at which a file handle may be subscribed to a control.
pub(crate) fn heard_by(heard: &[u64], control: u32) -> u64
    ensures { result ≡ get_or heard.now control 0 }
{
    match heard.get(control as usize) {
        Some(bits) => *bits,
        None => 0,
    }
}

/// The lowest bit that is set, of some.
pub(crate) fn lowest_bit(bits: u64) -> usize
    requires { 0 < bits }
    ensures within { result < 64 }
    ensures set { bit_at bits result ≡ 1 }
{
    bits.trailing_zeros() as usize
}

/// Some bits with one more, where it is to be set.
pub(crate) fn with_bit(bits: u64, bit: usize, is_set: bool) -> u64
    requires { bit < 64 }
    ensures set { is_set ≡ true → bit_at result bit ≡ 1 }
    ensures kept { (b : ℕ) → bit_at bits b ≡ 1 → bit_at result b ≡ 1 }
{
    if is_set { bits | (1 << bit) } else { bits }
}

/// Some bits without one that is set.
pub(crate) fn without_bit(bits: u64, bit: usize) -> u64
    requires within { bit < 64 }
    requires set { bit_at bits bit ≡ 1 }
    ensures less { result < bits }
    ensures cleared { bit_at result bit ≡ 0 }
    ensures kept { (b : ℕ) → b < 64 → (b ≡ bit → ⊥) → bit_at result b ≡ bit_at bits b }
{
    bits & !(1 << bit)
}

/// Marks a place at which a file handle may be subscribed to a control from now on. The error is that a growth was refused.
pub(crate) fn hear(heard: &mut Vec<u64>, control: u32, place: usize) -> Result<(), AllocError>
    ensures heard { OnOk result (IsHeard heard.new.items place control) }
    ensures kept { (p c : ℕ) → IsHeard heard.old.items p c → IsHeard heard.new.items p c }
{
    make_marks(heard, control)?;
    let bits = heard[control as usize];
    heard[control as usize] = bits | (1 << (place % 64));
    Ok(())
}

// Makes room for the bits of a control; those that are set stay.
fn make_marks(heard: &mut Vec<u64>, control: u32) -> Result<(), AllocError>
    ensures bound { OnOk result (control < length heard.new.items) }
    ensures kept { (c : ℕ) → c < length heard.old.items → get_or heard.new.items c 0 ≡ get_or heard.old.items c 0 }
{
    let at = control as usize;
    if at < heard.len() {
        return Ok(());
    }
    heard.resize(at + 1, 0)
}

/// Marks a place for each of some controls of which there are marks.
pub(crate) fn mark_all(controls: &[Option<u32>], heard: &mut Vec<u64>, place: usize)
    ensures marked { (c : ℕ) → has (logged controls.now) c ≡ true → c < length heard.old.items → IsHeard heard.new.items place c }
    ensures kept { (p c : ℕ) → IsHeard heard.old.items p c → IsHeard heard.new.items p c }
{
    for entry in controls {
        mark(*entry, heard, place);
    }
}

// Marks a place for a control, if there is one and there are marks of it.
fn mark(control: Option<u32>, heard: &mut Vec<u64>, place: usize)
    ensures marked { (c : ℕ) → control ≡ Some c → c < length heard.old.items → IsHeard heard.new.items place c }
    ensures kept { (p c : ℕ) → IsHeard heard.old.items p c → IsHeard heard.new.items p c }
    ensures length { length heard.new.items ≡ length heard.old.items }
{
    let Some(control) = control else {
        return;
    };
    let at = control as usize;
    if at >= heard.len() {
        return;
    }
    let bits = heard[at];
    heard[at] = bits | (1 << (place % 64));
}
