//! What replies say of controls and values.

ghost use Rattle.ctrl_types.specs.declared.value.CtrlValue.TheVariants as values;
ghost use Rattle.camera_messages.specs.Replies.{Puts, value_told, values_told};

use crate::reply_buffer::{ReplyBuffer, count};
use call_structs::is_heading;
use ctl_session::Session;
use ctrl_calls::Driver;
use ctrl_settle::Ctrl;
use ctrl_types::CtrlValue;
use ioctl_bytes::calls::V4L2_CTRL_TYPE_CTRL_CLASS;

// How long a control's name is at most; a zero stands behind it.
const MAX_NAME: usize = 31;

/// Puts the controls of a session behind a payload: as `Message::Controls` has them.
pub(crate) fn put_controls<D: Driver>(reply: &mut ReplyBuffer, session: &Session<D>) {
    let plan = session.device().plan();
    for number in 0..plan.control_count() {
        let control = plan.control(number);
        let word = session.words().word_of(number).unwrap_or(&[]);
        reply.put_u32(control.id().0);
        reply.put_u32(type_number(&control));
        reply.put_u32(if control.is_array() {
            control.elems()
        } else {
            0
        });
        reply.put_wide(word.get(..MAX_NAME).unwrap_or(word));
    }
}

// The number of a control's type, as `enum v4l2_ctrl_type` has it; that of a class heading is its own.
fn type_number(control: &Ctrl) -> u32 {
    if is_heading(control.id(), control.flags()) {
        V4L2_CTRL_TYPE_CTRL_CLASS
    } else {
        control.kind().number()
    }
}

/// Puts values behind a payload, as `Message::Values` has them.
#[tactic(auto, using(crate::proofs::ReplyLemmas::puts_both, crate::proofs::ReplyLemmas::puts_none))]
pub(crate) fn put_values(reply: &mut ReplyBuffer, values: &[CtrlValue])
    ensures { Puts reply.old reply.new (values_told values.now) }
{
    for value in values {
        put_value(reply, value);
    }
}

// Puts a value behind a payload.
#[tactic(auto, using(crate::proofs::ReplyLemmas::puts_both))]
fn put_value(reply: &mut ReplyBuffer, value: &CtrlValue)
    ensures { Puts reply.old reply.new (value_told value.now) }
{
    match value {
        CtrlValue::Number(number) => put_number(reply, *number),
        CtrlValue::Bytes(row) => {
            reply.put_u32(count(row.len()));
            reply.put_wide(row.bytes());
        }
    }
}

fn put_number(reply: &mut ReplyBuffer, number: i64)
    ensures { Puts reply.old reply.new (value_told (values.Number number)) }
{
    reply.put_u32(8);
    reply.put_wide(&number.to_le_bytes());
}
