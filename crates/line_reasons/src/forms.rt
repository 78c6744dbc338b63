//! The forms of commands: what each of their words is.

/// What kind of word stands at a place.
#[derive(Clone, Copy)]
pub enum Kind {
    /// A name of a file handle or of a request.
    Name,
    /// A number of 32 bits.
    Number,
    /// The number of a cluster.
    Cluster,
    /// A word of the device, or an id.
    Control,
    /// A word of the device.
    Word,
    /// An id.
    Id,
    /// Which values a list is about.
    Which,
    /// `on` or `off`.
    OnOff,
    /// A bound or a default of a range.
    Bound,
    /// A step.
    Step,
    /// A control with a value.
    Entry,
}

/// A place behind the first word of a command.
#[derive(Clone, Copy)]
pub struct Slot {
    /// What kind of word stands there.
    pub kind: Kind,
    /// What it is, in words.
    pub what: &'static str,
}

/// What stands behind the places of a form.
#[derive(Clone, Copy)]
pub enum Tail {
    /// Nothing.
    Nothing,
    /// Any number of these.
    All(Slot),
    /// How a file handle subscribes.
    Subscription,
}

/// The form of a command: how it is written; the places behind its first word; and what stands behind these.
pub type Form = (&'static str, &'static [Slot], Tail);

const FH: Slot = Slot {
    kind: Kind::Name,
    what: "a file handle's name",
};

const REQUEST: Slot = Slot {
    kind: Kind::Name,
    what: "a request's name",
};

const WHICH: Slot = Slot {
    kind: Kind::Which,
    what: "a word for which values: cur, def, user, camera, req:REQ or an id",
};

const CONTROL: Slot = Slot {
    kind: Kind::Control,
    what: "a control",
};

const ENTRY: Slot = Slot {
    kind: Kind::Entry,
    what: "a control with its value",
};

const WORD: Slot = Slot {
    kind: Kind::Word,
    what: "a control's word",
};

const ON_OFF: Slot = Slot {
    kind: Kind::OnOff,
    what: "on or off",
};

const STEP: Slot = Slot {
    kind: Kind::Step,
    what: "the step",
};

const ID: Slot = Slot {
    kind: Kind::Id,
    what: "an id",
};

const HANDLER: Slot = Slot {
    kind: Kind::Number,
    what: "a handler's number",
};

const INDEX: Slot = Slot {
    kind: Kind::Number,
    what: "an item's index",
};

const CLUSTER: Slot = Slot {
    kind: Kind::Cluster,
    what: "a cluster's number",
};

const BUFFER: Slot = Slot {
    kind: Kind::Number,
    what: "a buffer's number",
};

const PLACE: Slot = Slot {
    kind: Kind::Number,
    what: "a frame's place in the queue",
};

const MIN: Slot = Slot {
    kind: Kind::Bound,
    what: "the minimum",
};

const MAX: Slot = Slot {
    kind: Kind::Bound,
    what: "the maximum",
};

const DEFAULT: Slot = Slot {
    kind: Kind::Bound,
    what: "the default",
};

const FORMS: &[Form] = &[
    ("open FH N", &[FH, HANDLER], Tail::Nothing),
    ("close FH", &[FH], Tail::Nothing),
    ("get FH WHICH CTRL ..", &[FH, WHICH], Tail::All(CONTROL)),
    ("set FH WHICH CTRL=V ..", &[FH, WHICH], Tail::All(ENTRY)),
    ("try FH WHICH CTRL=V ..", &[FH, WHICH], Tail::All(ENTRY)),
    (
        "grab WORD on, or grab WORD off",
        &[WORD, ON_OFF],
        Tail::Nothing,
    ),
    (
        "range WORD MIN MAX STEP DEFAULT",
        &[WORD, MIN, MAX, STEP, DEFAULT],
        Tail::Nothing,
    ),
    ("query FH CTRL", &[FH, CONTROL], Tail::Nothing),
    ("next FH ID", &[FH, ID], Tail::Nothing),
    ("menu FH CTRL N", &[FH, CONTROL, INDEX], Tail::Nothing),
    ("told K", &[CLUSTER], Tail::Nothing),
    ("alloc REQ", &[REQUEST], Tail::Nothing),
    ("buffer REQ N", &[REQUEST, BUFFER], Tail::Nothing),
    ("queue REQ", &[REQUEST], Tail::Nothing),
    ("cancel REQ", &[REQUEST], Tail::Nothing),
    ("reinit REQ", &[REQUEST], Tail::Nothing),
    ("free REQ", &[REQUEST], Tail::Nothing),
    ("state REQ", &[REQUEST], Tail::Nothing),
    ("row N", &[PLACE], Tail::Nothing),
    ("begin", &[], Tail::Nothing),
    ("complete", &[], Tail::Nothing),
    ("off", &[], Tail::Nothing),
    (
        "sub FH CTRL, and behind it nothing, initial, feedback, or initial feedback",
        &[FH, CONTROL],
        Tail::Subscription,
    ),
    ("unsub FH CTRL", &[FH, CONTROL], Tail::Nothing),
    ("take FH", &[FH], Tail::Nothing),
    ("audit", &[], Tail::Nothing),
];

/// The form of the command that begins with a word; none where no command does.
pub fn form_of(verb: &[u8]) -> Option<Form> {
    FORMS
        .iter()
        .copied()
        .find(|form| first_word(form.0) == verb)
}

fn first_word(text: &str) -> &[u8] {
    match text.split_once(" ") {
        Some((first, _)) => first.as_bytes(),
        None => text.as_bytes(),
    }
}
