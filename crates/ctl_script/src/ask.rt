ghost use Rattle.std.specs.Prelude.{◌≡◌};
ghost use Rattle.device_history.specs.declared.ask.Ask.TheVariants as asks;
ghost use Rattle.ctl_script.specs.Asks.{asked_by, list_ask_by, which_bound};
ghost use Rattle.ctl_script.specs.Bindings.{bound_names};

use crate::names::Bindings;
use ctrl_types::RequestId;
use device_state::{Ask, ControlList};
use script_lines::{Command, EntryList, Name, WhichWord};

// the number by which a list says that it is about a request's values
const REQUEST_VALUES: u32 = 0x0f01_0000;

/// What a command asks, with the ids that its names stand for; none where it is an audit.
pub fn ask_of(command: Command, names: &Bindings) -> Option<Ask>
    ensures { result ≡ asked_by (bound_names names.now) command }
{
    let ask = match command {
        Command::Open { fh: _, handler } => Ask::OpenFh { handler },
        Command::Close { fh } => Ask::CloseFh { fh: names.fh(fh) },
        Command::Get { fh, which, list } => get_of(names, fh, which, list),
        Command::Set { fh, which, list } => set_of(names, fh, which, list),
        Command::Try { fh, which, list } => try_of(names, fh, which, list),
        Command::Grab { control, on } => Ask::Grab { control, on },
        Command::Range {
            control,
            min,
            max,
            step,
            default_value,
        } => Ask::ModifyRange {
            control,
            min,
            max,
            step,
            default_value,
        },
        Command::Query { fh, id } => Ask::Query {
            fh: names.fh(fh),
            id,
        },
        Command::Next { fh, id } => Ask::NextId {
            fh: names.fh(fh),
            id,
        },
        Command::Menu { fh, id, index } => Ask::MenuItem {
            fh: names.fh(fh),
            id,
            index,
        },
        Command::Told { cluster } => Ask::Told { cluster },
        Command::Alloc { request: _ } => Ask::Alloc,
        Command::Buffer { request, buffer } => Ask::AddBuffer {
            request: names.request(request),
            buffer,
        },
        Command::Queue { request } => Ask::Queue {
            request: names.request(request),
        },
        Command::Cancel { request } => Ask::Cancel {
            request: names.request(request),
        },
        Command::Reinit { request } => Ask::Reinit {
            request: names.request(request),
        },
        Command::Free { request } => Ask::Free {
            request: names.request(request),
        },
        Command::State { request } => Ask::StateOf {
            request: names.request(request),
        },
        Command::Row { place } => Ask::Forecast { place },
        Command::Begin => Ask::Begin,
        Command::Complete => Ask::Complete,
        Command::Off => Ask::StreamOff,
        Command::Subscribe { fh, id, flags } => Ask::Subscribe {
            fh: names.fh(fh),
            id,
            flags,
        },
        Command::Unsubscribe { fh, id } => Ask::Unsubscribe {
            fh: names.fh(fh),
            id,
        },
        Command::Take { fh } => Ask::Take { fh: names.fh(fh) },
        Command::Audit => return None,
    };
    Some(ask)
}

fn get_of(names: &Bindings, fh: Name, which: WhichWord, list: EntryList) -> Ask
    ensures { result ≡ list_ask_by asks.GetCtrls (bound_names names.now) fh which list }
{
    let (which, request) = which_of(which, names);
    Ask::GetCtrls {
        fh: names.fh(fh),
        which,
        request,
        list: controls(list),
    }
}

fn set_of(names: &Bindings, fh: Name, which: WhichWord, list: EntryList) -> Ask
    ensures { result ≡ list_ask_by asks.SetCtrls (bound_names names.now) fh which list }
{
    let (which, request) = which_of(which, names);
    Ask::SetCtrls {
        fh: names.fh(fh),
        which,
        request,
        list: controls(list),
    }
}

fn try_of(names: &Bindings, fh: Name, which: WhichWord, list: EntryList) -> Ask
    ensures { result ≡ list_ask_by asks.TryCtrls (bound_names names.now) fh which list }
{
    let (which, request) = which_of(which, names);
    Ask::TryCtrls {
        fh: names.fh(fh),
        which,
        request,
        list: controls(list),
    }
}

// The number by which a list says which values it is about, and the request where it is about one's.
fn which_of(which: WhichWord, names: &Bindings) -> (u32, Option<RequestId>)
    ensures { result ≡ which_bound (bound_names names.now) which }
{
    match which {
        WhichWord::Number(number) => (number, None),
        WhichWord::Request(name) => (REQUEST_VALUES, Some(names.request(name))),
    }
}

fn controls(list: EntryList) -> ControlList
    ensures { result ≡ list }
{
    ControlList::from_vec(list.into_vec())
}
