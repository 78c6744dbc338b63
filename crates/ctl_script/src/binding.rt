ghost use Rattle.std.specs.Prelude.{◌≡◌, true, OnOk};
ghost use Rattle.ctl_script.specs.Bindings.{binding_of, answer_bound, bound_names, is_entered};
ghost use Rattle.ctl_script.specs.declared.binding.Binding.{Binding};

use crate::names::Bindings;
use ctrl_types::Fault;
use device_state::Reply;
use script_lines::{Command, Name};
use std::alloc::AllocError;

/// What an accepted command binds.
#[derive(Clone, Copy)]
pub enum Binding {
    /// Nothing.
    None,
    /// A file handle.
    FileHandle(Name),
    /// A request.
    Request(Name),
}

impl Binding {
    /// What a command binds where it is accepted.
    pub fn of(command: &Command) -> Binding
        ensures { result ≡ binding_of command.now }
    {
        match command {
            Command::Open { fh, .. } => Binding::FileHandle(*fh),
            Command::Alloc { request } => Binding::Request(*request),
            _ => Binding::None,
        }
    }

    /// Makes room for the binding, so that `bind` takes no memory.
    pub fn enter(self, names: &mut Bindings) -> Result<(), AllocError>
        ensures bound { bound_names names.new ≡ bound_names names.old }
        ensures kept { (other : Binding) → is_entered names.old other ≡ true → is_entered names.new other ≡ true }
        ensures entered { OnOk result (is_entered names.new self ≡ true) }
    {
        match self {
            Binding::None => Ok(()),
            Binding::FileHandle(name) => names.file_handles.enter(name),
            Binding::Request(name) => names.requests.enter(name),
        }
    }

    /// Binds what the answer gives, where room was made for it. A refused command binds nothing, and an earlier binding stays.
    pub fn bind(self, names: &mut Bindings, answer: &Result<Reply, Fault>)
        requires { is_entered names.old self ≡ true }
        ensures bound { bound_names names.new ≡ answer_bound self answer.now (bound_names names.old) }
        ensures kept { (other : Binding) → is_entered names.old other ≡ true → is_entered names.new other ≡ true }
    {
        match (self, answer) {
            (Binding::FileHandle(name), Ok(Reply::Fh(fh))) => names.file_handles.bind(name, fh.0),
            (Binding::Request(name), Ok(Reply::Request(request))) => {
                names.requests.bind(name, request.0)
            }
            _ => {}
        }
    }
}
