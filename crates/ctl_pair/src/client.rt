//! A script at a seat of a desk.
ghost use Rattle.std.specs.Prelude.{◌≡◌, ◌+◌, ◌≤◌, [], All, length, take, IfOk, vec_len, vec_capacity};
ghost use Rattle.ctl_pair.specs.Client.{HasCome};
ghost use Rattle.ctl_pair.specs.Scripts.{IsAsk};

use ctl_script::{Binding, Bindings, ask_of};
use ctrl_calls::Driver;
use ctrl_types::Fault;
use device_state::{Ask, Device, Reply};
use script_lines::Command;
use std::alloc::{AllocError, Global};
use std::snapshot::Snapshot;
use turn_desk::Client;

/// What a script asked, in order, each ask with the answer that it heard, if it has heard it.
pub type Said = Vec<(Ask, Option<Result<Reply, Fault>>)>;

/// Asks the commands of a script, in order. All the memory that it needs was taken when it was made.
#[derive(Drop)]
pub struct ScriptClient {
    // all its commands in order, as clauses see them
    script: Snapshot<Vec<Command>>,
    names: Bindings,
    // what is still to be asked, the next command last
    commands: Vec<Command>,
    // what the last command binds
    binding: Binding,
    pub said: Said,
    ghost room: { vec_len said + vec_len commands ≤ vec_capacity said },
    ghost come: { HasCome script.value.items (take (length said.items) script.value.items) commands.items names binding said.items },
}

impl ScriptClient {
    /// It has asked nothing yet. Room for each ask with its answer is made here, and for each name that may be bound. An audit asks
    /// nothing, so no command may be one.
    pub fn new(alloc: Global, mut commands: Vec<Command>) -> Result<ScriptClient, AllocError>
        requires { All IsAsk commands.items }
        ensures script { IfOk result (λ client. client.script.value.items ≡ commands.items) }
        ensures said { IfOk result (λ client. client.said.items ≡ []) }
    {
        let script = Snapshot::of(&commands);
        let mut names = Bindings::new(alloc);
        for command in &commands {
            Binding::of(command).enter(&mut names)?;
        }
        let said = Vec::with_capacity(alloc, commands.len())?;
        commands.reverse();
        Ok(ScriptClient {
            script,
            names,
            commands,
            binding: Binding::None,
            said,
        })
    }
}

impl<D: Driver> Client<Device<D>> for ScriptClient {
    ghost use Rattle.std.specs.Prelude.{◌≡◌, List, []};
    ghost use Rattle.script_lines.specs.declared.command.Command.{Command};

    ghost Task = { List Command };

    ghost task = { λ client. client.script.value.items };

    ghost is_done = { λ client. client.commands.items ≡ [] };

    ghost transcript = { λ client. client.said.items };

    fn next(&mut self) -> bool {
        let Some(command) = self.commands.pop() else {
            return false;
        };
        let binding = Binding::of(&command);
        let Some(ask) = ask_of(command, &self.names) else {
            // only an audit asks nothing, and none is among the commands
            unreachable!()
        };
        self.binding = binding;
        self.said.push_reserved((ask, None));
        true
    }

    fn ask(&self) -> &Ask {
        let last = self.said.len() - 1;
        &self.said[last].0
    }

    fn hear(&mut self, answer: Result<Reply, Fault>) {
        self.binding.bind(&mut self.names, &answer);
        if let Some(line) = self.said.last_mut() {
            line.1 = Some(answer);
        }
    }
}
