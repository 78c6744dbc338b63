//! Lines of scripts on a running camera.

ghost use Rattle.std.specs.Prelude.{◌≡◌, true, OnOk};
ghost use Rattle.ctl_script.specs.Bindings.{is_entered};

use crate::message::MAX_PAYLOAD;
use ctl_script::{Binding, Bindings, ask_of};
use ctl_session::Session;
use ctrl_calls::Driver;
use device_state::{Ask, Device};
use line_reasons::{Complaint, Names, reason_of as reason_of_line};
use script_lines::{Command, LineFault, Name, read_line};
use script_replies::{ReplyLine, write_answer};
use std::alloc::{AllocError, Global};
use std::io::Write;
use view_layout::Page;
use view_words::{Asked, put_check, put_refusal};

// What is said where a growth was refused.
const NO_MEMORY: &str = "no memory\n";

/// What is kept from line to line.
#[derive(Drop)]
pub(crate) struct Lines {
    // what names stand for
    names: Bindings,
    // which of them were given to file handles
    handles: Vec<Name>,
    reply: ReplyLine,
    page: Page,
}

impl Lines {
    /// No line was answered yet.
    pub(crate) fn new(alloc: Global) -> Result<Lines, AllocError> {
        Ok(Lines {
            names: Bindings::new(alloc),
            handles: Vec::new(alloc),
            reply: ReplyLine::new(alloc)?,
            page: Page::new(alloc),
        })
    }

    /// What the last line was answered.
    pub(crate) fn said(&self) -> &[u8] {
        if self.page.is_whole() {
            self.page.text()
        } else {
            NO_MEMORY.as_bytes()
        }
    }

    /// These names, for file handles of a fresh device on the same handlers; one that isn't open any more is none.
    pub(crate) fn carried<D: Driver>(
        &self,
        alloc: Global,
        from: &Device<D>,
        to: &mut Device<D>,
    ) -> Result<Lines, AllocError> {
        let mut lines = Lines::new(alloc)?;
        for name in self.handles.as_slice() {
            if let Some(handler) = from.handler_of(self.names.fh(*name)) {
                let binding = Binding::FileHandle(*name);
                binding.enter(&mut lines.names)?;
                lines.handles.push(*name)?;
                let answer = to.handle(0, &Ask::OpenFh { handler });
                if answer.is_err() {
                    return Err(AllocError);
                }
                binding.bind(&mut lines.names, &answer);
            }
        }
        Ok(lines)
    }

    /// Answers a line of a script as a run of scripts does, and behind a refusal says why; whether it was accepted. What is said is `said`. Refused in words are lines of frames, buffers and requests,
    /// which the camera's server asks, and an audit.
    pub(crate) fn answer<D: Driver>(
        &mut self,
        alloc: Global,
        session: &mut Session<D>,
        line: &[u8],
    ) -> bool {
        self.page = Page::new(alloc);
        if line.len() > MAX_PAYLOAD {
            return self.refuse("not a command: it is too long\n");
        }
        match read_line(alloc, session.words(), line) {
            Ok(None) => true,
            Ok(Some(command)) => self.answer_command(alloc, session, line, command),
            Err(LineFault::Memory) => self.refuse(NO_MEMORY),
            Err(LineFault::NotACommand) => {
                self.put_stray(alloc, session, line);
                false
            }
        }
    }

    fn refuse(&mut self, why: &str) -> bool {
        self.page.put(why);
        false
    }

    fn answer_command<D: Driver>(
        &mut self,
        alloc: Global,
        session: &mut Session<D>,
        line: &[u8],
        command: Command,
    ) -> bool {
        let binding = Binding::of(&command);
        if self.enter(binding).is_err() {
            return self.refuse(NO_MEMORY);
        }
        let Some(ask) = ask_of(command, &self.names) else {
            return self.refuse("refused: a running camera makes no audit\n");
        };
        if is_of_frames(&ask) {
            return self.refuse(
                "refused: frames and requests are those of the programs that use the camera\n",
            );
        }
        let answer = session.ask(&ask);
        binding.bind(&mut self.names, &answer);
        match answer {
            Ok(_) => {
                let _ = write_answer(&mut self.page, &mut self.reply, &ask, &answer);
                true
            }
            Err(_) => {
                self.put_refusal(session, line, &ask);
                false
            }
        }
    }

    // Makes room for what a command binds.
    fn enter(&mut self, binding: Binding) -> Result<(), AllocError>
        ensures { OnOk result (is_entered self.new.names binding ≡ true) }
    {
        if let Binding::FileHandle(name) = binding {
            if !self.handles.as_slice().contains(&name) {
                self.handles.push(name)?;
            }
        }
        binding.enter(&mut self.names)
    }

    // Says that a line is refused, and why.
    fn put_refusal<D: Driver>(&mut self, session: &Session<D>, line: &[u8], ask: &Ask) {
        let asked = Asked {
            known: session.words(),
            device: session.device(),
            line,
            ask,
        };
        if let Some(refusal) = session.refusal() {
            put_refusal(&mut self.page, &mut self.reply, asked, refusal);
            self.page.put(": ");
            put_check(&mut self.page, asked, refusal);
        }
        self.page.put("\n");
    }

    // Says that a line is no command, and why.
    fn put_stray<D: Driver>(&mut self, alloc: Global, session: &Session<D>, line: &[u8]) {
        let names = Names {
            known: session.words(),
            plan: session.device().plan(),
        };
        self.page.put("not a command");
        if let Ok(Some(Complaint { word, reason })) = reason_of_line(alloc, &names, line) {
            let reason = reason.text("this device");
            let _ = write!(self.page, ": word {word}: {reason}");
        }
        self.page.put("\n");
    }
}

// Whether an ask is about frames, buffers and requests.
fn is_of_frames(ask: &Ask) -> bool {
    match ask {
        Ask::GetCtrls { request, .. }
        | Ask::SetCtrls { request, .. }
        | Ask::TryCtrls { request, .. } => { request.is_some() }
        Ask::Alloc
        | Ask::AddBuffer { .. }
        | Ask::Queue { .. }
        | Ask::Begin
        | Ask::Complete
        | Ask::Cancel { .. }
        | Ask::StreamOff
        | Ask::Reinit { .. }
        | Ask::Free { .. }
        | Ask::StateOf { .. }
        | Ask::Forecast { .. } => true,
        _ => false,
    }
}
