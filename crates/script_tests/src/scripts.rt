//! The scripts of these tests.

use crate::devices::Kept;
use ctl_script::Outcome;
use std::alloc::{AllocError, Global};

/// A script: the device that it is asked of, its lines, of which the last has no line feed where `is_cut` says so, and how it ends. Behind each
/// line stands the one that it prints, behind ` => ` where it adds a step to the device, and else behind ` -> `.
#[derive(Clone, Copy)]
pub struct Script {
    pub kept: Kept,
    pub text: &'static str,
    pub is_cut: bool,
    pub outcome: Outcome,
}

/// Each command.
const COMMANDS: Script = Script {
    kept: Kept::Sample,
    text: "\
open f 1 => ok
open g 0 => ok
set g cur hue=10 => ok 9
get g cur hue hflip -> ok 9 0
try f cur red=7 brightness=2 -> ok 7 4
set f cur red=7 0x00980999=1 -> error 22 index 2
set f cur red=300 gain=7 red=8 => ok 8 7 8
grab red on => ok
set f cur red=5 -> error 16 index 1
grab red off => ok
range red 0 7 7 7 => ok
range red 0 7 7 6 -> error 34
query f red -> ok 0x0098090e kind 1 min 0 max 7 step 7 default 7 flags 0x0
query f gain -> ok 0x00980913 kind 1 min 0 max 255 step 1 default 16 flags 0x10
next f 0x0 -> ok 0x00980900
menu f power 1 -> ok 50 Hz
told 0 -> ok 0
close g => ok
get g cur hue -> error 9 index 1
open g 0 => ok
get g cur hue -> ok 9
",
    is_cut: false,
    outcome: Outcome::Finished,
};

/// Each command on requests and frames.
const REQUESTS: Script = Script {
    kept: Kept::Sample,
    text: "\
open f 1 => ok
alloc r => ok
alloc s => ok
set f req:r red=200 brightness=6 => ok 200 8
set f req:r => ok
try f req:r blue=7 red=9 -> ok 7 9
set f req:s gain=7 => ok 7
buffer r 1 => ok
buffer s 1 -> error 16
buffer s 2 => ok
queue r => ok
queue s => ok
row 0 -> frame 0 buffer 1 refused - values 1 16 0 0 0 8 1 0 200 128
row 1 -> frame 1 buffer 2 refused - values 1 7 0 0 0 8 1 0 200 128
row 2 -> error 2
state r -> ok queued
set f req:r red=1 -> error 16 index 1
grab red on => ok
begin => ok buffer 1 refused 1
begin -> error 16
complete => ok
get f req:r red brightness -> ok 128 8
cancel s => ok
get f req:s gain -> ok 16
reinit r => ok
off => ok
free s => ok
state s -> error 22
alloc s => ok
state s -> ok idle
",
    is_cut: false,
    outcome: Outcome::Finished,
};

/// Each command on events, in each of its forms.
const EVENTS: Script = Script {
    kept: Kept::Sample,
    text: "\
open f 1 => ok
open h 1 => ok
sub f gain => ok
sub f red feedback => ok
sub f hue -> error 22
sub h button initial => ok
sub h 0x00980900 initial feedback => ok
take f -> error 2
set f cur autogain=0 gain=30 red=5 => ok 0 30 5
take f => event 0x00980913 changes 3 value 30 flags 0x0 sequence 0 pending 1
unsub f red => ok
take f -> error 2
set h cur button=1 brightness=8 => ok 0 8
grab brightness on => ok
take h => event 0x0098090d changes 2 value 0 flags 0x240 sequence 0 pending 1
take h => event 0x00980900 changes 3 value 8 flags 0x2 sequence 3 pending 0
unsub h 0x00000001 => ok
close h => ok
take h -> error 9
sub h red -> error 9
unsub h red -> error 9
",
    is_cut: false,
    outcome: Outcome::Finished,
};

/// The last line is cut off inside a word.
const CUT: Script = Script {
    kept: Kept::Sample,
    text: "\
open f 0 => ok
set f cur hu -> line 2: not a command
",
    is_cut: true,
    outcome: Outcome::BadLine(2),
};

/// The last line has two words in the wrong order.
const SWAPPED: Script = Script {
    kept: Kept::Sample,
    text: "\
open f 1 => ok
sub f red initial feedback => ok
sub f blue feedback initial -> line 3: not a command
",
    is_cut: false,
    outcome: Outcome::BadLine(3),
};

/// The last line lacks a word.
const LACKING: Script = Script {
    kept: Kept::Sample,
    text: "\
open f 1 => ok
unsub f -> line 2: not a command
",
    is_cut: false,
    outcome: Outcome::BadLine(2),
};

/// The last line has one word too many.
const LONG: Script = Script {
    kept: Kept::Sample,
    text: "\
open f 1 => ok
take f red -> line 2: not a command
",
    is_cut: true,
    outcome: Outcome::BadLine(2),
};

/// Items of menus: empty, of 32 bytes, skipped, never given, and the least and the greatest number; by words of the device's own, of which
/// `mode` stands twice, and none is the sample's.
const ITEMS: Script = Script {
    kept: Kept::Menus,
    text: "\
open f 0 => ok
menu f mode 0 -> ok 
menu f 0x1 1 -> ok a name of thirty-two bytes, yes.
menu f 0x1 2 -> error 22
menu f 0x1 3 -> error 22
menu f 0x1 4 -> ok last
menu f link_rate 0 -> ok -9223372036854775808
menu f 0x2 1 -> ok 25
menu f 0x2 3 -> error 22
menu f 0x2 4 -> ok 9223372036854775807
next f 0x0 -> ok 0x00000001
grab link_rate on => ok
set f cur mode=1 => ok 1
set f cur link_rate=1 -> error 16 index 1
query f power -> line 15: not a command
",
    is_cut: false,
    outcome: Outcome::BadLine(15),
};

/// Steps of each kind where the list of steps grows, as its capacity doubles: the first behind 4, 8, 16, 32 and 64.
const GROWTH: Script = Script {
    kept: Kept::Sample,
    text: "\
open f 1 => ok
alloc r => ok
buffer r 7 => ok
set f req:r autogain=0 red=200 gain=250 => ok 0 200 250
queue r => ok
grab red on => ok
alloc s => ok
buffer s 8 => ok
begin => ok buffer 7 refused 1
queue s => ok
open g 0 => ok
open g 0 => ok
open g 0 => ok
open g 0 => ok
open g 0 => ok
open g 0 => ok
complete => ok
open g 0 => ok
open g 0 => ok
open g 0 => ok
open g 0 => ok
open g 0 => ok
open g 0 => ok
open g 0 => ok
open g 0 => ok
open g 0 => ok
open g 0 => ok
open g 0 => ok
open g 0 => ok
open g 0 => ok
open g 0 => ok
open g 0 => ok
cancel s => ok
open g 0 => ok
open g 0 => ok
open g 0 => ok
open g 0 => ok
open g 0 => ok
open g 0 => ok
open g 0 => ok
open g 0 => ok
open g 0 => ok
open g 0 => ok
open g 0 => ok
open g 0 => ok
open g 0 => ok
open g 0 => ok
open g 0 => ok
open g 0 => ok
open g 0 => ok
open g 0 => ok
open g 0 => ok
open g 0 => ok
open g 0 => ok
open g 0 => ok
open g 0 => ok
open g 0 => ok
open g 0 => ok
open g 0 => ok
open g 0 => ok
open g 0 => ok
open g 0 => ok
open g 0 => ok
open g 0 => ok
reinit r => ok
get f req:s autogain gain red -> ok 0 250 128
state r -> ok idle
audit -> audit equal 65
",
    is_cut: false,
    outcome: Outcome::Finished,
};

/// The other kinds, in the same way.
const MORE_GROWTH: Script = Script {
    kept: Kept::Sample,
    text: "\
open f 1 => ok
alloc r => ok
alloc s => ok
buffer r 7 => ok
set f req:r button=1 red=200 gain=250 => ok 0 200 250
queue r => ok
open g 0 => ok
open g 0 => ok
buffer s 8 => ok
queue s => ok
begin => ok buffer 7 refused -
open g 0 => ok
open g 0 => ok
open g 0 => ok
open g 0 => ok
open g 0 => ok
off => ok
open g 0 => ok
open g 0 => ok
open g 0 => ok
open g 0 => ok
open g 0 => ok
open g 0 => ok
open g 0 => ok
open g 0 => ok
open g 0 => ok
open g 0 => ok
open g 0 => ok
open g 0 => ok
open g 0 => ok
open g 0 => ok
open g 0 => ok
free s => ok
open g 0 => ok
open g 0 => ok
open g 0 => ok
open g 0 => ok
open g 0 => ok
open g 0 => ok
open g 0 => ok
open g 0 => ok
open g 0 => ok
open g 0 => ok
open g 0 => ok
open g 0 => ok
open g 0 => ok
open g 0 => ok
open g 0 => ok
open g 0 => ok
open g 0 => ok
open g 0 => ok
open g 0 => ok
open g 0 => ok
open g 0 => ok
open g 0 => ok
open g 0 => ok
open g 0 => ok
open g 0 => ok
open g 0 => ok
open g 0 => ok
open g 0 => ok
open g 0 => ok
open g 0 => ok
open g 0 => ok
alloc t => ok
state s -> error 22
get f req:r gain red button -> error 13 index 3
get f req:r gain red -> ok 250 200
audit -> audit equal 65
",
    is_cut: false,
    outcome: Outcome::Finished,
};

const SCRIPTS: &[Script] = &[
    COMMANDS,
    REQUESTS,
    EVENTS,
    CUT,
    SWAPPED,
    LACKING,
    LONG,
    ITEMS,
    GROWTH,
    MORE_GROWTH,
];

/// Each script. Each function that names a constant has a copy of all that it leads to, so tests are handed them.
pub fn scripts() -> &'static [Script] {
    SCRIPTS
}

// A line of a script, the line that it prints, and whether it adds a step.
fn parts(line: &str) -> (&str, &str, bool) {
    if let Some((command, reply)) = line.split_once(" => ") {
        return (command, reply, true);
    }
    match line.split_once(" -> ") {
        Some((command, reply)) => (command, reply, false),
        None => (line, "", false),
    }
}

impl Script {
    /// How many lines it has.
    pub fn count(&self) -> usize {
        lines_in(self.text.as_bytes())
    }

    /// Its bytes.
    pub fn text(&self, alloc: Global) -> Result<Vec<u8>, AllocError> {
        let mut text = Vec::with_capacity(alloc, 4096)?;
        for line in self.text.lines() {
            text.extend_from_slice(parts(line).0.as_bytes())?;
            text.push(b'\n')?;
        }
        if self.is_cut {
            let _line_feed = text.pop();
        }
        Ok(text)
    }

    /// The lines that it prints.
    pub fn reply(&self, alloc: Global) -> Result<Vec<u8>, AllocError> {
        let mut text = Vec::with_capacity(alloc, 4096)?;
        for line in self.text.lines() {
            text.extend_from_slice(parts(line).1.as_bytes())?;
            text.push(b'\n')?;
        }
        Ok(text)
    }

    /// How many steps its first lines add.
    pub fn steps(&self, lines: usize) -> usize {
        let mut steps = 0usize;
        for line in self.text.lines().take(lines) {
            if parts(line).2 {
                steps = steps.saturating_add(1);
            }
        }
        steps
    }
}

/// How many lines end in a text.
pub fn lines_in(bytes: &[u8]) -> usize {
    let mut lines = 0usize;
    for byte in bytes {
        if *byte == b'\n' {
            lines = lines.saturating_add(1);
        }
    }
    lines
}
