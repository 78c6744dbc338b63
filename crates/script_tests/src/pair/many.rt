//! Many asks at once, on a device with closures.

ghost use Rattle.std.specs.Prelude.{◌≡◌, []};

use crate::pair::courses::{Course, goes};
use crate::pair::sample::NoGate;
use crate::scripts::lines_in;
use ctl_pair::run_pair;
use ctl_script::{Outcome, sample_words};
use ctrl_calls::Driver;
use device_state::{Device, Step};
use history::Entry;
use std::alloc::{AllocError, Global};
use std::sync::Wait;
use std::test::Fail;
use std::thread::Threads;

// A script: how it begins, ten lines, and nine lines that it then has 110 times.
type Script = (&'static str, &'static str);

const SETS: Script = (
    "open f 1\nsub f brightness\nsub f red feedback\nopen g 0\nalloc r\nbuffer r 7\nqueue r\nstate r\nrow 0\nrow 1\n",
    "set f cur red=5 brightness=8\nset f cur red=9\ntake f\ntake f\nset g cur hue=4\nget f cur blue red\ngrab blue on\ntry f cur blue=7\ngrab blue off\n",
);

const FRAMES: Script = (
    "open f 1\nalloc r\nsub f hflip\nsub f blue initial\ntake f\nopen h 1\nclose h\nalloc s\nbuffer s 2\nqueue s\n",
    "buffer r 1\nset f req:r hflip=1 blue=200\nqueue r\nrow 0\nbegin\ncomplete\nbegin\ncomplete\nreinit r\n",
);

// Frames with buffer 1 and buffer 2, as the other script of the pair makes them, too: a buffer that one script's request holds is refused to the other's,
// and each begins, completes and ends what is queued, whosever it is.
const BUFFERS: Script = (
    "open f 1\nalloc r\nalloc s\nsub f red feedback\nbuffer s 2\nqueue s\nrow 0\nbegin\ncomplete\nreinit s\n",
    "buffer r 1\nset f req:r red=9 blue=200\nqueue r\nset f cur red=200\nbegin\ntake f\ncomplete\ncancel r\nreinit r\n",
);

// The pairs of scripts, and how many steps each of the two has at least, whatever the other does.
const PAIRS: [(Script, Script, usize); 2] = [(SETS, FRAMES, 500), (BUFFERS, BUFFERS, 110)];

// Adds a script of 1,000 commands.
fn add_script(text: &mut Vec<u8>, script: Script) -> Result<(), AllocError> {
    text.extend_from_slice(script.0.as_bytes())?;
    for _ in 0..110 {
        text.extend_from_slice(script.1.as_bytes())?;
    }
    Ok(())
}

fn two_scripts(alloc: Global, first: Script, second: Script) -> Result<Vec<u8>, AllocError> {
    let mut text = Vec::new(alloc);
    add_script(&mut text, first)?;
    text.extend_from_slice(b"==\n")?;
    add_script(&mut text, second)?;
    Ok(text)
}

// What two scripts of 1,000 commands have printed and made: each command has its line, the steps of both, of each at least so many, are all that the device
// has, and its audit agrees.
fn is_whole(
    alloc: Global,
    steps: &[Entry<Step>],
    printed: &[u8],
    least: usize,
) -> Result<bool, AllocError> {
    let first = steps.iter().filter(|entry| entry.seat == 0).count();
    let second = steps.iter().filter(|entry| entry.seat == 1).count();
    let total = steps.len();
    let wanted = format!(in alloc; "accepted {first} {second}\naudit equal {total}\n")?;
    let has_lines = lines_in(printed) == 2002 && printed.ends_with(wanted.as_bytes());
    Ok(has_lines && first >= least && second >= least)
}

/// Whether each of two scripts has asked 1,000 times, had at least so many steps, and the audit of the device agrees.
pub fn both_run<D: Driver + Send, R: Threads + Wait + Sync>(
    rt: &R,
    alloc: Global,
    device: Device<D>,
    text: &[u8],
    least: usize,
) -> Result<bool, AllocError>
where
    D::Judge: Send,
    D::Teller: Send,
    requires { device.steps ≡ [] }
{
    let known = sample_words(alloc)?;
    let mut reader = text;
    let mut printed = Vec::new(alloc);
    let (left, outcome) = run_pair(
        rt,
        alloc,
        &known,
        device,
        &NoGate,
        &mut reader,
        &mut printed,
    );
    let Ok(device) = left else {
        return Err(AllocError);
    };
    let is_whole = is_whole(alloc, device.steps(), printed.as_slice(), least)?;
    Ok(is_whole && outcome == Outcome::Finished)
}

#[test]
fn two_scripts_of_1000_commands(rt: HostRuntime) -> Result<(), Fail> {
    for (at, (first, second, least)) in PAIRS.into_iter().enumerate() {
        let text = two_scripts(rt.alloc(), first, second)?;
        let has_run = goes(&rt, Course::Scripts(text.as_slice(), least))?;
        assert!(rt; has_run, "{at}");
    }
    Ok(())
}
