//! How often the closures of clusters are called: as often as the device counts, and those of no other cluster.

use crate::scene::{behind, counters, device};
use ctrl_calls::Work;
use std::alloc::{AllocError, Global};

// Sets of one control.
const SETS: &str = "\
open f 1 ->
told 0 ->
set f cur gain=250 -> 0:1/1
set f cur gain=201 -> 0:1/0
set f cur autogain=0 -> 0:1/1
set f cur autogain=0 -> 0:1/0
told 0 ->
set f cur red=200 -> 1:1/1
set f cur blue=200 -> 1:1/0
set f cur blue=128 -> 1:1/0
set f cur blue=184 -> 1:1/1
told 1 ->
set f cur button=1 -> 2:0/1
set f cur button=1 -> 2:0/1
set f cur brightness=4 -> 3:0/1
set f cur brightness=5 ->
told 3 ->
set f cur hflip=1 ->
set f cur hue=3 ->
";

// Lists over several clusters: each validator is asked once, and each cluster that changes is told once. The button acts at each set that
// names it.
const LISTS: &str = "\
open f 1 ->
try f cur autogain=1 red=100 gain=9 blue=90 brightness=7 button=1 -> 0:1/0 1:1/0
set f cur autogain=1 red=100 gain=9 blue=90 brightness=7 button=1 -> 0:1/1 1:1/1 2:0/1 3:0/1
set f cur autogain=1 red=100 gain=9 blue=90 brightness=7 button=1 -> 0:1/0 1:1/0 2:0/1
try f cur gain=250 red=1 gain=5 -> 0:1/0 1:1/0
set f cur gain=250 red=1 gain=5 -> 0:1/1 1:1/1
set f cur hflip=0 power=2 ->
get f cur ->
try f cur ->
set f cur ->
";

// Refused lists: nobody is asked where an entry is refused, nor about a cluster behind one that is, and nobody is told.
const REFUSED: &str = "\
open f 1 ->
try f cur gain=6 red=200 blue=200 -> 0:1/0 1:1/0
set f cur gain=6 red=200 blue=200 -> 0:1/0 1:1/0
try f cur red=200 blue=200 gain=6 -> 1:1/0
set f cur red=200 blue=200 gain=6 -> 1:1/0
try f cur gain=6 power=4 ->
set f cur gain=6 power=4 ->
try f cur gain=6 0x00980999=4 ->
set f cur gain=6 0x00980999=4 ->
get f cur gain red blue brightness ->
";

// Range changes: nobody is asked where no frame waits that names the cluster, and then once for each such frame, also where the value stays; a cluster is told
// where the value moves, and the grab doesn't matter.
const RANGED: &str = "\
open f 1 ->
range red 0 255 1 128 ->
range red 0 100 1 50 -> 1:0/1
range red 0 100 1 20 ->
range brightness -64 -4 4 -8 -> 3:0/1
range hue 5 10 1 5 ->
grab blue on ->
range blue 0 100 1 100 -> 1:0/1
grab blue off ->
alloc r ->
set f req:r red=200 -> 1:1/0
buffer r 1 ->
queue r -> 1:1/0
range red 0 255 1 128 -> 1:1/0
range blue 0 90 1 90 -> 1:1/1
alloc s ->
set f req:s blue=7 gain=4 -> 0:1/0 1:1/0
buffer s 2 ->
queue s -> 0:1/0 1:1/0
range blue 0 255 1 90 -> 1:2/0
range gain 0 100 1 16 -> 0:1/0
range gain 20 100 1 20 -> 0:1/1
range gain 20 10 1 20 ->
range brightness -64 64 4 0 ->
row 1 ->
begin -> 1:0/1
";

// Stores and tries through a request: of the clusters that it asks for, those of the list are asked about.
const STORED: &str = "\
open f 1 ->
alloc r ->
set f req:r red=1 gain=5 gain=6 -> 0:1/0 1:1/0
set f req:r red=200 autogain=0 gain=250 -> 0:1/0 1:1/0
try f req:r hflip=1 blue=200 -> 1:1/0
set f req:r hflip=1 blue=200 -> 1:1/0
try f cur blue=200 -> 1:1/0
try f req:r blue=184 -> 1:1/0
try f req:r blue=200 red=9 -> 1:1/0
get f cur autogain gain red ->
set f req:r ->
set f req:r blue=184 -> 1:1/0
";

// A queueing asks about each cluster that the request names, once; the begin asks nobody, and tells each that changes.
const BEGUN: &str = "\
open f 1 ->
alloc r ->
buffer r 7 ->
set f req:r autogain=0 red=200 gain=250 -> 0:1/0 1:1/0
told 0 ->
set f cur blue=200 -> 1:1/1
queue r -> 0:1/0 1:1/0
begin -> 0:0/1
told 0 ->
told 1 ->
get f cur autogain gain red blue ->
get f req:r gain ->
complete ->
get f req:r red gain ->
reinit r ->
buffer r 8 ->
set f req:r gain=201 brightness=5 -> 0:1/0
queue r -> 0:1/0
begin -> 3:0/1
told 3 ->
";

// A button is told at each begin that names it, though it has no value that changes; not where it is grabbed then.
const PRESSED: &str = "\
open f 1 ->
alloc r ->
alloc s ->
alloc t ->
buffer r 7 ->
buffer s 8 ->
buffer t 9 ->
set f req:r button=1 ->
set f req:s button=1 gain=9 -> 0:1/0
set f req:t button=1 ->
queue r ->
queue s -> 0:1/0
queue t ->
begin -> 2:0/1
complete ->
grab button on ->
begin -> 0:0/1
complete ->
grab button off ->
begin -> 2:0/1
told 2 ->
";

// Nobody is asked about a cluster that a grab refuses.
const GRABBED: &str = "\
open f 1 ->
alloc r ->
buffer r 7 ->
set f req:r red=5 -> 1:1/0
grab red on ->
set f req:r red=6 ->
try f req:r red=6 -> 1:1/0
set f req:r blue=255 -> 1:1/0
queue r ->
begin ->
get f cur red blue ->
";

// The end of the stream asks and tells nobody; a set asks about each frame that waits and names the cluster, too.
const OFF: &str = "\
off ->
alloc r ->
alloc s ->
alloc t ->
alloc u ->
open f 1 ->
buffer r 11 ->
buffer s 12 ->
buffer t 13 ->
buffer u 14 ->
set f req:r gain=9 -> 0:1/0
set f req:s gain=8 red=8 -> 0:1/0 1:1/0
queue t ->
cancel t ->
reinit t ->
buffer t 13 ->
queue r -> 0:1/0
queue t ->
queue s -> 0:1/0 1:1/0
begin -> 0:0/1
set f cur gain=30 blue=3 -> 0:2/1 1:2/1
off ->
set f cur gain=40 -> 0:1/1
complete ->
begin ->
queue s ->
queue u ->
begin ->
";

// A set and a grab ask again, for each queued frame that names a cluster that they touch. A row and a begin ask nobody.
const ROWS: &str = "\
open f 1 ->
alloc r ->
alloc s ->
buffer r 7 ->
buffer s 8 ->
set f req:r red=200 -> 1:1/0
set f req:s blue=200 gain=250 button=1 -> 0:1/0 1:1/0
row 0 ->
queue r -> 1:1/0
queue s -> 0:1/0 1:1/0
row 0 ->
row 1 ->
row 2 ->
row 4294967295 ->
grab red on -> 1:1/0
row 0 ->
row 1 ->
grab red off -> 1:2/0
set f cur autogain=0 blue=185 -> 0:2/1 1:3/1
row 0 ->
begin ->
row 0 ->
cancel s ->
row 0 ->
";

// A set that two queued frames name: of what it sets, and of each row.
const DIRECT: &str = "\
open f 1 ->
alloc r ->
alloc s ->
set f req:r blue=100 -> 1:1/0
set f req:s blue=200 -> 1:1/0
buffer r 1 ->
buffer s 2 ->
queue r -> 1:1/0
queue s -> 1:1/0
set f cur red=250 -> 1:3/1
row 0 ->
row 1 ->
";

// A set goes through the frames that name its cluster up to the first whose row and refusal stay as they were, and asks about none behind it: so of two frames the second
// isn't asked about, and of the three behind them the last isn't.
const ENDED: &str = "\
open f 1 ->
alloc r ->
alloc s ->
alloc t ->
alloc u ->
set f req:r red=100 blue=100 -> 1:1/0
set f req:s blue=200 -> 1:1/0
set f req:t red=30 -> 1:1/0
set f req:u blue=10 -> 1:1/0
buffer r 1 ->
buffer s 2 ->
buffer t 3 ->
buffer u 4 ->
queue r -> 1:1/0
queue s -> 1:1/0
set f cur red=90 -> 1:2/1
queue t -> 1:1/0
queue u -> 1:1/0
begin -> 1:0/1
set f cur red=80 -> 1:3/1
";

// An audit asks about each step behind the audit before, once, and about each frame that waits, for its forecast; it tells nobody.
const AUDITED: &str = "\
open f 1 ->
set f cur gain=9 red=200 -> 0:1/1 1:1/1
set f cur gain=8 -> 0:1/1
audit -> 0:2/0 1:1/0
audit ->
set f cur gain=7 -> 0:1/1
try f cur gain=6 -> 0:1/0
audit -> 0:1/0
alloc r ->
buffer r 7 ->
set f req:r red=100 -> 1:1/0
queue r -> 1:1/0
audit -> 1:2/0
audit -> 1:1/0
set f cur blue=9 -> 1:2/1
audit -> 1:2/0
begin -> 1:0/1
audit -> 1:1/0
audit ->
";

// Scripts. Behind each command stand the clusters whose closures it calls: how often the validator is asked, and the notifier told.
const SCRIPTS: &[&str] = &[
    SETS, LISTS, REFUSED, RANGED, STORED, BEGUN, PRESSED, GRABBED, OFF, ROWS, DIRECT, ENDED,
    AUDITED,
];

// How often the validator and the notifier of each cluster were called.
type Calls = [(u64, u64); 4];

// The calls of a device behind a script, those at its making among them, and what it counts of the last ask.
fn calls_behind(alloc: Global, script: &[u8]) -> Result<(Calls, Work), AllocError> {
    let counters = counters(alloc)?;
    let (device, _) = behind(alloc, device(alloc, &counters)?, script)?;
    let [gain, balance, button, brightness] = &counters;
    let calls = [
        gain.calls(),
        balance.calls(),
        button.calls(),
        brightness.calls(),
    ];
    Ok((calls, device.work()))
}

// The calls between two moments, as a line of a script has them, and how many of each sort there are.
fn between(alloc: Global, before: &Calls, now: &Calls) -> Result<(String, Work), AllocError> {
    let mut said = String::new(alloc);
    let mut work = Work::new();
    for (number, (before, now)) in before.iter().zip(now).enumerate() {
        let asked = now.0.wrapping_sub(before.0);
        let told = now.1.wrapping_sub(before.1);
        if asked != 0 || told != 0 {
            write!(said, " {number}:{asked}/{told}")?;
        }
        work.asked = work.asked.wrapping_add(asked);
        work.told = work.told.wrapping_add(told);
    }
    Ok((said, work))
}

// The first line whose calls are others, or which the device counts otherwise; an audit isn't one of its calls.
fn miscounted<'a>(alloc: Global, text: &'a str) -> Result<Option<&'a str>, AllocError> {
    let mut script = Vec::new(alloc);
    let mut before = calls_behind(alloc, b"")?.0;
    for line in text.lines() {
        let Some((command, wanted)) = line.split_once(" ->") else {
            return Ok(Some(line));
        };
        script.extend_from_slice(command.as_bytes())?;
        script.push(b'\n')?;
        let (now, counted) = calls_behind(alloc, script.as_slice())?;
        let (said, work) = between(alloc, &before, &now)?;
        let is_counted = command == "audit" || work == counted;
        if said.as_str() != wanted || !is_counted {
            return Ok(Some(line));
        }
        before = now;
    }
    Ok(None)
}

#[test]
fn closures_are_called_as_often_as_is_counted(rt: HostRuntime) -> Result<(), AllocError> {
    for script in SCRIPTS {
        let found = miscounted(rt.alloc(), *script)?;
        assert!(rt; found.is_none(), "{found:?}");
    }
    Ok(())
}
