use crate::devices::Kept;
use crate::scripts::{Script, lines_in, scripts};
use crate::streams::{Ran, Streams, WHOLE, run};
use ctl_script::{MAX_INPUT, MAX_READS, Outcome};
use std::alloc::{AllocError, Global};
use std::io::ErrorKind;

// How many bytes the writers take at once.
const MOST: [usize; 3] = [1, 7, 4096];

const FAULTS: [Option<ErrorKind>; 3] = [Some(ErrorKind::Other), Some(ErrorKind::Interrupted), None];

// A run that wrote these bytes and ended so, with so many steps.
fn is_run(ran: &Ran, bytes: &[u8], outcome: Outcome, steps: usize) -> bool {
    ran.bytes.as_slice() == bytes && ran.outcome == outcome && ran.steps == steps
}

// Runs a script.
fn run_of(alloc: Global, script: &Script, streams: Streams) -> Result<Ran, AllocError> {
    let text = script.text(alloc)?;
    run(alloc, script.kept, text.as_slice(), streams)
}

// A run that wrote all lines of a script, and ended with all of its steps as it does.
fn is_whole(alloc: Global, script: &Script, ran: &Ran) -> Result<bool, AllocError> {
    let reply = script.reply(alloc)?;
    let steps = script.steps(script.count());
    Ok(is_run(ran, reply.as_slice(), script.outcome, steps))
}

// A script prints its lines to a writer that takes few bytes at once.
fn prints(alloc: Global, script: &Script, most: usize) -> Result<bool, AllocError> {
    let streams = Streams {
        most_written: most,
        ..WHOLE
    };
    let ran = run_of(alloc, script, streams)?;
    let lines = script.count();
    let fewest = if most == 1 { ran.bytes.len() } else { lines };
    // a writer that takes a line whole takes it in one write
    let is_few = most < 4096 || ran.writes as usize == lines;
    let is_enough = ran.writes as usize >= fewest;
    Ok(is_whole(alloc, script, &ran)? && is_enough && is_few)
}

#[test]
fn scripts_print_their_lines(rt: HostRuntime) -> Result<(), AllocError> {
    for (number, script) in scripts().iter().enumerate() {
        for most in MOST {
            assert!(rt; prints(rt.alloc(), script, most)?, "{number} {most}");
        }
    }
    Ok(())
}

// A write that fails ends the run: what was written is a prefix of the lines, and the device has the steps of the commands up to the
// one whose line failed. `None` where there are fewer writes than `number`.
fn fails_at(
    alloc: Global,
    script: &Script,
    most: usize,
    number: u32,
    fault: Option<ErrorKind>,
) -> Result<Option<bool>, AllocError> {
    let streams = Streams {
        most_written: most,
        write_fault: Some((number, fault)),
        ..WHOLE
    };
    let ran = run_of(alloc, script, streams)?;
    if ran.writes < number {
        return Ok(None);
    }
    let whole = lines_in(ran.bytes.as_slice());
    let steps = script.steps(whole.saturating_add(1));
    let has_failed = ran.outcome == Outcome::WriteFault
        && ran.writes == number
        && ran.steps == steps;
    Ok(Some(is_beginning(alloc, script, &ran)? && has_failed))
}

// A run that wrote a beginning of a script's lines, and not all.
fn is_beginning(alloc: Global, script: &Script, ran: &Ran) -> Result<bool, AllocError> {
    let reply = script.reply(alloc)?;
    let written = ran.bytes.as_slice();
    Ok(written.len() < reply.len() && reply.as_slice().starts_with(written))
}

// Whether each write fails as it has to; and the number of the first that isn't made.
fn fails_at_each(
    alloc: Global,
    script: &Script,
    most: usize,
    fault: Option<ErrorKind>,
) -> Result<Option<u32>, AllocError> {
    for number in 1..2000 {
        match fails_at(alloc, script, most, number, fault)? {
            Some(true) => {}
            Some(false) => return Ok(None),
            None => return Ok(Some(number)),
        }
    }
    Ok(None)
}

#[test]
fn writers_fail_at_each_write(rt: HostRuntime) -> Result<(), AllocError> {
    for (number, script) in scripts().iter().enumerate() {
        for most in MOST {
            for fault in FAULTS {
                let failed = fails_at_each(rt.alloc(), script, most, fault)?;
                let lines = script.count();
                assert!(rt;
                    matches!(failed, Some(number) if number as usize > lines),
                    "{number} {most} {fault:?}"
                );
            }
        }
    }
    Ok(())
}

// A read that fails ends the run before a command was asked.
fn read_fails(alloc: Global, script: &Script, number: u32) -> Result<bool, AllocError> {
    let streams = Streams {
        most_read: 8,
        read_fault: Some((number, ErrorKind::Other)),
        ..WHOLE
    };
    let failed = run_of(alloc, script, streams)?;
    let has_failed = is_run(&failed, b"read fault\n", Outcome::ReadFault, 0);
    Ok(failed.reads == number && has_failed)
}

// One that is interrupted is made again.
fn read_is_interrupted(alloc: Global, script: &Script, number: u32) -> Result<bool, AllocError> {
    let streams = Streams {
        most_read: 8,
        read_fault: Some((number, ErrorKind::Interrupted)),
        ..WHOLE
    };
    let ran = run_of(alloc, script, streams)?;
    is_whole(alloc, script, &ran)
}

fn reads(alloc: Global, script: &Script, number: u32) -> Result<bool, AllocError> {
    Ok(read_fails(alloc, script, number)? && read_is_interrupted(alloc, script, number)?)
}

#[test]
fn readers_fail_at_each_read(rt: HostRuntime) -> Result<(), AllocError> {
    for (number, script) in scripts().iter().enumerate() {
        let length = script.text(rt.alloc())?.len();
        let count = u32::try_from(length.div_ceil(8)).unwrap_or(0);
        // the last read shows the end
        for read in 1..=count.saturating_add(1) {
            assert!(rt; reads(rt.alloc(), script, read)?, "{number}, read {read}");
        }
    }
    Ok(())
}

// How many signs of a comment an input has and what stands behind them, which of its reads fails, what it prints, how it ends, and how many reads there are.
type Input = (
    usize,
    &'static str,
    Option<(u32, ErrorKind)>,
    &'static str,
    Outcome,
    u32,
);

// Every read is interrupted; an input has the most bytes, also where its last line is no command, and one more.
const INPUTS: &[Input] = &[
    (
        0,
        "",
        Some((0, ErrorKind::Interrupted)),
        "read fault\n",
        Outcome::ReadFault,
        MAX_READS,
    ),
    (0, "", None, "", Outcome::Finished, 1),
    (MAX_INPUT, "", None, "", Outcome::Finished, 257),
    (
        1_048_571,
        "\nwalk",
        None,
        "line 2: not a command\n",
        Outcome::BadLine(2),
        257,
    ),
    (
        MAX_INPUT,
        "",
        Some((257, ErrorKind::Other)),
        "read fault\n",
        Outcome::ReadFault,
        257,
    ),
    (
        1_048_577,
        "",
        None,
        "input too long\n",
        Outcome::TooLong,
        257,
    ),
];

// A run of an input without commands prints that on the sample device, which gets no step.
fn ends(alloc: Global, input: &Input) -> Result<bool, AllocError> {
    let mut text = vec![in alloc; b'#'; input.0]?;
    text.extend_from_slice(input.1.as_bytes())?;
    let streams = Streams {
        read_fault: input.2,
        ..WHOLE
    };
    let ran = run(alloc, Kept::Sample, text.as_slice(), streams)?;
    Ok(is_run(&ran, input.3.as_bytes(), input.4, 0) && ran.reads == input.5)
}

#[test]
fn inputs_at_the_limits(rt: HostRuntime) -> Result<(), AllocError> {
    for (number, input) in INPUTS.iter().enumerate() {
        assert!(rt; ends(rt.alloc(), input)?, "{number}");
    }
    Ok(())
}
