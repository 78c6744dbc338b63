//! Which command lines the tool takes.

use command_line::{Mode, ModeFault, WordsFault, mode_of, words_fault};

// The words of a command line, and what they ask for; the first is the program.
const COMMAND_LINES: &[(&[&str], Result<Mode, ModeFault>)] = &[
    (&["ctl_tool", "run"], Ok(Mode::Run)),
    (&["ctl_tool", "pair"], Ok(Mode::Pair)),
    (&["ctl_tool", "board"], Ok(Mode::Board)),
    (&["run", "board"], Ok(Mode::Board)),
    (&["board", "run"], Ok(Mode::Run)),
    (&[], Err(ModeFault::Usage)),
    (&["ctl_tool"], Err(ModeFault::Usage)),
    (&["ctl_tool", "pai"], Err(ModeFault::Usage)),
    (&["ctl_tool", "pair", "run"], Err(ModeFault::Usage)),
    (&["ctl_tool", "ru"], Err(ModeFault::Usage)),
    (&["ctl_tool", "Run"], Err(ModeFault::Usage)),
    (&["ctl_tool", "--help"], Err(ModeFault::Usage)),
    (&["ctl_tool", "-h"], Err(ModeFault::Usage)),
    (&["ctl_tool", "help"], Err(ModeFault::Usage)),
    (&["ctl_tool", "--version"], Err(ModeFault::Usage)),
    (&["ctl_tool", "-V"], Err(ModeFault::Usage)),
    (&["ctl_tool", "--"], Err(ModeFault::Usage)),
    (&["ctl_tool", "-"], Err(ModeFault::Usage)),
    (&["ctl_tool", ""], Err(ModeFault::Usage)),
    (&["ctl_tool", "run", "run"], Err(ModeFault::Usage)),
    (&["ctl_tool", "run", "x"], Err(ModeFault::Usage)),
    (&["ctl_tool", "run", "--help"], Err(ModeFault::Usage)),
    (&["ctl_tool", "run", "-h"], Err(ModeFault::Usage)),
    (&["ctl_tool", "run", "help"], Err(ModeFault::Usage)),
    (&["ctl_tool", "run", "board"], Err(ModeFault::Usage)),
    (&["ctl_tool", "board", "run"], Err(ModeFault::Usage)),
    (&["ctl_tool", "board", "--help"], Err(ModeFault::Usage)),
    (&["ctl_tool", "help", "board"], Err(ModeFault::Usage)),
    (&["ctl_tool", "--", "board"], Err(ModeFault::Usage)),
    (&["ctl_tool", "boar"], Err(ModeFault::Usage)),
    (&["ctl_tool", "Board"], Err(ModeFault::Usage)),
];

// What is wrong with some of them, and the place of the word.
const WRONG: &[(&[&str], usize, WordsFault)] = &[
    (&[], 1, WordsFault::Missing),
    (&["ctl_tool"], 1, WordsFault::Missing),
    (&["ctl_tool", "--help"], 1, WordsFault::Unknown),
    (&["ctl_tool", "--", "board"], 1, WordsFault::Unknown),
    (&["ctl_tool", "help", "board"], 1, WordsFault::Unknown),
    (&["ctl_tool", "run", "x"], 2, WordsFault::Further),
    (&["ctl_tool", "board", "--help"], 2, WordsFault::Further),
    (&["ctl_tool", "pair", "a", "b"], 2, WordsFault::Further),
];

#[test]
fn wrong_words(rt: HostRuntime) {
    for &(words, place, fault) in WRONG {
        assert!(rt; words_fault(words) == Some((place, fault)), "{words:?}");
    }
}

#[test]
fn command_lines(rt: HostRuntime) {
    for (words, mode) in COMMAND_LINES {
        // something is wrong with the words of each line that the tool doesn't take, and of no other
        let is_wrong = words_fault(*words).is_some();
        assert!(rt;
            mode_of(rt.alloc(), *words) == *mode && is_wrong == mode.is_err(),
            "{words:?}"
        );
    }
}
