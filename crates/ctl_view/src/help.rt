//! What the program says of its command line. `./ctl_view --help` prints the text from this file, so that nothing is built for it.

/// How the program is called.
pub const USAGE: &str = "usage: ctl_view [--device FILE] \
    [--queue | --why | --list | --board | --pair | --check] [SCRIPT]";

/// How the program is called, with a line for each word.
pub const HELP: &str = "\
usage: ctl_view [--device FILE] [--queue | --why | --list | --board | --pair | --check] [SCRIPT]

Shows a script beside its replies, why what is refused is, and the queued frames as a table.
Words stand in any order. A file whose name begins with a hyphen is named as ./-NAME.

  SCRIPT         a file of commands, as docs/SCRIPTS.md has them; standard input without it
  --device FILE  the device that this file describes (docs/DEVICES.md); else the sample device
  --queue        the table also behind each command that changes what queued frames will have
  --why          replies alone, as ctl_tool run prints them; reasons on standard error
  --list         the device as v4l2-ctl lists one, behind SCRIPT; without it, at the start
  --board        a line for each frame that is queued at the end, as ctl_tool board prints them
  --pair         two scripts in one, divided by a line ==, as ctl_tool pair runs them
  --check        how large the device of FILE is, or its faults, and what it may not mean
  --help         this text
  --version      whether the program that ./ctl_view runs is proved

The status is 0, also where commands are refused; 1 at a fault; 2 for other words.
";

/// What the program knows of itself, which isn't by whom it was built.
pub const VERSION: &str = "ctl_view: ./ctl_view --version says whether its program is proved\n";
