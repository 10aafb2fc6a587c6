//! The commands and the options, as the usage lists them.

/// A command: its name, what stands behind it, how many words that is, and its options.
#[derive(Clone, Copy)]
pub(crate) struct CommandWords {
    pub(crate) name: &'static [u8],
    pub(crate) files: &'static [u8],
    pub(crate) count: usize,
    pub(crate) options: [&'static [u8]; 4],
}

/// The commands, in the order of the usage.
pub(crate) const COMMANDS: [CommandWords; 12] = [
    CommandWords {
        name: b"check",
        files: b"FILE",
        count: 1,
        options: [b"", b"", b"", b""],
    },
    CommandWords {
        name: b"turns",
        files: b"FILE CLIENTS",
        count: 2,
        options: [b"", b"", b"", b""],
    },
    CommandWords {
        name: b"compile",
        files: b"FILE",
        count: 1,
        options: [b"--relay", b"--count", b"", b""],
    },
    CommandWords {
        name: b"simulate",
        files: b"FILE CLIENTS",
        count: 2,
        options: [b"--seed", b"--spurious", b"--relay", b"--count"],
    },
    CommandWords {
        name: b"run",
        files: b"FILE CLIENTS",
        count: 2,
        options: [b"--workers", b"--relay", b"--count", b""],
    },
    CommandWords {
        name: b"stress",
        files: b"N",
        count: 1,
        options: [b"--workers", b"", b"", b""],
    },
    CommandWords {
        name: b"report",
        files: b"FILE",
        count: 1,
        options: [b"--count", b"--fits", b"", b""],
    },
    CommandWords {
        name: b"recheck",
        files: b"FILE REPORT",
        count: 2,
        options: [b"", b"", b"", b""],
    },
    CommandWords {
        name: b"block",
        files: b"FILE CLIENTS",
        count: 2,
        options: [b"--count", b"", b"", b""],
    },
    CommandWords {
        name: b"audit",
        files: b"FILE PLAN",
        count: 2,
        options: [b"--count", b"", b"", b""],
    },
    CommandWords {
        name: b"explain",
        files: b"FILE",
        count: 1,
        options: [b"--count", b"--fits", b"", b""],
    },
    CommandWords {
        name: b"emit",
        files: b"FILE",
        count: 1,
        options: [b"", b"", b"", b""],
    },
];

/// What is meant by words that are no command.
pub(crate) const OTHER_COMMANDS: [(&[u8], &[u8]); 15] = [
    (b"build", b"compile"),
    (b"plan", b"compile"),
    (b"start", b"run"),
    (b"exec", b"run"),
    (b"execute", b"run"),
    (b"test", b"check"),
    (b"lint", b"check"),
    (b"fmt", b"check"),
    (b"format", b"check"),
    (b"verify", b"recheck"),
    (b"prove", b"report"),
    (b"why", b"explain"),
    (b"generate", b"emit"),
    (b"export", b"emit"),
    (b"version", b"--version"),
];

/// What is said of words that are no option.
pub(crate) const OTHER_OPTIONS: [(&[u8], &[u8]); 8] = [
    (
        b"--threads",
        b"no option `--threads`: `--workers` says how many threads run the clients",
    ),
    (
        b"--jobs",
        b"no option `--jobs`: `--workers` says how many threads run the clients",
    ),
    (
        b"-j",
        b"no option `-j`: `--workers` says how many threads run the clients",
    ),
    (b"-n", b"no option `-n`: options are long, as `--workers`"),
    (
        b"-o",
        b"no option `-o`: all is printed on standard output, so write `> FILE`",
    ),
    (
        b"--out",
        b"no option `--out`: all is printed on standard output, so write `> FILE`",
    ),
    (
        b"--output",
        b"no option `--output`: all is printed on standard output, so write `> FILE`",
    ),
    (b"-V", b"`-V` stands alone"),
];

/// An option: its name, and of one with a number which numbers there are, and what is said of it.
#[derive(Clone, Copy)]
pub(crate) struct OptionWords {
    pub(crate) name: &'static [u8],
    pub(crate) numbered: bool,
    pub(crate) least: u128,
    pub(crate) most: u128,
    pub(crate) said: &'static [u8],
}

/// The options.
pub(crate) const OPTIONS: [OptionWords; 7] = [
    OptionWords {
        name: b"--seed",
        numbered: true,
        least: 0,
        most: 18_446_744_073_709_551_615,
        said: b"the seed is 0 to 18446744073709551615",
    },
    OptionWords {
        name: b"--spurious",
        numbered: true,
        least: 0,
        most: 16_384,
        said: b"spurious is 0 to 16384",
    },
    OptionWords {
        name: b"--workers",
        numbered: true,
        least: 1,
        most: 16,
        said: b"workers is 1 to 16",
    },
    OptionWords {
        name: b"--relay",
        numbered: false,
        least: 0,
        most: 0,
        said: b"`--relay` has no number",
    },
    OptionWords {
        name: b"--count",
        numbered: false,
        least: 0,
        most: 0,
        said: b"`--count` has no number",
    },
    OptionWords {
        name: b"--fits",
        numbered: false,
        least: 0,
        most: 0,
        said: b"`--fits` has no number",
    },
    OptionWords {
        name: b"--version",
        numbered: false,
        least: 0,
        most: 0,
        said: b"`--version` stands alone",
    },
];
