//! The subcommands of the program, and the arguments of each.

use super::argument::Argument;

/// A subcommand: its name, what the help tells of it, and its arguments.
#[derive(Clone, Copy)]
pub(crate) struct Subcommand<'a> {
    pub(crate) name: &'a str,
    /// What it does.
    pub(crate) about: &'a str,
    /// What a call of it looks like, and what its answer doesn't say.
    pub(crate) example: &'a str,
    /// The options that give the numbers of the machine, if it runs one; they come first.
    pub(crate) limits: &'a [Argument<'a>],
    /// Its own arguments.
    pub(crate) arguments: &'a [Argument<'a>],
}

/// The subcommands, in the order in which the help lists them.
pub(crate) const SUBCOMMANDS: [Subcommand<'static>; 10] = [
    CHECK, ORDER, EXPLAIN, SIM, RUN, LITMUS, UPGRADE, SEARCH, CONFIRM, REPLAY,
];

/// The subcommand that judges a set of logs.
const CHECK: Subcommand<'static> = Subcommand {
    name: "check",
    about: "Tells whether logs, one of each core, are sequentially consistent",
    example: "Example: tardis check --workers 4 log.0 log.1",
    limits: &[],
    arguments: &[
        Argument::Number(
            "workers",
            "How many workers judge in parallel, 1 to 64 [default: 1]",
        ),
        Argument::File("program", "Also check the logs against these programs"),
        Argument::Files(LOGS_HELP),
    ],
};

/// The subcommand that judges a set of logs and writes its order.
const ORDER: Subcommand<'static> = Subcommand {
    name: "order",
    about: "Judges logs, and writes the order by which they are sequentially consistent",
    example: "Example: tardis order log.0 log.1",
    limits: &[],
    arguments: &[Argument::Files(LOGS_HELP)],
};

/// The subcommand that judges a set of logs and tells why.
const EXPLAIN: Subcommand<'static> = Subcommand {
    name: "explain",
    about: "Judges logs, and tells why they get that verdict, or why a file is refused",
    example: "Examples: tardis explain --svg why.svg log.0 log.1\n          tardis explain --litmus SB.litmus",
    limits: &[],
    arguments: &[
        Argument::File("program", "Also check the logs against these programs"),
        Argument::File(
            "svg",
            "The file that a picture of it goes to [default: none]",
        ),
        Argument::File("names", NAMES_HELP),
        Argument::Flag("no-search", "After a no, don't search for another order"),
        Argument::Flag("litmus", "FILE is a litmus test, and is only read"),
        Argument::Flag("programs", "FILE is a set of programs, and is only read"),
        Argument::Flag("trace", "FILE is a trace, and is only read"),
        Argument::File(
            "certificate",
            "Confirms the order or refutation F of the trace FILE, or tells why it isn't one",
        ),
        Argument::Files(
            "The logs, that of core 0 first; with --litmus, --programs, --trace or --certificate one file",
        ),
    ],
};

/// The subcommand that runs the machine, one event after the other.
const SIM: Subcommand<'static> = Subcommand {
    name: "sim",
    about: "Runs programs, one for each core, and writes a log of each core",
    example: "Example: tardis sim --seed 7 examples/read_across.programs log",
    limits: &LIMITS,
    arguments: &[
        Argument::File(
            "schedule",
            "The schedule that is followed first [default: none]",
        ),
        Argument::Number(
            "seed",
            "Seed of the random interleaving that follows the schedule, 0 to 18446744073709551615 [default: no draws, core 0 first]",
        ),
        Argument::Number(
            "stress",
            "Seed of random evictions, spills, recalls and bumps between the rounds, and of the interleaving if --seed isn't given [default: none]",
        ),
        Argument::File("stats", STATS_HELP),
        Argument::File(
            "trace",
            "Write each event of the run, its outcome and its line after it to F, as CSV [default: none]",
        ),
        Argument::Name("PROGRAMS", PROGRAMS_HELP),
        Argument::Name("OUT", OUT_HELP),
    ],
};

/// The subcommand that runs the machine, each core in a thread of its own.
const RUN: Subcommand<'static> = Subcommand {
    name: "run",
    about: "Runs programs in parallel, each core in a thread, and writes a log of each core",
    example: "Example: tardis run examples/read_across.programs log",
    limits: &LIMITS,
    arguments: &[
        Argument::File("stats", STATS_HELP),
        Argument::Name("PROGRAMS", PROGRAMS_HELP),
        Argument::Name("OUT", OUT_HELP),
    ],
};

/// The subcommand that runs a litmus test again and again, and counts its outcomes.
const LITMUS: Subcommand<'static> = Subcommand {
    name: "litmus",
    about: "Runs a litmus test many times on a machine of this program's own, judges each run, and counts the outcomes",
    example: "Example: tardis litmus --runs 1000 examples/litmus/SB.litmus\n\nThe runs, also with --threads, are of this program's own Tardis machine and not of your processor, for which there is examples/hardware.\nThey are samples: a forbidden outcome that none of them had isn't proved impossible.",
    limits: &LIMITS,
    arguments: &[
        Argument::Number(
            "runs",
            "How many runs there are, 1 to 100000 [default: 100]",
        ),
        Argument::Number(
            "seed",
            "Seed of the random interleaving of the first run, 0 to 18446744073709551615; one more for each run after it [default: 1]",
        ),
        Argument::Number(
            "stress",
            "Seed of random evictions, spills, recalls and bumps in the first run; one more for each run after it [default: none]",
        ),
        Argument::Flag(
            "threads",
            "Run each core in a thread; --seed and --stress are ignored",
        ),
        Argument::File(
            "stats",
            "Write the counts of all runs together to F, as CSV [default: none]",
        ),
        Argument::Name("TEST", "The file of the test"),
    ],
};

/// The subcommand that writes a set of logs in format 2.
const UPGRADE: Subcommand<'static> = Subcommand {
    name: "upgrade",
    about: "Reads logs, one of each core, and writes them in format 2",
    example: "Example: tardis upgrade new log.0 log.1",
    limits: &[],
    arguments: &[
        Argument::Name(
            "OUT",
            "What the names of the new logs begin with: new for new.0, new.1 and so on",
        ),
        Argument::Files(LOGS_HELP),
    ],
};

/// The subcommand that searches an order of a trace.
const SEARCH: Subcommand<'static> = Subcommand {
    name: "search",
    about: "Tells whether a trace, which has no times, is sequentially consistent",
    example: "Examples: tardis search trace\n          tardis search --logs log.0 log.1",
    limits: &[],
    arguments: &[
        Argument::Flag("logs", "Reads logs, and leaves their times out"),
        Argument::Flag("sources", SOURCES_HELP),
        Argument::Number(
            "budget",
            "How many steps the search may make, 0 to 18446744073709551615 [default: 100000000]",
        ),
        Argument::File("order", "The file that an order goes to [default: none]"),
        Argument::File(
            "refutation",
            "The file that a refutation goes to [default: none]",
        ),
        Argument::File(
            "svg",
            "The file that a picture of a refutation goes to [default: none]",
        ),
        Argument::File("names", NAMES_HELP),
        Argument::Files("The trace; with --logs the logs, that of core 0 first"),
    ],
};

/// The subcommand that looks at a certificate of a trace.
const CONFIRM: Subcommand<'static> = Subcommand {
    name: "confirm",
    about: "Tells whether a trace is sequentially consistent, by an order or a refutation alone",
    example: "Examples: tardis confirm trace certificate\n          tardis confirm --logs certificate log.0 log.1",
    limits: &[],
    arguments: &[
        Argument::Flag("logs", "Reads logs, and leaves their times out"),
        Argument::Flag("sources", SOURCES_HELP),
        Argument::Name("TRACE", "The trace; with --logs the certificate"),
        Argument::Files("The certificate; with --logs the logs, that of core 0 first"),
    ],
};

/// The subcommand that replays a trace.
const REPLAY: Subcommand<'static> = Subcommand {
    name: "replay",
    about: "Tells whether a trace is right in the order of its lines, and stops at the first load that isn't",
    example: "Examples: tardis replay trace\n          simulator | tardis replay /dev/stdin\n\nA yes says that the trace is sequentially consistent. A no says that it isn't so in this order; tardis search looks for another.",
    limits: &[],
    arguments: &[
        Argument::Flag("why", "After a no, tell what should have been read"),
        Argument::Name(
            "TRACE",
            "The trace, its lines in the order in which the operations took effect",
        ),
    ],
};

/// The options that give the numbers of the machine.
const LIMITS: [Argument<'static>; 6] = [
    Argument::Number("slices", "How many slices memory has, 1 to 16 [default: 1]"),
    Argument::Number(
        "lease",
        "How many stamps a lease lasts, 1 to 1000 [default: 10]",
    ),
    Argument::Number(
        "period",
        "Operations between two self-increments of a core's stamp, 1 to 1000000 [default: 100]",
    ),
    Argument::Number(
        "cache",
        "How many lines a private cache holds, 1 to 4096 [default: 64]",
    ),
    Argument::Number(
        "slice-lines",
        "How many lines a slice holds, 1 to 65536 [default: 64]",
    ),
    Argument::Number(
        "inbox",
        "How many recalls an inbox holds, 1 to 1024; no effect on sim [default: 8]",
    ),
];

/// What the help says of the logs of a set.
const LOGS_HELP: &str = "The logs, that of core 0 first";

/// What the help says of the sources of logs.
const SOURCES_HELP: &str = "With --logs, takes the stores that loads and swaps name as given";

/// What the help says of the file of the names of addresses.
const NAMES_HELP: &str =
    "Tells the names of F in place of addresses, of which each line has one: 8 flag [default: none]";

/// What the help says of the file of the programs.
const PROGRAMS_HELP: &str = "The file of the programs";

/// What the help says of the names of the logs.
const OUT_HELP: &str = "What the names of the logs begin with: log for log.0, log.1 and so on";

/// What the help says of the file of the numbers of a run.
const STATS_HELP: &str = "Write the run's counts to F, as CSV [default: none]";
