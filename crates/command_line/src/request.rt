//! What a command line asks for.

/// What a command line asks for.
#[derive(Drop)]
pub enum Request<'a> {
    /// The verdict on a set of logs.
    Check(Check<'a>),
    /// The verdict on a set of logs, and its order.
    Order(Order<'a>),
    /// The verdict on a set of logs, and why it is so.
    Explain(Explain<'a>),
    /// Whether a file can be read as what it has to be, and what is wrong with it.
    Inspect(Inspect<'a>),
    /// Whether a certificate holds of a trace, and what is wrong with it.
    Vet(Confirm<'a>),
    /// A set of logs, written anew in format 2.
    Upgrade(Upgrade<'a>),
    /// A run of the machine, one event after the other.
    Sim(Sim<'a>),
    /// A run of the machine, each core in a thread of its own.
    Run(Run<'a>),
    /// The outcomes of a litmus test.
    Litmus(LitmusRuns<'a>),
    /// Whether a trace is consistent, by a search.
    Search(Search<'a>),
    /// Whether a trace is consistent, by a certificate alone.
    Confirm(Confirm<'a>),
    /// Whether a trace is right in the order of its lines.
    Replay(Replay<'a>),
    /// The version of the program, and what it was proved with.
    Version,
}

/// Asks for the verdict on a set of logs.
#[derive(Drop)]
pub struct Check<'a> {
    /// How many workers judge it.
    pub workers: u64,
    /// The name of the file of the programs that the cores ran, if one is given.
    pub program: Option<&'a str>,
    /// The names of its files, that of core 0 first.
    pub files: Vec<&'a str>,
}

/// Asks for the verdict on a set of logs, and for the order of one that gets Yes.
#[derive(Drop)]
pub struct Order<'a> {
    /// The names of its files, that of core 0 first.
    pub files: Vec<&'a str>,
}

/// Asks for the verdict on a set of logs, and for what there is to tell of it.
#[derive(Drop)]
pub struct Explain<'a> {
    /// What is judged, by one worker.
    pub check: Check<'a>,
    /// The name of the file that a picture goes to, if one is given.
    pub picture: Option<&'a str>,
    /// The name of the file of the names of addresses, if one is given.
    pub names: Option<&'a str>,
    /// Whether to leave out the search for another order of a set that gets No.
    pub no_search: bool,
}

/// What a file that isn't a log has to be.
#[derive(Clone, Copy)]
pub enum FileKind {
    /// A litmus test.
    Litmus,
    /// The programs of a machine's cores.
    Programs,
    /// A trace.
    Trace,
}

/// Asks whether a file is what it has to be.
#[derive(Drop)]
pub struct Inspect<'a> {
    /// What it has to be.
    pub kind: FileKind,
    /// The name of the file.
    pub file: &'a str,
}

/// Asks for a set of logs in format 2.
#[derive(Drop)]
pub struct Upgrade<'a> {
    /// What the names of the logs that are written begin with.
    pub out: &'a str,
    /// The names of the files that are read, that of core 0 first.
    pub files: Vec<&'a str>,
}

/// Asks for a run of the machine, one event after the other, and its logs.
#[derive(Drop)]
pub struct Sim<'a> {
    /// The numbers of the machine.
    pub limits: Limits,
    /// The name of the file of the schedule that is followed first, if one is given.
    pub schedule: Option<&'a str>,
    /// The seed that draws the rounds after the schedule, if one is given.
    pub seed: Option<u64>,
    /// The seed that draws commands between those rounds, if one is given; alone it draws the rounds too.
    pub stress: Option<u64>,
    /// The name of the file that the numbers of the run go to, if one is given.
    pub statistics: Option<&'a str>,
    /// The name of the file that the events of the run go to, if one is given.
    pub events: Option<&'a str>,
    /// The name of the file of the programs.
    pub programs: &'a str,
    /// What the names of the logs begin with.
    pub out: &'a str,
}

/// Asks for a run of the machine, each core in a thread of its own, and its logs.
#[derive(Drop)]
pub struct Run<'a> {
    /// The numbers of the machine.
    pub limits: Limits,
    /// The name of the file that the numbers of the run go to, if one is given.
    pub statistics: Option<&'a str>,
    /// The name of the file of the programs.
    pub programs: &'a str,
    /// What the names of the logs begin with.
    pub out: &'a str,
}

/// Asks for runs of a litmus test, and the table of their outcomes.
#[derive(Drop)]
pub struct LitmusRuns<'a> {
    /// The numbers of the machine.
    pub limits: Limits,
    /// How many runs there are.
    pub runs: u64,
    /// The seed that draws the rounds of the first run.
    pub seed: u64,
    /// The seed that draws commands between those rounds, if one is given.
    pub stress: Option<u64>,
    /// Whether each core runs in a thread of its own; nothing is drawn then.
    pub threads: bool,
    /// The name of the file that the numbers of all runs go to, if one is given.
    pub statistics: Option<&'a str>,
    /// The name of the file of the test.
    pub test: &'a str,
}

/// The files that a trace is in.
#[derive(Drop)]
pub enum TraceFiles<'a> {
    /// The trace itself, in the file of this name.
    One(&'a str),
    /// The logs of a set, whose trace it is, in the files of these names, that of core 0 first.
    Logs(Vec<&'a str>),
    /// The same, with sources that the search takes as given.
    Sourced(Vec<&'a str>),
}

/// Asks whether a trace is consistent, by a search for an order or a refutation.
#[derive(Drop)]
pub struct Search<'a> {
    /// How many steps the search may make, if a number is given.
    pub budget: Option<u64>,
    /// The name of the file that an order goes to, if one is given.
    pub order: Option<&'a str>,
    /// The name of the file that a refutation goes to, if one is given.
    pub refutation: Option<&'a str>,
    /// The name of the file that a picture of a refutation goes to, if one is given.
    pub picture: Option<&'a str>,
    /// The name of the file of the names of addresses, if one is given.
    pub names: Option<&'a str>,
    /// Where the trace is.
    pub trace: TraceFiles<'a>,
}

/// Asks whether a trace is consistent, by a certificate alone; or whether the certificate is one of the trace.
#[derive(Drop)]
pub struct Confirm<'a> {
    /// The name of the file of the certificate: an order or a refutation.
    pub certificate: &'a str,
    /// Where the trace is.
    pub trace: TraceFiles<'a>,
}

/// Asks whether a trace is right in the order of its lines.
#[derive(Drop)]
pub struct Replay<'a> {
    /// Whether to tell, after a no, what should have been read.
    pub why: bool,
    /// The name of the file of the trace.
    pub trace: &'a str,
}

/// The numbers of the machine.
#[derive(Clone, Copy)]
pub struct Limits {
    /// How many slices there are.
    pub slices: u64,
    /// How many stamps a lease lasts.
    pub lease: u64,
    /// How many operations a core performs between two self-increments.
    pub period: u64,
    /// How many lines a private cache holds.
    pub cache_lines: u64,
    /// How many lines a slice holds.
    pub slice_lines: u64,
    /// How many recalls an inbox holds.
    pub inbox: u64,
}
