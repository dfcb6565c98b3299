//! What a call reads and writes, beside logs.

ghost use Rattle.std.specs.Prelude.{◌≡◌};
ghost use Rattle.commands.specs.Refusals.{input_text, output_text};

/// A file that a call reads alone.
#[derive(Clone, Copy)]
pub enum Input {
    Programs,
    Schedule,
    /// A litmus test.
    Test,
    Trace,
    Certificate,
    /// The names of addresses.
    Names,
}

/// What a call writes.
#[derive(Clone, Copy)]
pub enum Output {
    /// Standard output.
    Standard,
    /// The picture of an explanation, or of a refutation.
    Picture,
    Order,
    Refutation,
    /// The numbers of a run, or of runs.
    Statistics,
    /// The events of a run.
    Events,
}

impl Input {
    /// What it is called in a refusal.
    pub(crate) fn name(&self) -> &'static str
        ensures { result.now ≡ input_text self.now }
    {
        match self {
            Input::Programs => "programs",
            Input::Schedule => "schedule",
            Input::Test => "litmus",
            Input::Trace => "trace",
            Input::Certificate => "certificate",
            Input::Names => "names",
        }
    }
}

impl Output {
    /// What it is called in a refusal.
    pub(crate) fn name(&self) -> &'static str
        ensures { result.now ≡ output_text self.now }
    {
        match self {
            Output::Standard => "output",
            Output::Picture => "picture",
            Output::Order => "order",
            Output::Refutation => "refutation",
            Output::Statistics => "statistics",
            Output::Events => "trace",
        }
    }
}
