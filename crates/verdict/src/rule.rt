//! The rules that a record may break.

use std::fmt;
use std::fmt::Display;

/// What a record breaks.
#[derive(Clone, Copy, Debug, PartialEq, Eq)]
pub enum Rule {
    /// `(ts, rank)` never falls along a core's log.
    CoreOrder,
    /// A core's records are the operations that its program issues.
    Program,
    /// A load names the last earlier store to its address by key, or none if there isn't any.
    Source,
    /// A load has that store's value, or 0 if there is none.
    Value,
}

impl Display for Rule {
    ghost use Rattle.std.specs.Prelude.{Some};
    ghost use Rattle.verdict.specs.Texts.{rule_text};

    ghost output = { λ rule. Some (rule_text rule) };

    fn fmt<W: fmt::Write>(&self, f: &mut fmt::Formatter<W>) -> fmt::Result {
        match self {
            Rule::CoreOrder => f.write_str("CORE-ORDER"),
            Rule::Program => f.write_str("PROGRAM"),
            Rule::Source => f.write_str("SOURCE"),
            Rule::Value => f.write_str("VALUE"),
        }
    }
}
