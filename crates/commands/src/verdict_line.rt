//! The line of a verdict, made without memory.

ghost use Rattle.std.specs.Prelude.{◌≡◌, ◌≤◌, length};
ghost use Rattle.log_file.specs.Sinks.{line};
ghost use Rattle.verdict.specs.Texts.{rule_text, verdict_text};

use arrayvec::ArrayString;
use itoa::Buffer;
use verdict::{Rule, Verdict};

/// The name of a rule.
fn rule_name(rule: Rule) -> &'static str
    ensures text { result.now ≡ rule_text rule }
    ensures short { length result.now ≤ 10 }
{
    match rule {
        Rule::CoreOrder => "CORE-ORDER",
        Rule::Program => "PROGRAM",
        Rule::Source => "SOURCE",
        Rule::Value => "VALUE",
    }
}

/// The line of a verdict, of at most 37 bytes.
pub(crate) fn verdict_line(verdict: &Verdict) -> ArrayString<37>
    ensures { result.bytes ≡ line (verdict_text verdict.now) }
{
    let mut line = ArrayString::new();
    match verdict {
        Verdict::Yes(count) => {
            line.push_str("yes: ");
            line.push_str(Buffer::new().format(*count as u64));
            line.push_str(" operations\n");
        }
        Verdict::No(fault) => {
            line.push_str("no: ");
            line.push_str(Buffer::new().format(fault.id.core.get() as u8));
            line.push_str(".");
            line.push_str(Buffer::new().format(fault.id.index.get() as u32));
            line.push_str(" ");
            line.push_str(rule_name(fault.rule));
            line.push_str("\n");
        }
    }
    line
}
