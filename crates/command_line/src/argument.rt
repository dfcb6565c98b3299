//! Arguments of subcommands.

ghost use Rattle.std.specs.Prelude.{◌≡◌, IfOk, map, true};
ghost use Rattle.clap.specs.Words.{app_of, rule_of as rule_made, with_rule};
ghost use Rattle.command_line.specs.Grammar as grammar;
ghost use Rattle.command_line.specs.inner.Arguments.{rule_of, with_rules};

use clap::{Arg, ArgAction, Command, value_parser};
use std::alloc::{AllocError, Global};

/// An argument of a subcommand: its name, and what the help says of it.
#[derive(Clone, Copy)]
pub(crate) enum Argument<'a> {
    /// An option that takes a number.
    Number(&'a str, &'a str),
    /// An option that takes the name of a file.
    File(&'a str, &'a str),
    /// An option that takes nothing.
    Flag(&'a str, &'a str),
    /// A name that has to be there, at its place.
    Name(&'a str, &'a str),
    /// Names of files, one or more, from their place on; of these the help alone.
    Files(&'a str),
}

/// An option that takes a number, as `clap` has it.
fn number_made<'a>(alloc: Global, name: &'a str, help: &'a str) -> Arg<'a>
    ensures { rule_made result ≡ grammar.number_option name.entry.now }
{
    Arg::new(alloc, name)
        .long(name)
        .value_name("N")
        .value_parser(value_parser!(u64))
        .action(ArgAction::Set)
        .help(help)
}

/// An option that takes the name of a file, as `clap` has it.
fn file_made<'a>(alloc: Global, name: &'a str, help: &'a str) -> Arg<'a>
    ensures { rule_made result ≡ grammar.file_option name.entry.now }
{
    Arg::new(alloc, name)
        .long(name)
        .value_name("F")
        .action(ArgAction::Set)
        .help(help)
}

/// An option that takes nothing, as `clap` has it.
fn flag_made<'a>(alloc: Global, name: &'a str, help: &'a str) -> Arg<'a>
    ensures { rule_made result ≡ grammar.flag name.entry.now }
{
    Arg::new(alloc, name)
        .long(name)
        .action(ArgAction::SetTrue)
        .help(help)
}

/// A name that has to be there, as `clap` has it.
fn name_made<'a>(alloc: Global, name: &'a str, help: &'a str) -> Arg<'a>
    ensures { rule_made result ≡ grammar.name name.entry.now }
{
    Arg::new(alloc, name)
        .required(true)
        .action(ArgAction::Set)
        .help(help)
}

/// The files, as `clap` has them.
fn files_made<'a>(alloc: Global, help: &'a str) -> Arg<'a>
    ensures { rule_made result ≡ grammar.files }
{
    Arg::new(alloc, "FILE")
        .required(true)
        .num_args(1..)
        .action(ArgAction::Append)
        .help(help)
}

/// An argument as `clap` has it.
fn clap_argument<'a>(alloc: Global, argument: &Argument<'a>) -> Arg<'a>
    ensures { rule_made result ≡ rule_of argument.now }
{
    match argument {
        Argument::Number(name, help) => number_made(alloc, name, help),
        Argument::File(name, help) => file_made(alloc, name, help),
        Argument::Flag(name, help) => flag_made(alloc, name, help),
        Argument::Name(name, help) => name_made(alloc, name, help),
        Argument::Files(help) => files_made(alloc, help),
    }
}

/// A command with one more argument, which its subcommands don't take over.
fn with_argument<'a>(command: Command<'a>, argument: Arg<'a>) -> Result<Command<'a>, AllocError>
    requires { (rule_made argument).is_simple ≡ true }
    ensures { IfOk result (λ made. app_of made
        ≡ with_rule (app_of command.entry) (rule_made argument.entry)) }
{
    command.arg(argument)
}

/// A command with more arguments, in their order.
pub(crate) fn with_arguments<'a>(
    alloc: Global,
    command: Command<'a>,
    arguments: &[Argument<'a>],
) -> Result<Command<'a>, AllocError>
    ensures { IfOk result (λ made. app_of made
        ≡ with_rules (app_of command.entry) (map rule_of arguments.now)) }
{
    let mut made = command;
    for argument in arguments {
        made = with_argument(made, clap_argument(alloc, argument))?;
    }
    Ok(made)
}
