//! The program's command line.

ghost use Rattle.std.specs.Prelude.{◌≡◌, IfOk, false, true};
ghost use Rattle.clap.specs.Words.{app_of, new_app, with_subcommand};
ghost use Rattle.clap.specs.declared.builder.command.Command.TheViews.{out-Command as fields_of};
ghost use Rattle.command_line.specs.Grammar as grammar;
ghost use Rattle.command_line.specs.inner.Arguments.{app_with, with_subcommands};

use super::argument::with_arguments;
use super::subcommand::{SUBCOMMANDS, Subcommand};
use clap::Command;
use std::alloc::{AllocError, Global};

/// The program's command line.
pub(crate) fn tardis<'a>(alloc: Global) -> Result<Command<'a>, AllocError>
    ensures app { IfOk result (λ command. app_of command ≡ grammar.tardis) }
    ensures local { IfOk result (λ command. (fields_of command).has_globals ≡ false) }
{
    let command = named(
        alloc,
        "tardis",
        "Judges the logs of a multiprocessor for sequential consistency, and runs one",
        "Example: tardis check log.0 log.1\n\n'tardis --version' tells the version, and with what it was proved",
    )
    .subcommand_required(true);
    with_subcommands(alloc, command, &SUBCOMMANDS)
}

/// A command line with more subcommands, in their order.
fn with_subcommands<'a>(
    alloc: Global,
    command: Command<'a>,
    subcommands: &[Subcommand<'a>],
) -> Result<Command<'a>, AllocError>
    ensures { IfOk result (λ made. app_of made
        ≡ with_subcommands (app_of command.entry) subcommands.now) }
{
    let mut made = command;
    for subcommand in subcommands {
        made = with_command(made, clap_command(alloc, subcommand)?)?;
    }
    Ok(made)
}

/// A command line with one more subcommand, which takes nothing over from it.
fn with_command<'a>(
    command: Command<'a>,
    subcommand: Command<'a>,
) -> Result<Command<'a>, AllocError>
    requires { (app_of subcommand).top.is_plain ≡ true }
    ensures { IfOk result (λ made. app_of made
        ≡ with_subcommand (app_of command.entry) (app_of subcommand.entry).top) }
{
    command.subcommand(subcommand)
}

/// A subcommand as `clap` has it.
fn clap_command<'a>(alloc: Global, subcommand: &Subcommand<'a>) -> Result<Command<'a>, AllocError>
    ensures app { IfOk result (λ made. app_of made ≡ app_with subcommand.now) }
    ensures plain { IfOk result (λ made. (app_of made).top.is_plain ≡ true) }
{
    let command = named(alloc, subcommand.name, subcommand.about, subcommand.example);
    let command = with_arguments(alloc, command, subcommand.limits)?;
    with_arguments(alloc, command, subcommand.arguments)
}

/// A command of this name, without arguments, and what its help tells of it.
fn named<'a>(alloc: Global, name: &'a str, about: &'a str, example: &'a str) -> Command<'a>
    ensures { app_of result ≡ new_app name.entry.now }
{
    Command::new(alloc, name).about(about).after_help(example)
}
