//! Commands as data, and how `clap` gets them.

ghost use Rattle.std.specs.Prelude.{◌≡◌, IfOk, false};
ghost use Rattle.clap.specs.Words.{App, app_of, rule_of, with_subcommand};
ghost use Rattle.clap.specs.declared.builder.Command.TheViews.{out-Command};
ghost use Rattle.sts_args.specs.Command as def;

use clap::{Arg, ArgAction, Command};
use std::alloc::{AllocError, Global};

/// What is written for an argument.
#[derive(Clone, Copy)]
pub enum ArgumentForm<'a> {
    /// A word, in its place among the words.
    Word,
    /// An option that takes no value.
    Flag,
    /// An option that takes as many values as there are names here, which help gives to them.
    Values(&'a [&'a str]),
}

/// An argument of a command.
#[derive(Clone, Copy)]
pub struct Argument<'a> {
    pub name: &'a str,
    pub form: ArgumentForm<'a>,
    pub required: bool,
    pub help: &'a str,
}

/// A command of a program, with its arguments in order.
#[derive(Clone, Copy)]
pub struct Subcommand<'a> {
    pub name: &'a str,
    pub about: &'a str,
    pub arguments: &'a [Argument<'a>],
}

/// The text that a command takes.
pub const FILE: Argument<'static> = Argument {
    name: "FILE",
    form: ArgumentForm::Word,
    required: true,
    help: "the text of a program",
};

/// The trace that a command has to be given.
pub const TRACE: Argument<'static> = Argument {
    name: "TRACE",
    form: ArgumentForm::Word,
    required: true,
    help: "a trace: lines `step N`, `interrupt N` and `expire N`",
};

/// An argument as `clap` gets it.
fn arg_of<'a>(alloc: Global, argument: Argument<'a>) -> Arg<'a>
    ensures rule { rule_of result ≡ def.argument_rule argument.entry }
    ensures local { result.global ≡ false }
{
    let name = argument.name;
    let arg = Arg::new(alloc, name)
        .help(argument.help)
        .required(argument.required);
    match argument.form {
        ArgumentForm::Word => arg,
        ArgumentForm::Flag => arg.long(name).action(ArgAction::SetTrue),
        ArgumentForm::Values(values) => arg.long(name).value_names(values),
    }
}

/// A command as `clap` gets it.
fn command_of<'a>(alloc: Global, subcommand: Subcommand<'a>) -> Result<Command<'a>, AllocError>
    ensures app { IfOk result (λ c. app_of c ≡ def.subcommand_app subcommand.entry) }
    ensures local { IfOk result (λ c. (out-Command c).has_globals ≡ false) }
{
    let mut command = Command::new(alloc, subcommand.name).about(subcommand.about);
    for argument in subcommand.arguments {
        command = command.arg(arg_of(alloc, *argument))?;
    }
    Ok(command)
}

/// A program with this command too.
fn with_subcommand<'a>(
    alloc: Global,
    program: Command<'a>,
    subcommand: Subcommand<'a>,
) -> Result<Command<'a>, AllocError>
    ensures { IfOk result (λ c. app_of c
        ≡ with_subcommand (app_of program.entry) (def.subcommand_app subcommand.entry).top) }
{
    let command = command_of(alloc, subcommand)?;
    program.subcommand(command)
}

/// A program with these commands too.
///
/// # Errors
///
/// Memory ran out.
pub fn with_subcommands<'a>(
    alloc: Global,
    program: Command<'a>,
    subcommands: &[Subcommand<'a>],
) -> Result<Command<'a>, AllocError>
    ensures { (a : App) → app_of program.entry ≡ a
        → IfOk result (λ c. app_of c ≡ def.with_subcommands a subcommands.now) }
{
    let mut program = program;
    for subcommand in subcommands {
        program = with_subcommand(alloc, program, *subcommand)?;
    }
    Ok(program)
}
