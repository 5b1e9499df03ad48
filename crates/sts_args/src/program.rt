//! The commands that the program `sts` knows.

ghost use Rattle.std.specs.Prelude.{◌≡◌, IfOk};
ghost use Rattle.clap.specs.Words.{app_of};
ghost use Rattle.sts_args.specs.Command as def;

use crate::command::{Argument, ArgumentForm, FILE, Subcommand, TRACE, with_subcommands};
use clap::Command;
use std::alloc::{AllocError, Global};

/// The commands, in the order in which help lists them.
const SUBCOMMANDS: &[Subcommand<'static>] = &[
    Subcommand {
        name: "verify",
        about: "Checks that no run can fault; prints budgets, or the refused instruction",
        arguments: &[FILE],
    },
    Subcommand {
        name: "list",
        about: "Prints the program as the assembler understands it",
        arguments: &[FILE],
    },
    Subcommand {
        name: "plain",
        about: "Runs a trace and checks every instruction; prints the result and the steps",
        arguments: &[FILE, TRACE],
    },
    Subcommand {
        name: "replay",
        about: "Verifies, then runs a trace without checks; prints the same, or the refusal",
        arguments: &[FILE, TRACE],
    },
    Subcommand {
        name: "run",
        about: "Verifies, then runs with N threads; prints the budgets and the result",
        arguments: &[
            FILE,
            Argument {
                name: "workers",
                form: ArgumentForm::Values(&["N"]),
                required: true,
                help: "the number of threads, from 1 to 16",
            },
            Argument {
                name: "outside",
                form: ArgumentForm::Values(&["FILE"]),
                required: false,
                help: "outside events: lines `at N interrupt T` and `at N expire S`",
            },
            Argument {
                name: "trace",
                form: ArgumentForm::Values(&["FILE"]),
                required: false,
                help: "where the journal is written, as a trace",
            },
        ],
    },
];

/// The whole program.
///
/// # Errors
///
/// Memory ran out.
pub fn program<'a>(alloc: Global) -> Result<Command<'a>, AllocError>
    ensures { IfOk result (λ c. app_of c ≡ def.program) }
{
    let bare = Command::new(alloc, "sts")
        .about("Structured task scopes over a small stack code")
        .after_help(
            "With no command it reads a text, a line `%` and a trace from standard input, \
             and does what `plain` does.",
        )
        .subcommand_required(true);
    with_subcommands(alloc, bare, SUBCOMMANDS)
}
