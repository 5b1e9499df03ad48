//! The commands that the program knows, as `clap` gets them.

ghost use Rattle.std.specs.Prelude.{◌≡◌, IfOk};
ghost use Rattle.clap.specs.Words.{app_of};
ghost use Rattle.look_args.specs.Command as def;

use clap::Command;
use std::alloc::{AllocError, Global};
use sts_args::command::ArgumentForm::{Flag, Values, Word};
use sts_args::command::{Argument, FILE, Subcommand, TRACE, with_subcommands};

/// What `--version` prints after the name of the program.
const VERSION: &str = "1.0.0\n\
    proved with rattle-kit-13f logic dac8208d650f15bf\n\
    differences from JDK 25: docs/JDK.md";

/// An argument that may be left out: its name, what is written for it, and its help.
macro_rules! optional {
    ($name:literal, $form:expr, $help:literal) => {
        Argument {
            name: $name,
            form: $form,
            required: false,
            help: $help,
        }
    };
}

/// The commands, in the order in which help lists them.
const SUBCOMMANDS: &[Subcommand<'static>] = &[
    Subcommand {
        name: "view",
        about: "Prints the state of every task and scope after a trace, or just before a fault",
        arguments: &[
            FILE,
            TRACE,
            optional!(
                "each",
                Flag,
                "also before the first event and after each one"
            ),
            optional!(
                "full",
                Flag,
                "also the operands, locals and bindings of living tasks, and the ends that joiners got"
            ),
            optional!(
                "living",
                Flag,
                "only the tasks that live and the open scopes, and how many others there are"
            ),
            optional!("json", Flag, "as lines of JSON, one for each view"),
        ],
    },
    Subcommand {
        name: "explain",
        about: "Says what is wrong with a text, with line numbers; with a trace, where each task is",
        arguments: &[
            FILE,
            optional!("TRACE", Word, "a trace to run first"),
            optional!(
                "lines",
                Flag,
                "as lines FILE:LINE:COLUMN: WORDS, which editors jump by; without a trace"
            ),
            optional!("json", Flag, "as lines of JSON; without a trace"),
        ],
    },
    Subcommand {
        name: "draw",
        about: "Prints the run of a trace as an SVG picture, a lane for each task, a column for each event",
        arguments: &[
            FILE,
            TRACE,
            optional!(
                "events",
                Values(&["A..B"]),
                "draws the events from line A to line B of the trace (the last 2000)"
            ),
            optional!(
                "brief",
                Flag,
                "a column only for each event that `tell` lists"
            ),
        ],
    },
    Subcommand {
        name: "tell",
        about: "Tells the run of a trace: a line for each event, with the line of the text and what it did",
        arguments: &[
            FILE,
            TRACE,
            optional!("FROM", Word, "the first event that is told (1)"),
            optional!(
                "TO",
                Word,
                "the last event that is told; the run ends there"
            ),
            optional!("each", Flag, "also the steps that no other task can notice"),
            optional!(
                "strict",
                Flag,
                "stops at the first event that does nothing, with status 5, and ends with the end of each task"
            ),
            optional!("json", Flag, "as lines of JSON, one for each line"),
        ],
    },
    Subcommand {
        name: "ends",
        about: "Finds every end that a program can come to, over all schedules, with a trace for each",
        arguments: &[
            FILE,
            optional!(
                "no-expiries",
                Flag,
                "no scope expires; else a scope with a timeout may expire at any time"
            ),
            optional!(
                "interrupts",
                Values(&["N"]),
                "up to N interrupts from outside, of any living task (0)"
            ),
            optional!(
                "most",
                Values(&["N"]),
                "stops when it has N states (1000000, or fewer if a search by calls has the ends)"
            ),
            optional!(
                "seconds",
                Values(&["N"]),
                "stops after N seconds, and keeps what it found"
            ),
            optional!(
                "calls",
                Flag,
                "what each call can come to, heard by its joiner or not"
            ),
            optional!(
                "sample",
                Values(&["N"]),
                "tries N random schedules, not all"
            ),
            optional!(
                "seed",
                Values(&["S"]),
                "a number that fixes the random schedules (1)"
            ),
            optional!(
                "trace",
                Values(&["K", "TRACE"]),
                "writes the trace of the end with number K to the file TRACE; `-` is standard output"
            ),
            optional!(
                "json",
                Flag,
                "as lines of JSON, one for each end and one more"
            ),
        ],
    },
    Subcommand {
        name: "cases",
        about: "Answers many cases: for each line of JSON with a text and a trace, a line of JSON",
        arguments: &[Argument {
            name: "FILE",
            form: Word,
            required: true,
            help: "cases, each a line of JSON with a text and maybe a trace",
        }],
    },
];

/// The whole program.
///
/// # Errors
///
/// Memory ran out.
pub fn program<'a>(alloc: Global) -> Result<Command<'a>, AllocError>
    ensures { IfOk result (λ c. app_of c ≡ def.program) }
{
    let bare = Command::new(alloc, "look")
        .about("Shows runs of structured task scopes, and every end of a program")
        .version(VERSION)
        .subcommand_required(true);
    with_subcommands(alloc, bare, SUBCOMMANDS)
}
