//! The request of a command line.

use look_options::{DrawOptions, EndsOptions, TellOptions, ViewOptions};

/// The seed of random schedules if no other one is asked for.
pub const FIRST_SEED: u32 = 1;

/// The first event that `tell` tells if the command line names no other one.
pub const FIRST_EVENT: u32 = 1;

/// The last event that `tell` may tell.
pub const LAST_EVENT: u32 = 4_294_967_295;

/// The end whose trace is kept, by its number, and the file that gets the trace.
#[derive(Clone, Copy)]
pub struct Kept<'a> {
    pub number: u32,
    pub file: &'a str,
}

/// Which ends are to be found, the one whose trace is kept, if one is named, and whether they are
/// printed as lines of JSON.
#[derive(Clone, Copy)]
pub struct AskedEnds<'a> {
    pub wanted: EndsOptions,
    pub kept: Option<Kept<'a>>,
    pub json: bool,
}

/// Which views, and whether they are lines of JSON.
#[derive(Clone, Copy)]
pub struct AskedView {
    pub wanted: ViewOptions,
    pub json: bool,
}

/// Which events a story tells, and whether it is lines of JSON.
#[derive(Clone, Copy)]
pub struct AskedTell {
    pub wanted: TellOptions,
    pub json: bool,
}

/// The form in which a text is explained.
#[derive(Clone, Copy)]
pub enum ExplainForm {
    Words,
    /// Lines that editors jump by.
    Places,
    Json,
}

/// The request. Names of files are kept as they were written.
#[derive(Clone, Copy)]
pub enum Asked<'a> {
    /// The tasks and scopes after a trace.
    View {
        file: &'a str,
        trace: &'a str,
        view: AskedView,
    },
    /// Says what is wrong with a text, if anything is. With a trace it says where the tasks are
    /// after the trace.
    Explain {
        file: &'a str,
        trace: Option<&'a str>,
        form: ExplainForm,
    },
    /// The answers to the cases of a file.
    Cases {
        file: &'a str,
    },
    /// A run as a picture.
    Draw {
        file: &'a str,
        trace: &'a str,
        draw: DrawOptions,
    },
    /// The story of a run.
    Tell {
        file: &'a str,
        trace: &'a str,
        tell: AskedTell,
    },
    /// Every end that a program can come to.
    Ends {
        file: &'a str,
        ends: AskedEnds<'a>,
    },
}
