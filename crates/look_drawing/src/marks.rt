//! The marks of a picture: how each one is drawn, and what it means.

ghost use Rattle.std.specs.Prelude.{◌≡◌};
ghost use Rattle.look_drawing.specs.Marks as def;

/// A mark.
#[derive(Clone, Copy)]
pub enum Mark {
    /// A task that can step.
    Ready,
    /// A task that waits at a `join` or a `close`.
    Waits,
    /// A step that counts.
    Step,
    /// A task was forked.
    Fork,
    /// A task ended as a success.
    Success,
    /// A task failed.
    Failed,
    /// A task's end that the joiner of its scope wasn't told of.
    Unheard,
    /// A task that was forked in a cancelled scope.
    NeverStarted,
    /// A task's interrupt flag was set.
    Interrupted,
    /// A scope that is not closed.
    Bracket,
    /// A scope that waits at its `close`.
    Closing,
    /// A scope's phase changed.
    Edge,
    /// A scope's time was up.
    Expired,
    /// A scope was cancelled by its joiner, by its expiry, or by a `close` that interrupts.
    Cancelled,
    /// A scope was cancelled by a `close` when no subtask lived.
    QuietCancel,
    /// A step that was a fault.
    Fault,
    /// An event that doesn't count.
    Idle,
}

/// How a mark is drawn, and what it means.
#[derive(Clone, Copy)]
struct Appearance {
    begins: &'static str,
    shape: &'static str,
    meaning: &'static str,
}

fn appearance_of(begins: &'static str, shape: &'static str, meaning: &'static str) -> Appearance
    ensures begins { result.begins.now ≡ begins.now }
    ensures shape { result.shape.now ≡ shape.now }
    ensures meaning { result.meaning.now ≡ meaning.now }
{
    Appearance {
        begins,
        shape,
        meaning,
    }
}

impl Mark {
    fn appearance(self) -> Appearance
        ensures begins { result.begins.now ≡ def.begins self }
        ensures shape { result.shape.now ≡ def.shape self }
        ensures meaning { result.meaning.now ≡ def.meaning self }
    {
        match self {
            Mark::Ready => appearance_of("<path class='ready'", "h24", "can take a step"),
            Mark::Waits => appearance_of("<path class='waits'", "h24", "waits in join or close"),
            Mark::Step => appearance_of(
                "<path class='step'",
                "m-4 0a4 4 0 1 0 8 0a4 4 0 1 0-8 0",
                "a step",
            ),
            Mark::Fork => appearance_of("<path class='fork'", "m12-8v16", "starts a subtask"),
            Mark::Success => appearance_of("<path class='success'", "m7 0l4 5l8-10", "succeeded"),
            Mark::Failed => appearance_of(
                "<path class='failed'",
                "m8-5l10 10m0-10l-10 10",
                "failed",
            ),
            Mark::Unheard => appearance_of(
                "<path class='unheard'",
                "m8 0a5 5 0 1 0 10 0a5 5 0 1 0-10 0",
                "ended after the cancel, not told",
            ),
            Mark::NeverStarted => appearance_of(
                "<path class='never-started'",
                "m8-5h10v10h-10z",
                "forked after the cancel, never runs",
            ),
            Mark::Interrupted => appearance_of(
                "<path class='interrupted'",
                "m2-8l-6 8h5l-3 7l8-9h-5l4-6z",
                "interrupted",
            ),
            Mark::Bracket => appearance_of("<path class='bracket'", "h24", "an open scope"),
            Mark::Closing => appearance_of(
                "<path class='closing'",
                "h24",
                "its close waits for subtasks",
            ),
            Mark::Edge => appearance_of("<path class='edge'", "m0-4v8", "opened, joined or closed"),
            Mark::Expired => appearance_of("<path class='expired'", "m4-4h7l-7 8h7z", "time is up"),
            Mark::Cancelled => appearance_of(
                "<path class='cancelled'",
                "m13 0a4 4 0 1 0 8 0a4 4 0 1 0-8 0m1.2 2.8l5.6-5.6",
                "cancelled",
            ),
            Mark::QuietCancel => appearance_of(
                "<path class='quiet'",
                "m13 0a3 3 0 1 0 6 0a3 3 0 1 0-6 0",
                "closed, with nothing to cancel",
            ),
            Mark::Fault => appearance_of(
                "<path class='fault'",
                "m14-9v10m0 4v3",
                "a forbidden step: the run stops",
            ),
            Mark::Idle => appearance_of(
                "<path class='idle'",
                "m-7 0h14",
                "the event changed nothing",
            ),
        }
    }

    /// The beginning of its element, with the class that the style knows it by.
    pub fn begins(self) -> &'static str
        ensures { result.now ≡ def.begins self }
    {
        self.appearance().begins
    }

    /// The shape of the mark from its point, as an SVG path.
    pub fn shape(self) -> &'static str
        ensures { result.now ≡ def.shape self }
    {
        self.appearance().shape
    }

    /// What it means, for the legend.
    pub fn meaning(self) -> &'static str
        ensures { result.now ≡ def.meaning self }
    {
        self.appearance().meaning
    }
}
