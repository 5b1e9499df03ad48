//! The modes: what the program can do with a text.

/// The modes for a text. `Plain` and `Replay` also read the trace.
#[derive(Clone, Copy)]
pub enum Mode {
    Verify,
    List,
    Plain,
    Replay,
}
