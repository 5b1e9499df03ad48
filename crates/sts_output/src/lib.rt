//! The output of the programs, and where their bytes come from. Here is all that needs no machine
//! that workers share.
#![tactic(auto)]

mod assembled;
mod file_error;
mod joined;
mod mode;
mod modes;
mod notes;
pub mod output;
mod placeholders;
pub mod printed;
mod process_words;
mod reasons;
mod refusal;
mod shown;
mod sinks;
mod sources;
mod stopped;
mod taking;
mod texts;
mod writing;

pub use assembled::Assembled;
pub use file_error::FileError;
pub use joined::split;
pub use mode::Mode;
pub use modes::{list, plain, verify};
pub use notes::{Events, Notes};
pub use output::{Output, state_status, text_fault, trace_fault};
pub use placeholders::placeholder;
pub use printed::{state_line, steps_line};
pub use process_words::{WordsError, words};
pub use reasons::{Named, outside_reason, text_reason, trace_reason};
pub use refusal::{Refusal, accepted, judge, verified_of};
pub use shown::{line_at, say_shown};
pub use sinks::{Sinks, made, spared};
pub use sources::{Host, Sources, file};
pub use stopped::{Stopped, events_of, program_of, write_shown};
pub use taking::{TakeError, bytes_of, take};
pub use texts::{
    MOST_OF_A_STREAM, MOST_OF_A_TEXT, NOT_TEXT, Texts, borrowed, read_input, read_text, read_texts,
};
pub use writing::{STATUS_OUTSIDE, Status, WriteFailed, failed, file_failed, written};
