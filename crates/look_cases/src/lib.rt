//! Answers to many cases. A case is a line of JSON with a text and a trace. Its answer is a line of
//! JSON with the verdict on the text and the end of its run.
#![tactic(auto)]

mod answering;
mod faults;
mod objects;
mod reading;
mod replies;
mod runs;
mod verdicts;

pub use answering::{answer, answer_faulty, answer_judged};
pub use faults::{text_fault, trace_fault};
pub use objects::{Made, Scalar, object_of, value_of, widened, with_list, with_member, with_text};
pub use reading::{Case, case_of};
pub use replies::{answers, write_answers};
pub use runs::{ended, outcome, running};
