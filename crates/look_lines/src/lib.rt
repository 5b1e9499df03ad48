//! What is shown of a text's run of a trace, in any form, and its tasks and scopes in lines.
#![tactic(auto)]

mod form;
mod naming;
mod of_text;
mod others;
mod scopes;
mod tasks;
mod view;
mod views;
mod watch;

pub use form::{Form, Run};
pub use naming::{Naming, Plain, Said};
pub use of_text::{shown, write_run};
pub use others::{closed, resting};
pub use scopes::{phase_word, scope_place};
pub use tasks::{is_heard, stand_words, under_words};
pub use view::{event_words, lines_output, view_lines};
pub use views::{View, after, view_output};
pub use watch::{Applied, Watch};
