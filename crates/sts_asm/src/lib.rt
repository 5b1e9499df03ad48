//! Programs as text: the assembler and the listing.
#![tactic(auto)]

mod fault;
mod kept;
mod laws;
mod line;
mod marks;
mod mnemonic;
mod operand;
mod outline;
mod plain;
mod reading;
mod resolving;
mod source;
mod text;

pub use fault::{AsmError, AsmKind};
pub use laws::instructions_are_read_by_the_table;
pub use mnemonic::{Mnemonic, first_word};
pub use operand::{handle, kind_counted, one_word_joiner, slot};
pub use outline::{Outline, Sentence, is_allowed, label_of};
pub use reading::{Source, read};
pub use source::{line_at, outlined, words_at};
pub use text::assemble;
