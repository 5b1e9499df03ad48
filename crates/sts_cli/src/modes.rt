//! The output of the modes that run the fast machine, one file a mode.

pub mod replay;
pub(crate) mod run;
