//! The tests, and what they share.

mod books;
mod journals;
mod layouts;
mod meeting;
mod outsides;
mod paths;
mod questions;
mod records;
mod rows;
mod runs;
mod slices;
mod storms;
mod texts;
