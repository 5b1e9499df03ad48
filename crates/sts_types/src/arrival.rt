//! The typestates that have arrived at a place.

/// No state, one, or two that differ.
#[derive(Clone, Copy)]
pub(crate) enum Arrival<S> {
    Nothing,
    One(S),
    Several,
}
