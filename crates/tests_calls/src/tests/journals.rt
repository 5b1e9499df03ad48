//! Journals whose entries say how often an event comes in a row.

use std::alloc::Global;
use std::process::Abort;
use sts_model::Event;

/// Returns the events of a journal, one by one.
pub fn one_by_one<R: Abort>(rt: &R, alloc: Global, journal: &[(Event, u32)]) -> Vec<Event> {
    let mut events = Vec::new(alloc);
    for (event, times) in journal {
        for _ in 0..*times {
            events.push(*event).expect(rt, "events");
        }
    }
    events
}
