//! A word of a trace in the short form.

ghost use Rattle.std.specs.Prelude.{◌≡◌, ◌<◌};
ghost use Rattle.look_traces.specs.Short as def;

use sts_text::{cut_at, numeral};

/// The most events that a trace in the short form may mean.
pub const MOST_EVENTS: u32 = 1_000_000;

/// What a word means.
#[derive(Clone, Copy, PartialEq, Eq)]
pub enum Part {
    /// Each task from the first to the last takes steps: the third number of them.
    Steps(u32, u32, u32),
    /// An interrupt of a task.
    Interrupt(u32),
    /// An expiry of a scope.
    Expire(u32),
}

/// The task after one more dot, or the first one if nothing follows.
fn last_of(first: u32, rest: &[u8]) -> Option<u32>
    ensures { result ≡ def.last_of first rest.now }
{
    match rest {
        [] => Some(first),
        [b'.', digits @ ..] => numeral(digits),
        _ => None,
    }
}

fn steps_of(tasks: &[u8], times: &[u8]) -> Option<Part>
    ensures { result ≡ def.steps_of tasks.now times.now }
{
    let (front, back) = cut_at(tasks, b'.');
    let first = numeral(front)?;
    let last = last_of(first, back)?;
    let times = numeral(times)?;
    Some(Part::Steps(first, last, times))
}

/// What a word means, if it is a word of the short form.
pub(crate) fn part_of(word: &[u8]) -> Option<Part>
    ensures { result ≡ def.part_of word.now }
{
    match word {
        [b'i', digits @ ..] => Some(Part::Interrupt(numeral(digits)?)),
        [b'x', digits @ ..] => Some(Part::Expire(numeral(digits)?)),
        _ => {
            let (tasks, times) = cut_at(word, b'*');
            steps_of(tasks, times)
        }
    }
}

impl Part {
    /// How many events it means.
    pub(crate) fn size(self) -> u64
        ensures { result ≡ def.size_of self }
    {
        match self {
            Part::Steps(first, last, times) => {
                (u64::from(last) + 1).saturating_sub(u64::from(first)) * u64::from(times)
            }
            Part::Interrupt(_) | Part::Expire(_) => 1,
        }
    }
}
