//! A search over all states of a program, which goes on as far as it is asked to.

ghost use Rattle.std.specs.Prelude.{◌≡◌, true, IfOk};
ghost use Rattle.ends_plain.specs.Ends.{AreAll};
ghost use Rattle.ends_plain.specs.Listed.{ends_of, AreEnds};
ghost use Rattle.ends_search.specs.Search.{IsSpace};
ghost use Rattle.ends_plain.specs.Configs.{next_kept, tries, is_last, IsLike};

use crate::config::{Asked, Config, EndsFound, Setting};
use crate::ends::{has_fault, is_fault, list, shown_at};
use crate::reading::reads_nothing;
use ends_search::search::{Space, advance, begin};
use std::alloc::{AllocError, Global};
use std::marker::Model;

/// This number of own steps at most follow an event at once.
const OWN_STEPS: u32 = 100;

/// A search so far. Contracts see its input.
#[derive(Drop)]
pub struct Exploration {
    asked: Asked,
    space: Space<Config>,
}

impl Model for Exploration {
    ghost use Rattle.ends_plain.specs.declared.config.Setting.{Setting};

    ghost Value = { Setting };

    ghost view = { λ x. x.asked.setting };

    ghost use Rattle.ends_plain.specs.Explored.{IsExplored};

    ghost invariant = { λ x.
        IsExplored x.asked x.space.first x.space.origins.items x.space.closed
        x.space.kept.items x.space.marks.items };
}

/// Does one of the states show a fault?
fn finds_fault(alloc: Global, asked: &Asked, space: &Space<Config>) -> Result<bool, AllocError>
    requires { IsSpace (next_kept asked.now) (tries asked.now.setting) (IsLike asked.now)
        is_last space.now.first space.now.origins.items space.now.closed space.now.kept.items
        space.now.marks.items }
{
    for k in 0..space.origins.len() {
        if space.origins[k].is_last && is_fault(shown_at(alloc, asked, space, k)?) {
            return Ok(true);
        }
    }
    Ok(false)
}

/// Has a search to begin again as an exact one? It has if it is over and has found a fault.
fn begins_again(alloc: Global, asked: &Asked, space: &Space<Config>) -> Result<bool, AllocError>
    requires { IsSpace (next_kept asked.now) (tries asked.now.setting) (IsLike asked.now)
        is_last space.now.first space.now.origins.items space.now.closed space.now.kept.items
        space.now.marks.items }
{
    if asked.exact || space.closed < space.origins.len() {
        return Ok(false);
    }
    finds_fault(alloc, asked, space)
}

/// The search after `count` more states were expanded, or fewer if it is over. Has it to begin again
/// as an exact one?
fn advanced(
    alloc: Global,
    asked: &Asked,
    space: Space<Config>,
    count: usize,
) -> Result<(Space<Config>, bool), AllocError>
    requires { IsSpace (next_kept asked.now) (tries asked.now.setting) (IsLike asked.now)
        is_last space.first space.origins.items space.closed space.kept.items
        space.marks.items }
    ensures first { IfOk result (λ r. r.0.first ≡ space.first) }
    ensures space { IfOk result (λ r. IsSpace (next_kept asked.now) (tries asked.now.setting)
        (IsLike asked.now) is_last r.0.first r.0.origins.items r.0.closed r.0.kept.items
        r.0.marks.items) }
{
    let space = advance(alloc, asked, space, count)?;
    let again = begins_again(alloc, asked, &space)?;
    Ok((space, again))
}

/// The same, but exact.
fn exactly(asked: Asked) -> Asked
    ensures { result.setting ≡ asked.setting }
{
    let mut exact = asked;
    exact.exact = true;
    exact
}

/// A search from the start.
fn begun(alloc: Global, asked: Asked, most: usize) -> Result<Exploration, AllocError>
    ensures { IfOk result (λ x. x ≡ asked.setting) }
{
    let first = Config::start(alloc, &asked.setting)?;
    let space = begin(alloc, &asked, first, most)?;
    Ok(Exploration { asked, space })
}

impl Exploration {
    /// A search that has found the first state. It keeps at most `most` states, and at least one.
    ///
    /// # Errors
    ///
    /// There is no memory.
    pub fn begin(alloc: Global, setting: Setting, most: usize) -> Result<Exploration, AllocError>
        ensures { IfOk result (λ x. x ≡ setting) }
    {
        let exact = !reads_nothing(&setting.program);
        let asked = Asked {
            setting,
            exact,
            own_steps: OWN_STEPS,
        };
        begun(alloc, asked, most)
    }

    /// The search after `count` more states were expanded, or fewer if it is over. A search that is
    /// not exact begins again as an exact one, once it is over and has found a fault.
    ///
    /// # Errors
    ///
    /// Memory ran out. The states found so far are given back to the allocator.
    pub fn advance(self, alloc: Global, count: usize) -> Result<Exploration, AllocError>
        ensures { IfOk result (λ x. x ≡ self) }
    {
        let asked = self.asked;
        let (space, again) = advanced(alloc, &asked, self.space, count)?;
        if again {
            begun(alloc, exactly(asked), space.most)
        } else {
            Ok(Exploration { asked, space })
        }
    }

    /// The input of the search.
    pub fn setting(&self) -> &Setting
        ensures { result.now ≡ self.now }
    {
        &self.asked.setting
    }

    /// How many states were found so far.
    pub fn states(&self) -> usize {
        self.space.origins.len()
    }

    /// Is no state left to expand, or no room for a further state?
    pub fn is_over(&self) -> bool {
        self.space.is_full || self.space.closed >= self.space.origins.len()
    }

    /// The ends that were found so far; if the answer's `whole` is true, each end that any list of
    /// allowed events leads to is among them.
    ///
    /// # Errors
    ///
    /// There is no memory.
    pub fn ends(&self, alloc: Global) -> Result<EndsFound, AllocError>
        ensures sound { IfOk result (λ r. AreEnds self.now r.found.items) }
        ensures complete { IfOk result (λ r. r.whole ≡ true →
            AreAll self.now.program self.now.expiries self.now.interrupts
            (ends_of r.found.items)) }
    {
        let found = list(alloc, &self.asked, &self.space)?;
        let is_closed = self.space.closed == self.space.origins.len();
        let whole = is_closed && (self.asked.exact || !has_fault(found.as_slice()));
        Ok(EndsFound {
            found,
            states: self.space.origins.len(),
            whole,
        })
    }
}
