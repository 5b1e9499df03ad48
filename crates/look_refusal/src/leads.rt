//! For each place of a function, the places that lead on to it. One pass over the code finds them.

ghost use Rattle.std.specs.Prelude.{◌≡◌, ◌<◌, ◌+◌, ◌++◌, ◌∷◌, [], ℕ, length, get_or, slice_set};
ghost use Rattle.std.specs.Prelude.{IfOk, OnOk, replicate};
ghost use Rattle.sts_rules.specs.ControlPaths.{Among};
ghost use Rattle.look_refusal.specs.Leads as leads;
ghost use Rattle.look_refusal.specs.Search as def;

use crate::search::Search;
use std::alloc::{AllocError, Global};
use std::marker::Model;
use sts_budget::{next_places, turns_of};

/// Some places. Contracts see them as a list.
#[derive(Drop)]
pub(crate) struct Places {
    items: Vec<u32>,
}

impl Model for Places {
    ghost use Rattle.std.specs.Prelude.{ℕ, List};

    ghost Value = { List ℕ };

    ghost view = { λ p. p.items.items };
}

impl Places {
    fn new(alloc: Global) -> Places
        ensures { result ≡ [] }
    {
        Places {
            items: Vec::new(alloc),
        }
    }

    /// Adds a place.
    fn add(&mut self, place: u32) -> Result<(), AllocError>
        ensures { OnOk result (self.new ≡ self.old ++ place ∷ []) }
    {
        self.items.push(place)?;
        Ok(())
    }

    pub(crate) fn as_slice(&self) -> &[u32]
        ensures { result.now ≡ self.now }
    {
        self.items.as_slice()
    }
}

/// Makes an empty list for each of `count` places.
fn none(alloc: Global, count: usize) -> Result<Vec<Places>, AllocError>
    ensures { IfOk result (λ lists. lists.items ≡ replicate count []) }
{
    let mut lists = Vec::with_capacity(alloc, count)?;
    for _ in 0..count {
        lists.push(Places::new(alloc))?;
    }
    Ok(lists)
}

/// Notes at one place that another leads on to it.
fn note_at(lists: &mut Vec<Places>, from: u32, to: u32) -> Result<(), AllocError>
    requires { to < length lists.old.items }
    ensures { OnOk result (lists.new.items
        ≡ slice_set lists.old.items to (get_or lists.old.items to [] ++ from ∷ [])) }
{
    lists[to as usize].add(from)
}

/// Notes a place at each of these places, which it leads on to.
fn note_at_each(
    search: &Search<'_>,
    lists: &mut Vec<Places>,
    from: u32,
    places: &[u32],
) -> Result<(), AllocError>
    requires ready { def.IsReady search.now }
    requires leads { (to : ℕ) → Among places.now to → def.LeadsOn search.now from to }
    requires noted { leads.AreNoted search.now from [] lists.old.items }
    ensures { OnOk result (leads.AreNoted search.now from places.now lists.new.items) }
{
    for to in places {
        note_at(lists, from, *to)?;
    }
    Ok(())
}

/// Notes a place at those that it leads on to. A `times` leads on to none, since its `next` leads on
/// from the loop.
fn note(search: &Search<'_>, lists: &mut Vec<Places>, from: u32) -> Result<(), AllocError>
    requires ready { def.IsReady search.now }
    requires in_code { from < length search.now.code.now }
    requires noted { leads.AreNoted search.now from [] lists.old.items }
    ensures { OnOk result (leads.AreNoted search.now (from + 1) [] lists.new.items) }
{
    let instr = search.code[from as usize];
    if turns_of(instr) != 0 {
        return Ok(());
    }
    note_at_each(search, lists, from, next_places(instr, from).as_slice())
}

/// Finds for each place those that lead on to it.
///
/// # Errors
///
/// Memory ran out.
pub(crate) fn find_leads(alloc: Global, search: &Search<'_>) -> Result<Vec<Places>, AllocError>
    requires { def.IsReady search.now }
    ensures { IfOk result (λ lists. leads.AreAllLeads search.now lists.items) }
{
    let mut lists = none(alloc, search.code.len())?;
    for from in 0..search.code.len() as u32 {
        note(search, &mut lists, from)?;
    }
    Ok(lists)
}
