//! Which tasks and scopes a column can show, so that no column goes over all that were ever born.

ghost use Rattle.std.specs.Prelude.{◌≡◌, ◌++◌, ◌-◌, ◌≤◌, IfOk, OnOk, filter};
ghost use Rattle.std.specs.List.{range_with_len};
ghost use Rattle.sts_code.specs.declared.limits.TheConstants.{MAX_BIRTHS};
ghost use Rattle.sts_model.specs.World.{scope_at, task_at};
ghost use Rattle.sts_model.specs.Living.{lives};
ghost use Rattle.look_drawing.specs.Present as def;

use look_lines::Said;
use std::alloc::{AllocError, Global};
use std::marker::Model;
use sts_world::Records;

/// Birth numbers, in order: those of the tasks that live and of the scopes that aren't closed.
/// Those that were born since are added, until the next column.
#[derive(Drop)]
pub struct Present {
    tasks: Vec<u32>,
    scopes: Vec<u32>,
}

impl Model for Present {
    ghost use Rattle.look_drawing.specs.Present.{Numbers};

    ghost Value = { Numbers };

    ghost view = { λ p. record { tasks = p.tasks.items; scopes = p.scopes.items } };
}

/// Adds the birth numbers from one up to another.
fn add_births(births: &mut Vec<u32>, from: usize, to: usize) -> Said
    requires { to ≤ MAX_BIRTHS }
    ensures { OnOk result (births.new.items
        ≡ births.old.items ++ range_with_len from (to - from)) }
{
    for birth in from..to {
        births.push(birth as u32)?;
    }
    Ok(())
}

/// Keeps the tasks that live.
fn keep_living(tasks: &mut Vec<u32>, records: &Records)
    ensures { tasks.new.items
        ≡ filter (λ t. lives (task_at records.now t)) tasks.old.items }
{
    tasks.retain(|t| records.lives(*t));
}

fn is_open(records: &Records, s: u32) -> bool
    ensures { result ≡ def.is_open (scope_at records.now s) }
{
    !records.phase(s).is_closed()
}

/// Keeps the scopes that aren't closed.
fn keep_open(scopes: &mut Vec<u32>, records: &Records)
    ensures { scopes.new.items
        ≡ filter (λ s. def.is_open (scope_at records.now s)) scopes.old.items }
{
    scopes.retain(|s| is_open(records, *s));
}

impl Present {
    /// Those of a world.
    ///
    /// # Errors
    ///
    /// Memory ran out.
    pub fn of(alloc: Global, records: &Records) -> Result<Present, AllocError>
        ensures { IfOk result (λ p. p ≡ def.present records.now) }
    {
        let mut present = Present {
            tasks: Vec::new(alloc),
            scopes: Vec::new(alloc),
        };
        add_births(&mut present.tasks, 0, records.tasks_born())?;
        add_births(&mut present.scopes, 0, records.scopes_born())?;
        present.keep(records);
        Ok(present)
    }

    /// The tasks, by birth.
    pub fn tasks(&self) -> &[u32]
        ensures { result.now ≡ self.now.tasks }
    {
        self.tasks.as_slice()
    }

    /// The scopes, by birth.
    pub fn scopes(&self) -> &[u32]
        ensures { result.now ≡ self.now.scopes }
    {
        self.scopes.as_slice()
    }

    /// Adds those that were born since the column before.
    ///
    /// # Errors
    ///
    /// Memory ran out; some may have been added.
    pub fn add_born(&mut self, before: &Records, records: &Records) -> Said
        ensures { OnOk result (self.new ≡ def.with_born self.old before.now records.now) }
    {
        add_births(&mut self.tasks, before.tasks_born(), records.tasks_born())?;
        add_births(
            &mut self.scopes,
            before.scopes_born(),
            records.scopes_born(),
        )
    }

    /// Keeps the tasks that live and the scopes that aren't closed.
    pub fn keep(&mut self, records: &Records)
        ensures { self.new ≡ def.kept self.old records.now }
    {
        keep_living(&mut self.tasks, records);
        keep_open(&mut self.scopes, records);
    }
}
