//! The words for what a step did, seen from the story after it.

ghost use Rattle.std.specs.Prelude.{◌≡◌, ◌++◌, OnOk};
ghost use Rattle.std.specs.List.{list_any};
ghost use Rattle.sts_model.specs.Joining as joining;
ghost use Rattle.sts_model.specs.World as model;
ghost use Rattle.sts_model.specs.declared.record.Completion.{Completion as AnyCompletion};
ghost use Rattle.look_tell.specs.Outcome as def;

use crate::deed::Deed;
use crate::words::{Told, say_if, say_numbered, say_shown};
use look_names::{Said, say_place};
use look_run::say_end;
use look_text::say;
use std::alloc::Global;
use sts_code::Joiner;
use sts_model::{Completion, End, Phase};
use sts_output::printed::fault_word;

fn any_failure(ends: &[Completion]) -> bool
    ensures { result ≡ list_any (λ (c : AnyCompletion). joining.is_failure c.end) ends.now }
{
    ends.iter().any(|c| matches!(c.end, End::Failed(_)))
}

fn any_success(ends: &[Completion]) -> bool
    ensures { result ≡ list_any (λ (c : AnyCompletion). joining.is_success c.end) ends.now }
{
    ends.iter().any(|c| matches!(c.end, End::Success(_)))
}

/// Is the outcome of a `join` failed, by the joiner and the ends that it got?
fn has_failed(joiner: Joiner, ends: &[Completion]) -> bool
    ensures { result ≡ def.has_failed joiner ends.now }
{
    match joiner {
        Joiner::AllSucceed | Joiner::AwaitOk => any_failure(ends),
        Joiner::AnySucceeds => !any_success(ends),
        Joiner::AwaitAll | Joiner::Until(_) => false,
    }
}

/// Does the outcome ok push a value?
fn gives_value(joiner: Joiner) -> bool
    ensures { result ≡ def.gives_value joiner }
{
    match joiner {
        Joiner::AllSucceed | Joiner::AnySucceeds | Joiner::Until(_) => true,
        Joiner::AwaitOk | Joiner::AwaitAll => false,
    }
}

fn is_attempted(phase: Phase) -> bool
    ensures { result ≡ def.is_attempted phase }
{
    matches!(phase, Phase::Attempted)
}

impl Told<'_, '_, '_, '_> {
    /// The topmost operand of a living task.
    #[tactic(auto, unfolding(crate::specs::Outcome::top_words))]
    fn say_top(self, alloc: Global, out: &mut Vec<u8>, t: u32) -> Said
        ensures { OnOk result (out.new.items ≡ out.old.items
            ++ def.top_words self.entry.names.now self.entry.story.now t) }
    {
        let records = self.story.records();
        if !records.lives(t) {
            return Ok(());
        }
        let value = records.frame(t).operand(0);
        say(out, " ")?;
        say_shown(alloc, out, self.names, value)
    }

    /// The line that a task goes on at.
    #[tactic(auto, unfolding(crate::specs::Outcome::goes_words))]
    fn say_goes(self, alloc: Global, out: &mut Vec<u8>, t: u32) -> Said
        ensures { OnOk result (out.new.items ≡ out.old.items
            ++ def.goes_words self.entry.names.now self.entry.story.now t) }
    {
        let story = self.story;
        say(out, ", goes on at ")?;
        say_place(alloc, out, self.names, story.function_of(t), story.pc_of(t))
    }

    fn say_forks(self, alloc: Global, out: &mut Vec<u8>, t: u32) -> Said
        ensures { OnOk result (out.new.items ≡ out.old.items
            ++ def.forks_words self.entry.names.now self.entry.story.now t) }
    {
        let never = !self.story.records().has_started(t);
        say(out, ", forks ")?;
        self.say_task(alloc, out, t)?;
        say_if(out, never, ", which never starts: its scope was cancelled")
    }

    fn say_failed(self, alloc: Global, out: &mut Vec<u8>, t: u32) -> Said
        ensures { OnOk result (out.new.items ≡ out.old.items
            ++ def.failed_words self.entry.names.now self.entry.story.now t) }
    {
        say(out, ", failed")?;
        self.say_top(alloc, out, t)?;
        self.say_goes(alloc, out, t)
    }

    fn say_ok(self, alloc: Global, out: &mut Vec<u8>, t: u32, joiner: Joiner) -> Said
        ensures { OnOk result (out.new.items ≡ out.old.items
            ++ def.ok_words self.entry.names.now self.entry.story.now t joiner) }
    {
        say(out, ", ok")?;
        if gives_value(joiner) {
            self.say_top(alloc, out, t)
        } else {
            Ok(())
        }
    }

    /// A timeout, or by the joiner failed or ok.
    fn say_joined(self, alloc: Global, out: &mut Vec<u8>, t: u32, s: u32) -> Said
        ensures { OnOk result (out.new.items ≡ out.old.items
            ++ def.joined_words self.entry.names.now self.entry.story.now t
            (model.scope_at self.entry.story.now.watched.last s)) }
    {
        let records = self.story.records();
        if records.is_expired(s) {
            say(out, ", timed out")?;
            return self.say_goes(alloc, out, t);
        }
        let joiner = records.joiner(s);
        if has_failed(joiner, records.completions(s)) {
            self.say_failed(alloc, out, t)
        } else {
            self.say_ok(alloc, out, t, joiner)
        }
    }

    /// The outcome of a `join`.
    fn say_joins(self, alloc: Global, out: &mut Vec<u8>, t: u32, s: u32) -> Said
        ensures { OnOk result (out.new.items ≡ out.old.items
            ++ def.joins_words self.entry.names.now self.entry.story.now t s) }
    {
        if is_attempted(self.story.records().phase(s)) {
            say(out, ", interrupted")?;
            self.say_goes(alloc, out, t)
        } else {
            self.say_joined(alloc, out, t, s)
        }
    }

    /// Appends the living subtasks of a scope, which a cancel interrupts.
    pub(crate) fn say_interrupts(self, alloc: Global, out: &mut Vec<u8>, s: u32) -> Said
        ensures { OnOk result (out.new.items ≡ out.old.items
            ++ def.interrupts_words self.entry.names.now self.entry.story.now s) }
    {
        self.say_living(alloc, out, "; interrupts ", s)
    }

    /// Says that something cancels the scope, if it does.
    #[tactic(auto, unfolding(crate::specs::Outcome::cancels_words))]
    fn say_cancels(self, alloc: Global, out: &mut Vec<u8>, s: u32, cancels: bool) -> Said
        ensures { OnOk result (out.new.items ≡ out.old.items
            ++ def.cancels_words self.entry.names.now self.entry.story.now s cancels) }
    {
        if !cancels {
            return Ok(());
        }
        say(out, " and cancels it")?;
        self.say_interrupts(alloc, out, s)
    }

    fn say_closing(self, alloc: Global, out: &mut Vec<u8>, s: u32, cancels: bool) -> Said
        ensures { OnOk result (out.new.items ≡ out.old.items
            ++ def.closing_words self.entry.names.now self.entry.story.now s cancels) }
    {
        say_numbered(alloc, out, ", begins to close scope ", s)?;
        self.say_cancels(alloc, out, s, cancels)
    }

    /// Says that the joiner is told, and whether it asks for a cancel then.
    fn say_hearing(self, alloc: Global, out: &mut Vec<u8>, s: u32) -> Said
        ensures { OnOk result (out.new.items ≡ out.old.items
            ++ def.hearing_words self.entry.names.now self.entry.story.now s) }
    {
        say(out, " is told")?;
        self.say_cancels(alloc, out, s, self.story.records().is_cancelled(s))
    }

    /// Whether the joiner of this scope is told of the end of a task.
    #[tactic(auto, unfolding(crate::specs::Outcome::told_words))]
    fn say_told(self, alloc: Global, out: &mut Vec<u8>, t: u32, s: u32) -> Said
        ensures { OnOk result (out.new.items ≡ out.old.items
            ++ def.told_words self.entry.names.now self.entry.story.now t s) }
    {
        if self.story.world().sub_state(t).is_some() {
            self.say_hearing(alloc, out, s)
        } else {
            say(out, " isn't told: the scope was cancelled")
        }
    }

    fn say_heard(self, alloc: Global, out: &mut Vec<u8>, t: u32, scope: Option<u32>) -> Said
        ensures { OnOk result (out.new.items ≡ out.old.items
            ++ def.heard_words self.entry.names.now self.entry.story.now t scope) }
    {
        let Some(s) = scope else {
            return Ok(());
        };
        say_numbered(alloc, out, "; the joiner of scope ", s)?;
        self.say_told(alloc, out, t, s)
    }

    fn say_ends(self, alloc: Global, out: &mut Vec<u8>, t: u32, end: End) -> Said
        ensures { OnOk result (out.new.items ≡ out.old.items
            ++ def.ends_words self.entry.names.now self.entry.story.now t end) }
    {
        say(out, ", ")?;
        say_end(alloc, out, self.names, end)?;
        self.say_heard(alloc, out, t, self.story.records().parent(t))
    }

    /// Appends what a step of this task did.
    pub(crate) fn say_deed(self, alloc: Global, out: &mut Vec<u8>, t: u32, deed: Deed) -> Said
        ensures { OnOk result (out.new.items ≡ out.old.items
            ++ def.deed_words self.entry.names.now self.entry.story.now t deed) }
    {
        match deed {
            Deed::Own => Ok(()),
            Deed::Gives => {
                say(out, ", gives")?;
                self.say_top(alloc, out, t)
            }
            Deed::Goes => self.say_goes(alloc, out, t),
            Deed::Opens(s) => say_numbered(alloc, out, ", opens scope ", s),
            Deed::Forks(child) => self.say_forks(alloc, out, child),
            Deed::Joins(s) => self.say_joins(alloc, out, t, s),
            Deed::BeginsToClose { scope, cancels } => {
                self.say_closing(alloc, out, scope, cancels)
            }
            Deed::Closes(s) => say_numbered(alloc, out, ", closes scope ", s),
            Deed::Ends(end) => self.say_ends(alloc, out, t, end),
            Deed::Faults(kind) => {
                say(out, ", fault ")?;
                say(out, fault_word(kind))
            }
        }
    }
}
