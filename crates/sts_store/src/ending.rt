//! The end of a task.

ghost use Rattle.std.specs.Prelude.{◌≡◌, ◌≢◌, ◌+◌, ◌==◌, ℕ, true, Some, None, slice_index_or};
ghost use Rattle.std.specs.Prelude.{if◌then◌else◌};
ghost use Rattle.sts_tree.specs.declared.record.TaskNode.{TaskNode as AnyTask};
ghost use Rattle.laws_live.specs.Effect.{live_end};
ghost use Rattle.laws_live.specs.Reading.{lives_in};
ghost use Rattle.sts_store.specs.Ending.{finished};
ghost use Rattle.sts_store.specs.Parts.{live_of, unseen_of};
ghost use Rattle.sts_tree.specs.Steps.{seen};

use crate::store::Store;
use sts_cancel::cancel;
use sts_env::Env;
use sts_model::End;
use sts_tree::Tree;

/// Ends a living task and tells the joiner of its scope. Cancels the scope if the joiner asks for
/// it.
#[inline(always)]
fn finish(tree: &mut Tree<Env>, t: u32, end: End)
    requires { (x : AnyTask)
        × (slice_index_or tree.old.tasks t None ≡ Some x) × (x.lives ≡ true) }
    ensures finished { (x : AnyTask) → slice_index_or tree.old.tasks t None ≡ Some x →
        seen tree.new ≡ seen (finished tree.old t x end) }
    ensures home { (x : AnyTask) (s : ℕ) → slice_index_or tree.old.tasks t None ≡ Some x →
        x.scope ≡ Some s → slice_index_or tree.old.scopes s None ≢ None }
{
    let home = tree.node(t).scope;
    let asks = tree.end_task(t, end);
    if asks {
        if let Some(s) = home {
            cancel(tree, s);
        }
    }
}

/// Notes how a task ended, if it is the root.
#[inline(always)]
fn note_root_end(root_end: &mut Option<End>, t: u32, end: End)
    ensures { root_end.new ≡ (if t == 0 then Some end else root_end.old) }
{
    if t == 0 {
        *root_end = Some(end);
    }
}

impl Store {
    /// Ends a living task. The joiner of its scope is told unless the scope is cancelled, and may
    /// ask to cancel it.
    #[inline(always)]
    pub fn end(&mut self, t: u32, end: End)
        requires { lives_in (live_of self.old) t ≡ true }
        ensures live { live_of self.new ≡ live_end (live_of self.old) t end }
        ensures unseen { unseen_of self.new ≡ record (unseen_of self.old) {
          frame_room = (unseen_of self.old).frame_room + 1;
        } }
    {
        finish(&mut self.tree, t, end);
        self.frames.discard(t as usize);
        note_root_end(&mut self.root_end, t, end);
    }
}
