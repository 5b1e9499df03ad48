//! The store, and how it begins.

ghost use Rattle.std.specs.Prelude.{◌≡◌, ◌<◌, ◌≤◌, ◌-◌, ◌∷◌, ℕ, [], Some, IfOk};
ghost use Rattle.sts_code.specs.declared.limits.TheConstants.{MAX_STANDING};
ghost use Rattle.sts_store.specs.Parts.{live_of, no_running, root_alone, unseen_of};
ghost use Rattle.sts_model.specs.declared.event.Stand.TheVariants.{Free};

use crate::running::Running;
use std::alloc::{AllocError, Global};
use std::marker::Model;
use sts_env::{Chains, Env};
use sts_model::{End, Frame};
use sts_records::Held;
use sts_tree::Tree;

/// The room for tasks, scopes and bindings at once.
#[derive(Clone, Copy, Debug, PartialEq, Eq)]
pub struct Room {
    pub tasks: u32,
    pub scopes: u32,
    pub bindings: u32,
}

/// The tasks and scopes that count, the frames of the living tasks, and all bindings. Contracts see
/// the parts, and speak of the live view that they form.
#[derive(Drop)]
pub struct Store {
    pub(crate) tree: Tree<Env>,
    pub(crate) frames: Held<Running>,
    pub(crate) chains: Chains,
    pub(crate) root_end: Option<End>,
}

impl Model for Store {
    ghost use Rattle.sts_store.specs.Parts.{Parts};
    ghost use Rattle.sts_store.specs.Stored.{IsStore};

    ghost Value = { Parts };

    ghost view = { λ m. record {
      tree = m.tree;
      frames = m.frames;
      chains = m.chains;
      root_end = m.root_end;
    } };

    ghost invariant = { λ m. IsStore (record {
      tree = m.tree;
      frames = m.frames;
      chains = m.chains;
      root_end = m.root_end;
    }) };
}

/// The root task alone, at this frame, with nothing bound, and room for the other tasks.
///
/// # Errors
///
/// Memory ran out.
fn root_frames(alloc: Global, tasks: u32, frame: Frame) -> Result<Held<Running>, AllocError>
    requires { 0 < tasks }
    ensures slots { IfOk result (λ h. h.slots ≡ Some (record no_running { frame = frame }) ∷ []) }
    ensures room { IfOk result (λ h. h.room ≡ tasks - 1) }
{
    let mut frames = Held::with_room(alloc, tasks)?;
    let env = Env::empty();
    frames.push(Running { frame, env });
    Ok(frames)
}

impl Store {
    /// The root task alone, at this frame, with nothing bound, and this much room. No later call
    /// can answer that memory ran out.
    ///
    /// # Errors
    ///
    /// Memory ran out.
    pub fn with_room(alloc: Global, room: Room, frame: Frame) -> Result<Store, AllocError>
        requires some { 0 < room.tasks }
        requires few { room.tasks ≤ MAX_STANDING }
        requires fresh { frame.entries ≡ [] }
        ensures live { IfOk result (λ m. live_of m ≡ root_alone frame) }
        ensures unseen { IfOk result (λ m. (key : ℕ) × (unseen_of m ≡ record {
          stands = Some Free ∷ [];
          task_keys = key ∷ [];
          scope_keys = [];
          task_room = room.tasks - 1;
          frame_room = room.tasks - 1;
          scope_room = room.scopes;
          binding_room = room.bindings;
        })) }
    {
        let chains = Chains::with_room(alloc, room.bindings)?;
        let frames = root_frames(alloc, room.tasks, frame)?;
        let tree = Tree::with_room(alloc, room.tasks, room.scopes)?;
        Ok(Store {
            tree,
            frames,
            chains,
            root_end: None,
        })
    }
}
