//! A task as it is kept.

ghost use Rattle.std.specs.Prelude.{◌≡◌, ◌<◌, ◌≤◌, ◌+◌, ◌^◌, ◌++◌, [], ◌∷◌, IfOk, Some, None, true};
ghost use Rattle.std.specs.Prelude.{false, length, take, reverse, slice_set};
ghost use Rattle.std.specs.Borrow.{sem};
ghost use Rattle.sts_code.specs.declared.limits.TheConstants.{LAST_SLOT, MAX_ENTRIES, MAX_OPERANDS};
ghost use Rattle.sts_model.specs.Cancelling as cancelling;
ghost use Rattle.sts_model.specs.Environment as scoped;
ghost use Rattle.sts_model.specs.Living as living;
ghost use Rattle.sts_model.specs.Local as frames;
ghost use Rattle.sts_model.specs.World as def;
ghost use Rattle.sts_world.specs.Chains.{bindings_of, is_within, Grows};
ghost use Rattle.sts_world.specs.LendsFrame.{lends_frame};
ghost use Rattle.sts_model.specs.declared.record.Entry.TheVariants as entries;
ghost use Rattle.sts_model.specs.declared.record.Slot.TheVariants.{Empty, Own, Lent};

use crate::chains::BindingChains;
use crate::held::{HeldFrame, copy_held, resting, resting_entry, same_held};
use crate::reading::own_value;
use std::alloc::{AllocError, Global};
use std::marker::Model;
use sts_frames::{enter_scope, entry_frame, root_frame, steps};
use sts_model::{End, Frame, Slot};
use sts_same::copied::Copied;
use sts_same::same::Same;

/// A task: contracts see its record with the frame in full.
///
/// The frame is held in full while the task lives. A task that never runs, or has ended, keeps only
/// the used parts of its frame.
#[derive(Drop)]
pub struct TaskRecord {
    frame: HeldFrame,
    started: bool,
    flag: bool,
    scope: Option<u32>,
    outcome: Option<End>,
    /// The place of its environment when it last opened a scope, as a hint for the next one.
    opened: usize,
}

impl Model for TaskRecord {
    ghost use Rattle.sts_model.specs.declared.record.Task.{Task};

    ghost Value = { Task };

    ghost use Rattle.sts_world.specs.Held.{frame_of, is_living};
    ghost use Rattle.std.specs.Prelude.{◌≡◌, true, ◌&&◌, is_none};

    ghost view = { λ t. record {
      frame = frame_of t.frame;
      started = t.started;
      flag = t.flag;
      scope = t.scope;
      outcome = t.outcome;
    } };

    ghost invariant = { λ t. t.started && is_none t.outcome ≡ true → is_living t.frame ≡ true };
}

// ---- births

impl TaskRecord {
    /// The root task, at the beginning of a function.
    ///
    /// # Errors
    ///
    /// Memory ran out.
    pub fn root(alloc: Global, function: u32) -> Result<TaskRecord, AllocError>
        ensures { IfOk result
            (λ t. t ≡ record {
              frame = def.entry_frame function [] Empty;
              started = true;
              flag = false;
              scope = None;
              outcome = None;
            }) }
    {
        let frame = Box::new(alloc, root_frame(function))?;
        Ok(TaskRecord {
            frame: HeldFrame::Living(frame),
            started: true,
            flag: false,
            scope: None,
            outcome: None,
            opened: 0,
        })
    }

    /// A subtask of a scope, at the beginning of a function, with the forker's topmost operands as
    /// its arguments.
    ///
    /// # Errors
    ///
    /// Memory ran out.
    pub fn subtask(
        alloc: Global,
        function: u32,
        args: u8,
        forker: &Frame,
        scope: u32,
        started: bool,
    ) -> Result<TaskRecord, AllocError>
        requires few { args ≤ LAST_SLOT + 1 }
        requires enough { args ≤ length forker.now.operands }
        ensures { IfOk result
            (λ t. t ≡
            record {
              frame = def.entry_frame function (reverse (take args forker.now.operands))
                  (Lent scope);
              started = started;
              flag = false;
              scope = Some scope;
              outcome = None;
            }) }
    {
        let frame = if started {
            let frame = entry_frame(function, args, forker, Slot::Lent(scope));
            HeldFrame::Living(Box::new(alloc, frame)?)
        } else {
            HeldFrame::Resting(resting_entry(alloc, function, args, forker, scope)?)
        };
        Ok(TaskRecord {
            frame,
            started,
            flag: false,
            scope: Some(scope),
            outcome: None,
            opened: 0,
        })
    }
}

// ---- what is read

impl TaskRecord {
    /// Does the task live?
    pub fn lives(&self) -> bool
        ensures { result ≡ living.lives self.now }
    {
        self.started && self.outcome.is_none()
    }

    /// Its interrupt flag.
    pub fn flag(&self) -> bool
        ensures { result ≡ self.now.flag }
    {
        self.flag
    }

    /// The scope that it is a subtask of.
    pub fn scope(&self) -> Option<u32>
        ensures { result ≡ self.now.scope }
    {
        self.scope
    }

    /// How it ended, if it has.
    pub fn outcome(&self) -> Option<End>
        ensures { result ≡ self.now.outcome }
    {
        self.outcome
    }

    /// Was it started?
    pub fn has_started(&self) -> bool
        ensures { result ≡ self.now.started }
    {
        self.started
    }

    /// The function that it is in.
    pub fn function(&self) -> u32
        ensures { result ≡ self.now.frame.function }
    {
        match &self.frame {
            HeldFrame::Living(frame) => frame.function,
            HeldFrame::Resting(frame) => frame.function,
        }
    }

    /// The place of its next instruction.
    pub fn pc(&self) -> u32
        ensures { result ≡ self.now.frame.pc }
    {
        match &self.frame {
            HeldFrame::Living(frame) => frame.pc,
            HeldFrame::Resting(frame) => frame.pc,
        }
    }

    /// The frame of a task that lives.
    pub fn frame(&self) -> &Frame
        requires lives { living.lives self.now ≡ true }
        ensures { result.now ≡ self.now.frame }
    {
        match &self.frame {
            HeldFrame::Living(frame) => frame,
            HeldFrame::Resting(_) => unreachable!(),
        }
    }
}

impl TaskRecord {
    /// The value of its own innermost binding of a key.
    pub fn own_value(&self, k: u8) -> Option<i64>
        ensures { result ≡ scoped.read (scoped.own_bindings self.now) k }
    {
        match &self.frame {
            HeldFrame::Living(frame) => own_value(frame, k),
            HeldFrame::Resting(_) => None,
        }
    }

    /// The place of its own bindings in front of an environment.
    ///
    /// # Errors
    ///
    /// Memory ran out; links may have been added.
    pub fn environment(
        &self,
        chains: &mut BindingChains,
        rest: Option<usize>,
    ) -> Result<Option<usize>, AllocError>
        requires { is_within (length chains.old) rest ≡ true }
        ensures list { IfOk result (λ front. bindings_of chains.new front ≡
            scoped.own_bindings self.now ++ bindings_of chains.old rest) }
        ensures within { IfOk result (λ front. is_within (length chains.new) front ≡ true) }
        ensures grows { Grows chains.old chains.new }
    {
        match &self.frame {
            HeldFrame::Living(frame) => chains.extend(frame, rest, self.opened),
            HeldFrame::Resting(_) => Ok(rest),
        }
    }
}

// ---- what is written

impl TaskRecord {
    /// The frame of a task that lives, for writing.
    pub fn living(&mut self) -> &mut Frame
        requires lives { living.lives self.old ≡ true }
        ensures* writes_back { sem 𝓛 (lends_frame self.entry result) }
        ensures value { result.now ≡ self.old.frame }
    {
        match &mut self.frame {
            HeldFrame::Living(frame) => frame,
            HeldFrame::Resting(_) => unreachable!(),
        }
    }

    /// Pushes the flag and clears it.
    pub fn take_flag(&mut self)
        requires lives { living.lives self.old ≡ true }
        requires more { self.old.frame.pc + 1 < 2 ^ 32 }
        requires room { length self.old.frame.operands < MAX_OPERANDS }
        ensures { self.new ≡
            record self.old {
              frame = frames.steps self.old.frame 0
                  (frames.truth self.old.flag ∷ []);
              flag = false;
            } }
    {
        if let HeldFrame::Living(frame) = &mut self.frame {
            let next = frame.pc + 1;
            frame.goes_with(next, 0, i64::from(self.flag));
            self.flag = false;
        }
    }

    /// Leaves a `join` that was interrupted.
    pub fn leave_join(&mut self, to: u32)
        requires lives { living.lives self.old ≡ true }
        ensures { self.new ≡ record self.old {
          frame = frames.goes self.old.frame to 0 [];
          flag = false;
        } }
    {
        if let HeldFrame::Living(frame) = &mut self.frame {
            frame.goes(to, 0);
            self.flag = false;
        }
    }

    /// Leaves an `open`, with the scope in a slot.
    pub fn leave_open(&mut self, slot: u8, s: u32, front: Option<usize>)
        requires lives { living.lives self.old ≡ true }
        requires more { self.old.frame.pc + 1 < 2 ^ 32 }
        requires entries { length self.old.frame.entries < MAX_ENTRIES }
        ensures { self.new ≡
            record self.old {
              frame = record (frames.steps self.old.frame 0 []) {
                entries = entries.Scope s ∷ self.old.frame.entries;
                slots = slice_set self.old.frame.slots slot (Own s);
              };
            } }
    {
        if let HeldFrame::Living(frame) = &mut self.frame {
            enter_scope(frame, slot, s);
            self.opened = front.unwrap_or(0);
        }
    }

    /// Sets the flag.
    pub fn interrupt(&mut self)
        ensures { self.new ≡ record self.old { flag = true } }
    {
        self.flag = true;
    }

    /// Sets the flag, if the task is a living subtask of the scope.
    pub fn raise(&mut self, s: u32)
        ensures { self.new ≡ cancelling.raise s self.old }
    {
        if self.scope == Some(s) && self.lives() {
            self.flag = true;
        }
    }

    /// Ends the task.
    pub fn end(&mut self, alloc: Global, end: End)
        requires lives { living.lives self.old ≡ true }
        requires more { self.old.frame.pc + 1 < 2 ^ 32 }
        ensures { self.new ≡ record self.old {
          frame = frames.steps self.old.frame 1 [];
          outcome = Some end;
        } }
    {
        if let HeldFrame::Living(frame) = &mut self.frame {
            steps(frame, 1);
        }
        self.outcome = Some(end);
        self.rest(alloc);
    }

    /// Holds the frame of a task that doesn't live by its used parts, if there is memory for that.
    fn rest(&mut self, alloc: Global)
        requires { living.lives self.old ≡ false }
        ensures { self.new ≡ self.old }
    {
        if let HeldFrame::Living(frame) = &self.frame {
            if let Some(frame) = resting(alloc, frame) {
                self.frame = HeldFrame::Resting(frame);
            }
        }
    }
}

// ---- compared and copied

impl Same for TaskRecord {
    fn same(&self, other: &TaskRecord) -> bool {
        self.started == other.started
            && self.flag == other.flag
            && self.scope == other.scope
            && self.outcome == other.outcome
            && same_held(&self.frame, &other.frame)
    }
}

impl Copied for TaskRecord {
    fn copied(&self, alloc: Global) -> Result<TaskRecord, AllocError> {
        let frame = copy_held(alloc, &self.frame)?;
        Ok(TaskRecord {
            frame,
            started: self.started,
            flag: self.flag,
            scope: self.scope,
            outcome: self.outcome,
            opened: self.opened,
        })
    }
}
