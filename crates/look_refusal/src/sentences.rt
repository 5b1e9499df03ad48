//! The only table of the sentences that say what to do about a refusal or a fault of a run.

ghost use Rattle.std.specs.Prelude.{◌≡◌};
ghost use Rattle.look_refusal.specs.Sentences as def;

use crate::remedy::Remedy;

/// What is missing or too much, and what to do about it.
pub fn remedy_sentence(remedy: Remedy) -> &'static str
    ensures { result.now ≡ def.remedy_sentence remedy }
{
    match remedy {
        Remedy::TooFewOperands =>
            "this needs more operands than the stack has here: push them first",
        Remedy::TooManyOperands =>
            "more than 32 operands would be on the stack afterwards: pop or store some first",
        Remedy::RunsPastEnd => "this runs past the end of the function: add ret or fail",
        Remedy::GoesBack => "a label here must come later: repeat by times and next",
        Remedy::TimesWithoutNext => "this times has no next: add the next that ends its turns",
        Remedy::NextWithoutTimes => "this next has no times: add the times that begins its turns",
        Remedy::LoopCrossed => {
            "this enters or leaves a loop in the middle: leave it by its end, by ret or by fail"
        }
        Remedy::TooManyLoops =>
            "8 loops are open here, and this would open a ninth: let a subtask do the inner turns",
        Remedy::WaysDiffer => {
            "two ways meet here, or a loop turns, and differ: make alike what is listed, or end one way by ret"
        }
        Remedy::NeverReached => "this can never be reached: leave it out, or let a jump lead here",
        Remedy::NoScope =>
            "this slot holds no scope here: open one first, or use it before its close",
        Remedy::HoldsSubtask => "this slot holds a subtask: name the slot of a scope",
        Remedy::NoSubtask =>
            "this slot holds no subtask here: fork one first, or use it before the close of its scope",
        Remedy::HoldsScope => "this slot holds a scope: name the slot of a subtask",
        Remedy::FillsScope => "this slot holds an open scope: close it first, or take another slot",
        Remedy::FillsParentScope => {
            "slot 0 of a subtask holds the scope that it belongs to: take another slot"
        }
        Remedy::FillsSubtask => "this slot holds a subtask: forget it first, or take another slot",
        Remedy::ParentScope => {
            "this slot holds the scope of the task that forked this one: open a scope of your own"
        }
        Remedy::ForkAfterJoin => {
            "a join of this scope was tried already: fork before the first join"
        }
        Remedy::JoinedAlready => "this scope was joined already: leave this join out",
        Remedy::CloseBeforeJoin => "join this scope before you close it",
        Remedy::ReadBeforeJoin => "join this scope before you read its subtasks",
        Remedy::ReadAfterInterrupt => {
            "the join of this scope was interrupted: close it, or join it again first (JDK 25 can't)"
        }
        Remedy::ReadAfterTimeout => {
            "in profile 1 nothing is read after a timeout: close the scope, or use profile 2"
        }
        Remedy::NotKnownSuccess => {
            "not known to have succeeded: read it at the success label of case, or where a join of \
                all or awaitok goes on"
        }
        Remedy::NotKnownFailed => "not known to have failed: use the failed label of case",
        Remedy::StillOpen => "close every scope and end every binding before this",
        Remedy::OpenedLater => "a scope that was opened after this one is open: close it first",
        Remedy::BoundLater => {
            "a binding that was made after this scope was opened is in force: end it first"
        }
        Remedy::OpenedBeforeLoop => {
            "this scope was opened before the loop: close it after the loop"
        }
        Remedy::NothingBound => "no binding of this task is in force: bind first",
        Remedy::OpenedInBinding => "a scope that was opened in the binding is open: close it first",
        Remedy::BoundBeforeLoop => "this binding was made before the loop: end it after the loop",
        Remedy::ForkAfterBind => {
            "a binding that was made after this scope was opened is in force: fork before bind, \
                or after unbind"
        }
        Remedy::TooManyOpen =>
            "16 scopes and bindings are open here, and this would open one more: close or unbind one first",
        Remedy::KeyUnbound => "this key may be unbound here: bind it, or list it after needs",
        Remedy::SubtaskKeyUnbound => {
            "the subtask needs a key that may be unbound here: bind it before open, or list it \
                after needs"
        }
        Remedy::FailedLabelMissing => {
            "under all, any and awaitok a join can fail: name a label for failed"
        }
        Remedy::NoFailureHere => "under awaitall and until no join fails: write - for failed",
        Remedy::TimeoutLabelMissing => "this scope was opened with timed: name a label for timeout",
        Remedy::NoTimeoutHere => "this scope was opened without timed: write - for timeout",
        Remedy::TooManySteps =>
            "some path takes more than 1000000 steps: lower a bound of times, or fork fewer subtasks",
        Remedy::TooManyTasks => {
            "some path has more than 65536 tasks at once: fork fewer, or close scopes earlier, since \
             ended tasks count until then"
        }
        Remedy::TooManyScopes =>
            "some path has more than 65536 scopes open at once: close them earlier, or fork fewer subtasks",
        Remedy::TooManyBindings =>
            "some path has more than 65536 bindings open at once: unbind earlier, or fork fewer subtasks",
        Remedy::NotSuccess => {
            "this subtask is no success: ask for its state by case before you get its value"
        }
        Remedy::NotFailed => {
            "this subtask didn't fail: ask for its state by case before you read its code"
        }
        Remedy::KeyUnboundNow =>
            "no binding of this key is in force here: bind it first, or read it by orelse",
        Remedy::NoRoomForTask => {
            "65536 tasks count here until their scopes close, or 1000000 were forked: close scopes earlier, or fork fewer"
        }
        Remedy::NoRoomForScope =>
            "65536 scopes are open here, or 1000000 were opened: close scopes earlier, or open fewer",
    }
}
