//! The calls that a search needs on the states that it goes over.

ghost use Rattle.std.specs.Prelude.{◌≡◌, Bool, true, IfOk, OnOk};
ghost use Rattle.std.specs.List.{Contains};
ghost use Rattle.sts_model.specs.declared.event.Event.{Event};

use std::alloc::{AllocError, Global};
use sts_model::Event;

/// A state of a machine that events lead on.
pub trait StateMachine: Drop {
    /// The part that all its states share.
    type Setting;

    ghost next: { Self.Setting → Self → Event → Self };

    ghost can: { Self.Setting → Self → Event → Bool };

    ghost alike: { Self.Setting → Self → Self → Type 0 };

    ghost last: { Self → Bool };

    /// The events that can come.
    fn events(&self, alloc: Global, setting: &Self::Setting) -> Result<Vec<Event>, AllocError>
        ensures all { IfOk result (λ es. (e : Event)
            → can setting.now self.now e ≡ true → Contains es.items e) }
        ensures only { IfOk result (λ es. (e : Event)
            → Contains es.items e → can setting.now self.now e ≡ true) };

    /// Applies an event. After an `Err` the state isn't known.
    fn apply(
        &mut self,
        alloc: Global,
        setting: &Self::Setting,
        event: Event,
    ) -> Result<(), AllocError>
        ensures { OnOk result (self.new ≡ next setting.now self.old event) };

    /// The same once more.
    fn copied(&self, alloc: Global) -> Result<Self, AllocError>
        ensures { IfOk result (λ s. s ≡ self.now) };

    /// If the answer is true, this state is alike to the other one, and the search keeps the other
    /// one alone. It may be false for states that are alike.
    fn is_like(
        &self,
        alloc: Global,
        setting: &Self::Setting,
        other: &Self,
    ) -> Result<bool, AllocError>
        ensures { IfOk result (λ r. r ≡ true → alike setting.now self.now other.now) };

    /// Is the state one of those that the search is for? They are marked when they are found.
    fn is_last(&self) -> bool
        ensures { result ≡ last self.now };

    /// A number that states mostly share if they are alike.
    fn hash(&self, alloc: Global, setting: &Self::Setting) -> Result<u64, AllocError>;
}
