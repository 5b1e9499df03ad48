//! Functions and programs.

ghost use Rattle.std.specs.Prelude.{◌≡◌, ◌<◌, None, Some, MatchResult};
ghost use Rattle.sts_code.specs.Checks.{program_fault as fault_of};

use crate::checking::{CodeError, program_fault};
use crate::instr::Instr;
use crate::profile::Profile;
use std::marker::Model;

/// A function: contracts see it as a `Routine`.
#[derive(Drop)]
pub struct Function {
    pub name: String,
    /// How many operands a `fork` of it pops.
    pub args: u8,
    /// The keys that must be bound when it is forked.
    pub needs: [bool; 16],
    pub code: Vec<Instr>,
}

impl Model for Function {
    ghost use Rattle.std.specs.String.{string_bytes};
    ghost use Rattle.sts_code.specs.Program.{Routine};

    ghost Value = { Routine };

    ghost view = { λ f. record {
      name = string_bytes f.name;
      args = f.args;
      needs = f.needs;
      code = f.code.items;
    } };
}

/// A program that passed the program checks: contracts see it as its profile and the list of its
/// functions.
#[derive(Drop)]
pub struct Program {
    profile: Profile,
    functions: Vec<Function>,
}

impl Model for Program {
    ghost use Rattle.std.specs.Prelude.{◌≡◌, None};
    ghost use Rattle.sts_code.specs.Checks.{program_fault};
    ghost use Rattle.sts_code.specs.Program.{Program};

    ghost Value = { Program };

    ghost view = { λ p. record { profile = p.profile; routines = p.functions.items } };

    ghost invariant = { λ p. program_fault p.functions.items ≡ None };
}

impl Program {
    /// A program of profile one, or the first check that the functions fail. A refusal drops the
    /// functions.
    ///
    /// # Errors
    ///
    /// The first program check that the functions fail, with its place.
    pub fn new(functions: Vec<Function>) -> Result<Program, CodeError>
        ensures { MatchResult result (λ p. (fault_of functions.items ≡ None) ×
            (p ≡ record { profile = Profile.One; routines = functions.items }))
            (λ e. fault_of functions.items ≡ Some e) }
    {
        Program::new_in(Profile::One, functions)
    }

    /// A program of this profile, or the first check that the functions fail. A refusal drops the
    /// functions.
    ///
    /// # Errors
    ///
    /// The first program check that the functions fail, with its place.
    pub fn new_in(profile: Profile, functions: Vec<Function>) -> Result<Program, CodeError>
        ensures { MatchResult result (λ p. (fault_of functions.items ≡ None) ×
            (p ≡ record { profile = profile; routines = functions.items }))
            (λ e. fault_of functions.items ≡ Some e) }
    {
        match program_fault(functions.as_slice()) {
            Some(error) => Err(error),
            None => Ok(Program { profile, functions }),
        }
    }

    /// The profile that the program is of.
    pub fn profile(&self) -> Profile
        ensures { result ≡ self.now.profile }
    {
        self.profile
    }

    /// The functions, in order; no program check fails on them.
    pub fn functions(&self) -> &[Function]
        ensures value { result.now ≡ self.now.routines }
        ensures checked { fault_of self.now.routines ≡ None }
    {
        self.functions.as_slice()
    }
}
