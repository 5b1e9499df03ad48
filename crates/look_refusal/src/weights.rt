//! The lines of a path, or of a point of one, that is over a budget.

ghost use Rattle.std.specs.Prelude.{◌≡◌, ◌<◌, ◌≤◌, ◌++◌, OnOk, length};
ghost use Rattle.look_refusal.specs.Order.{IsLastShown};
ghost use Rattle.look_refusal.specs.Weights as def;

use crate::heavy::Heavy;
use crate::order::{comes_after, last_shown};
use look_text::{Said, say, say_number, say_place};
use std::alloc::Global;
use sts_asm::Outline;
use sts_budget::Resource;
use sts_code::MAX_INSTRUCTIONS;

/// What a resource counts, as it is said after the weight.
fn count_words(resource: Resource) -> &'static str
    ensures { result.now ≡ def.count_words resource }
{
    match resource {
        Resource::Steps => " steps on a path that ends here",
        Resource::Tasks => " tasks count here",
        Resource::Scopes => " scopes are open here",
        Resource::Binds => " bindings are open here",
    }
}

/// The line of what a function adds outside its instructions.
fn own_line(resource: Resource) -> &'static str
    ensures { result.now ≡ def.own_line resource }
{
    match resource {
        Resource::Steps => "adds 1, its last step\n",
        Resource::Tasks => "adds 1, the task itself\n",
        Resource::Scopes | Resource::Binds => "",
    }
}

/// Returns 1 if so, otherwise 0.
fn one_if(so: bool) -> usize
    ensures value { result ≡ def.one_if so }
    ensures small { result ≤ 1 }
{
    if so { 1 } else { 0 }
}

/// What the places of a function add, and the last place whose rank lets it be shown.
#[derive(Clone, Copy)]
struct Ranked<'s> {
    shares: &'s [u128],
    last: Option<usize>,
}

impl Ranked<'_> {
    /// Is the place one of those that add most, and does it add anything?
    fn is_shown(self, this: usize) -> bool
        requires last { IsLastShown self.shares.now self.last }
        requires this { this < length self.shares.now }
        ensures { result ≡ def.is_shown self.entry.shares.now this }
    {
        0 < self.shares[this] && !comes_after(self.shares, self.last, this)
    }

    /// Does the place add something, without being shown?
    fn is_other(self, this: usize) -> bool
        requires last { IsLastShown self.shares.now self.last }
        requires this { this < length self.shares.now }
        ensures { result ≡ def.is_other self.entry.shares.now this }
    {
        0 < self.shares[this] && !self.is_shown(this)
    }

    /// How many others add something.
    fn others(self) -> usize
        requires { IsLastShown self.shares.now self.last }
        ensures { result ≡ def.others self.entry.shares.now }
    {
        let mut count = 0;
        for one in 0..self.shares.len() {
            count += one_if(self.is_other(one));
        }
        count
    }
}

fn say_others(alloc: Global, out: &mut Vec<u8>, count: usize) -> Said
    ensures { OnOk result (out.new.items ≡ out.old.items ++ def.others_line count) }
{
    if count == 0 {
        return Ok(());
    }
    let words = "other lines that add something, none of them more: ";
    say_number(alloc, out, words, count as u128)?;
    say(out, "\n")
}

/// A function, and the outline of its text.
#[derive(Clone, Copy)]
struct OutlinedFunction<'a, 't> {
    outline: &'a Outline<'t>,
    function: u32,
}

impl OutlinedFunction<'_, '_> {
    /// The line of a place that is shown.
    fn say_share(self, alloc: Global, out: &mut Vec<u8>, ranked: Ranked<'_>, at: usize) -> Said
        requires last { IsLastShown ranked.shares.now ranked.last }
        requires at { at < length ranked.shares.now }
        requires short { length ranked.shares.now ≤ MAX_INSTRUCTIONS }
        ensures { OnOk result (out.new.items ≡ out.old.items ++ def.share_line
            self.entry.outline.now self.entry.function ranked.entry.shares.now at) }
    {
        if !ranked.is_shown(at) {
            return Ok(());
        }
        say_number(alloc, out, "adds ", ranked.shares[at])?;
        say_place(alloc, out, self.outline.sentence(self.function, at as u32))?;
        say(out, "\n")
    }

    fn say_shares(self, alloc: Global, out: &mut Vec<u8>, ranked: Ranked<'_>) -> Said
        requires last { IsLastShown ranked.shares.now ranked.last }
        requires short { length ranked.shares.now ≤ MAX_INSTRUCTIONS }
        ensures { OnOk result (out.new.items ≡ out.old.items ++ def.share_lines
            self.entry.outline.now self.entry.function ranked.entry.shares.now) }
    {
        for at in 0..ranked.shares.len() {
            self.say_share(alloc, out, ranked, at)?;
        }
        Ok(())
    }

    /// The line that says what is over the limit, and where.
    fn say_weight(self, alloc: Global, out: &mut Vec<u8>, kind: Resource, heavy: &Heavy) -> Said
        ensures { OnOk result (out.new.items ≡ out.old.items ++ def.weight_line
            self.entry.outline.now self.entry.function kind heavy.now) }
    {
        say_number(alloc, out, "", heavy.weight)?;
        say(out, count_words(kind))?;
        say_place(
            alloc,
            out,
            self.outline.sentence(self.function, heavy.place),
        )?;
        say(out, "\n")
    }
}

/// A line that says what is over the limit, and a line for each of the instructions that add most
/// to it.
///
/// # Errors
///
/// Memory ran out; `out` may then have a part of them.
pub(crate) fn weight_lines(
    alloc: Global,
    out: &mut Vec<u8>,
    outline: &Outline<'_>,
    function: u32,
    resource: Resource,
    heavy: &Heavy,
) -> Said
    requires { length heavy.now.shares.items ≤ MAX_INSTRUCTIONS }
    ensures { OnOk result (out.new.items
        ≡ out.old.items ++ def.weight_lines outline.now function resource heavy.now) }
{
    let outlined = OutlinedFunction { outline, function };
    let shares = heavy.shares.as_slice();
    let ranked = Ranked {
        shares,
        last: last_shown(shares),
    };
    outlined.say_weight(alloc, out, resource, heavy)?;
    outlined.say_shares(alloc, out, ranked)?;
    say_others(alloc, out, ranked.others())?;
    say(out, own_line(resource))
}
