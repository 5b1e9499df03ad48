//! The budgets of all resources, found in one pass over a function.

ghost use Rattle.std.specs.Prelude.{◌≡◌, ◌<◌, ◌≤◌, ◌+◌, ◌++◌, ℕ, All, IsTrue, IfOk, IfSome, length, min, get_or};
ghost use Rattle.std.specs.Prelude.{replicate, true};
ghost use Rattle.sts_code.specs.Facts as facts;
ghost use Rattle.sts_rules.specs.Around as around;
ghost use Rattle.sts_rules.specs.Budget.{skeleton};
ghost use Rattle.sts_budget.specs.declared.change.Resource.{Resource};
ghost use Rattle.sts_budget.specs.Change.{depth_of, own_of, own_step};
ghost use Rattle.sts_budget.specs.Handing as handing;
ghost use Rattle.sts_budget.specs.Handing.{handed_value};
ghost use Rattle.sts_budget.specs.Ready.{IsLaidFor, flows_in, head_in, names_in};
ghost use Rattle.sts_budget.specs.Table.{IsCarried, IsRaisedAt, IsSent, IsSpread, IsPartial, read};
ghost use Rattle.sts_budget.specs.Together.{rows_of, sums_of, over_open, width, most, AreMost};
ghost use Rattle.sts_budget.specs.Together.{AreLong, AreTopped, IsPassOf, top_of, budget_of};

use crate::change::Resource;
use crate::greatest::{Top, add_place, most_of, no_top, own_of};
use crate::layout::{Layout, next_places};
use crate::pass::{Pass, is_ordinary, is_quiet, raise_row, values_of};
use crate::row::{Row, Values, raise_all, risen};
use std::alloc::{AllocError, Global};
use sts_code::{Instr, MAX_INSTRUCTIONS, goes_straight_on};
use sts_rules::{Budgets, filled};

/// What the passes over a function read: the budgets of the functions before, the function's code
/// and its layout.
#[derive(Clone, Copy)]
pub(crate) struct Source<'p> {
    pub(crate) earlier: &'p [Budgets],
    pub(crate) code: &'p [Instr],
    pub(crate) layout: &'p Layout<'p>,
}

/// The pass over a function for a resource.
#[inline(always)]
pub(crate) fn pass_of<'p>(resource: Resource, source: &Source<'p>) -> Pass<'p>
    ensures { IsPassOf source.now resource result }
{
    Pass {
        resource,
        earlier: source.earlier,
        code: source.code,
        layout: source.layout,
        most: most_of(resource),
    }
}

/// The tables of greatest sums, one for each resource. Steps are summed over no entry.
#[derive(Drop)]
pub(crate) struct Tables<const N: usize> {
    steps: Vec<Row<1>>,
    tasks: Vec<Row<N>>,
    scopes: Vec<Row<N>>,
    binds: Vec<Row<N>>,
}

/// The sums that a place hands on, for each resource.
#[derive(Clone, Copy)]
struct Handed<const N: usize> {
    steps: Values<1>,
    tasks: Values<N>,
    scopes: Values<N>,
    binds: Values<N>,
}

/// Does the instruction count a step, change nothing else, and go on to the next place?
#[inline(always)]
fn only_steps(instr: Instr) -> bool
    ensures ordinary { IsTrue result → handing.is_ordinary instr ≡ true }
    ensures straight { IsTrue result → facts.goes_straight_on instr ≡ true }
{
    is_ordinary(instr) && goes_straight_on(instr)
}

/// Raises the row after a place to the row of the place.
#[inline(always)]
fn carry<const N: usize>(rows: &mut Vec<Row<N>>, pc: usize)
    requires { pc + 1 < length rows.old.items }
    ensures { IsCarried N pc 0 rows.old.items rows.new.items }
{
    let row = rows[pc];
    raise_all(&mut rows[pc + 1], &row);
}

impl<const N: usize> Tables<N> {
    /// Hands on the sums of a place to the next place, with one step more. The answer is false if
    /// the steps are over their limit.
    #[inline(always)]
    fn step_on(&mut self, pc: usize) -> bool
        requires small { N ≤ 17 }
        requires inside { (k : Resource) → pc + 1 < length (rows_of self.old k) }
        ensures { IsTrue result → (k : Resource) →
            IsCarried (width N k) pc (own_step k) (rows_of self.old k) (rows_of self.new k) }
    {
        let steps = risen(1, &self.steps[pc]);
        carry(&mut self.tasks, pc);
        carry(&mut self.scopes, pc);
        carry(&mut self.binds, pc);
        raise_row(&mut self.steps, pc + 1, &steps, 0, most_of(Resource::Steps))
    }

    /// Raises the rows at a place to the values, as far as `low` entries. The answer is false if a
    /// value is over its limit.
    #[inline(always)]
    fn raise_to(&mut self, to: usize, values: &Handed<N>, low: usize) -> bool
        requires small { N ≤ 17 }
        requires inside { (k : Resource) → to < length (rows_of self.old k) }
        requires low { low < N }
        ensures { IsTrue result → (k : Resource) → IsRaisedAt (sums_of values.now k)
            (over_open k low) (most k) to (rows_of self.old k) (rows_of self.new k) }
    {
        let steps = most_of(Resource::Steps);
        let tasks = most_of(Resource::Tasks);
        let scopes = most_of(Resource::Scopes);
        let binds = most_of(Resource::Binds);
        if !raise_row(&mut self.steps, to, &values.steps, 0, steps) {
            return false;
        }
        if !raise_row(&mut self.tasks, to, &values.tasks, low, tasks) {
            return false;
        }
        if !raise_row(&mut self.scopes, to, &values.scopes, low, scopes) {
            return false;
        }
        raise_row(&mut self.binds, to, &values.binds, low, binds)
    }

    /// Raises the rows at these places to the values. The answer is false if a value is over its
    /// limit.
    fn send(&mut self, places: &[u32], values: &Handed<N>, layout: &Layout<'_>) -> bool
        requires small { N ≤ 17 }
        requires inside { (k : Resource) → All (λ to. to < length (rows_of self.old k)) places.now }
        requires named { (k : Resource) →
            length layout.now.typing.now.states ≡ length (rows_of self.old k) }
        requires fits { (pc : ℕ) → length (names_in layout.now pc) < N }
        ensures { IsTrue result → (k : Resource) → IsSent (sums_of values.now k)
            (λ pc. depth_of k (names_in layout.now pc)) (most k) places.now
            (rows_of self.old k) (rows_of self.new k) }
    {
        for i in 0..places.len() {
            let to = places[i] as usize;
            if !self.raise_to(to, values, layout.typing.entries(to).len()) {
                return false;
            }
        }
        true
    }

    /// Raises the rows at the places where an instruction goes on.
    #[inline(always)]
    fn send_on(&mut self, instr: Instr, pc: usize, values: &Handed<N>, layout: &Layout<'_>) -> bool
        requires small { N ≤ 17 }
        requires short { pc < MAX_INSTRUCTIONS }
        requires inside { (k : Resource) → All (λ to. to < length (rows_of self.old k))
            (facts.targets instr ++ around.next_place pc instr) }
        requires named { (k : Resource) →
            length layout.now.typing.now.states ≡ length (rows_of self.old k) }
        requires fits { (q : ℕ) → length (names_in layout.now q) < N }
        ensures { IsTrue result → (k : Resource) → IsSent (sums_of values.now k)
            (λ q. depth_of k (names_in layout.now q)) (most k)
            (facts.targets instr ++ around.next_place pc instr)
            (rows_of self.old k) (rows_of self.new k) }
    {
        if goes_straight_on(instr) {
            return self.raise_to(pc + 1, values, layout.typing.entries(pc + 1).len());
        }
        let places = next_places(instr, pc as u32);
        self.send(places.as_slice(), values, layout)
    }

    /// The sums that an instruction hands on.
    #[inline(always)]
    fn handed(&self, source: &Source<'_>, pc: usize) -> Handed<N>
        requires ready { IsLaidFor source.now.earlier.now source.now.code.now source.now.layout.now }
        requires small { N ≤ 17 }
        requires fits { (q : ℕ) → length (names_in source.now.layout.now q) < N }
        requires in_code { pc < length source.now.code.now }
        requires rows { AreLong self.now (length source.now.code.now) }
        ensures { (k : Resource) (d : ℕ) → d < width N k → get_or (sums_of result k) d 0 ≡
            min (handed_value k source.now.earlier.now source.now.code.now
            source.now.layout.now (read (rows_of self.now k)) pc d) 18446744073709551615 }
    {
        let steps = pass_of(Resource::Steps, source);
        let tasks = pass_of(Resource::Tasks, source);
        let scopes = pass_of(Resource::Scopes, source);
        let binds = pass_of(Resource::Binds, source);
        Handed {
            steps: values_of(&steps, self.steps.as_slice(), pc),
            tasks: values_of(&tasks, self.tasks.as_slice(), pc),
            scopes: values_of(&scopes, self.scopes.as_slice(), pc),
            binds: values_of(&binds, self.binds.as_slice(), pc),
        }
    }

    /// Hands on the sums of a place. The answer is false if a sum is over its limit.
    #[inline(always)]
    fn hand_on(&mut self, source: &Source<'_>, pc: usize) -> bool
        requires ready { IsLaidFor source.now.earlier.now source.now.code.now source.now.layout.now }
        requires small { N ≤ 17 }
        requires fits { (q : ℕ) → length (names_in source.now.layout.now q) < N }
        requires in_code { pc < length source.now.code.now }
        requires rows { AreLong self.old (length source.now.code.now) }
        ensures { IsTrue result → (k : Resource) →
            IsSpread (skeleton source.now.earlier.now source.now.code.now)
            (flows_in k source.now.earlier.now source.now.code.now source.now.layout.now)
            (head_in source.now.layout.now) pc (rows_of self.old k) (rows_of self.new k) }
    {
        if is_quiet(source.code[pc]) {
            return true;
        }
        if only_steps(source.code[pc]) {
            return self.step_on(pc);
        }
        let values = self.handed(source, pc);
        self.send_on(source.code[pc], pc, &values, source.layout)
    }

    /// The tables of all resources, or `None` if a sum is over its limit.
    fn of(alloc: Global, source: &Source<'_>) -> Result<Option<Tables<N>>, AllocError>
        requires ready { IsLaidFor source.now.earlier.now source.now.code.now source.now.layout.now }
        requires small { N ≤ 17 }
        requires fits { (q : ℕ) → length (names_in source.now.layout.now q) < N }
        ensures { IfOk result (λ o. IfSome o (λ t. (k : Resource) →
            IsPartial (skeleton source.now.earlier.now source.now.code.now)
            (flows_in k source.now.earlier.now source.now.code.now source.now.layout.now)
            (length source.now.code.now) (rows_of t k))) }
    {
        let places = source.code.len();
        let steps = filled(alloc, places, [0; 1])?;
        let tasks = filled(alloc, places, [0; N])?;
        let scopes = filled(alloc, places, [0; N])?;
        let binds = filled(alloc, places, [0; N])?;
        let mut tables = Tables {
            steps,
            tasks,
            scopes,
            binds,
        };
        for pc in 0..places {
            if !tables.hand_on(source, pc) {
                return Ok(None);
            }
        }
        Ok(Some(tables))
    }
}

/// The greatest sums of the places so far, for each resource.
#[derive(Drop)]
pub(crate) struct Tops {
    steps: Top,
    tasks: Top,
    scopes: Top,
    binds: Top,
}

impl Tops {
    /// Adds a place. The answer is false if one of its sums is over its limit.
    #[inline(always)]
    fn add<const N: usize>(&mut self, source: &Source<'_>, tables: &Tables<N>, pc: usize) -> bool
        requires ready { IsLaidFor source.now.earlier.now source.now.code.now source.now.layout.now }
        requires small { N ≤ 17 }
        requires fits { (q : ℕ) → length (names_in source.now.layout.now q) < N }
        requires in_code { pc < length source.now.code.now }
        requires whole { (k : Resource) →
            IsPartial (skeleton source.now.earlier.now source.now.code.now)
            (flows_in k source.now.earlier.now source.now.code.now source.now.layout.now)
            (length source.now.code.now) (rows_of tables.now k) }
        requires so_far { AreTopped source.now tables.now pc self.old }
        ensures { IsTrue result → AreTopped source.now tables.now (pc + 1) self.new }
    {
        let depth = source.layout.typing.entries(pc).len();
        let head = source.layout.typing.head(pc);
        let steps = pass_of(Resource::Steps, source);
        let tasks = pass_of(Resource::Tasks, source);
        let scopes = pass_of(Resource::Scopes, source);
        let binds = pass_of(Resource::Binds, source);
        if !add_place(&steps, &tables.steps, &mut self.steps, pc, 0, head) {
            return false;
        }
        if !add_place(&tasks, &tables.tasks, &mut self.tasks, pc, depth, head) {
            return false;
        }
        if !add_place(&scopes, &tables.scopes, &mut self.scopes, pc, depth, head) {
            return false;
        }
        add_place(&binds, &tables.binds, &mut self.binds, pc, depth, head)
    }
}

/// No place so far, for each resource.
fn no_tops(alloc: Global, places: usize) -> Result<Tops, AllocError>
    ensures { IfOk result (λ t. (k : Resource) →
        ((top_of t k).bases.items ≡ replicate places 0) × ((top_of t k).greatest ≡ 0)) }
{
    let steps = no_top(alloc, places)?;
    let tasks = no_top(alloc, places)?;
    let scopes = no_top(alloc, places)?;
    let binds = no_top(alloc, places)?;
    Ok(Tops {
        steps,
        tasks,
        scopes,
        binds,
    })
}

/// The budget of a resource that has this greatest sum.
fn budget_from(resource: Resource, top: &Top) -> u32
    requires { top.now.greatest ≤ most resource }
    ensures { result ≡ own_of resource + top.now.greatest }
{
    own_of(resource) + top.greatest as u32
}

/// The budgets that have these greatest sums.
fn budgets_of(tops: &Tops) -> Budgets
    requires { (k : Resource) → (top_of tops.now k).greatest ≤ most k }
    ensures { (k : Resource) → budget_of result k ≡ own_of k + (top_of tops.now k).greatest }
{
    Budgets {
        steps: budget_from(Resource::Steps, &tops.steps),
        tasks: budget_from(Resource::Tasks, &tops.tasks),
        scopes: budget_from(Resource::Scopes, &tops.scopes),
        binds: budget_from(Resource::Binds, &tops.binds),
    }
}

/// The budgets, found with rows of `N` sums, or `None` if one is over its limit.
fn budgets_by<const N: usize>(
    alloc: Global,
    source: &Source<'_>,
) -> Result<Option<Budgets>, AllocError>
    requires ready { IsLaidFor source.now.earlier.now source.now.code.now source.now.layout.now }
    requires small { N ≤ 17 }
    requires fits { (q : ℕ) → length (names_in source.now.layout.now q) < N }
    ensures { IfOk result (λ o.
        IfSome o (AreMost source.now.earlier.now source.now.code.now)) }
{
    let tables = match Tables::<N>::of(alloc, source)? {
        Some(tables) => tables,
        None => return Ok(None),
    };
    let places = source.code.len();
    let mut tops = no_tops(alloc, places)?;
    for pc in 0..places {
        if !tops.add(source, &tables, pc) {
            return Ok(None);
        }
    }
    Ok(Some(budgets_of(&tops)))
}

/// The budgets of a function in which entries open, or `None` if one is over its limit. The rows
/// are as short as the entries allow.
pub(crate) fn budgets_together(
    alloc: Global,
    source: &Source<'_>,
) -> Result<Option<Budgets>, AllocError>
    requires { IsLaidFor source.now.earlier.now source.now.code.now source.now.layout.now }
    ensures { IfOk result (λ o.
        IfSome o (AreMost source.now.earlier.now source.now.code.now)) }
{
    if source.layout.deepest < 3 {
        return budgets_by::<3>(alloc, source);
    }
    if source.layout.deepest < 5 {
        return budgets_by::<5>(alloc, source);
    }
    budgets_by::<17>(alloc, source)
}
