//! The names that a text gives to instructions and functions.

ghost use Rattle.std.specs.Prelude.{◌≡◌, ◌≤◌, ◌<◌, ◌++◌, ◌∷◌, [], List, ℕ, length, OnOk, OnErr};
ghost use Rattle.std.specs.Prelude.{Some, None, if◌then◌else◌, slice_set};
ghost use Rattle.std.specs.Option.{option_copied};
ghost use Rattle.std.specs.Str.{bytes_eq};
ghost use Rattle.sts_asm.specs.Buckets.{with_byte, mixed, bucket_of, first_of, other_of, told_by};
ghost use Rattle.sts_asm.specs.Marks.{Mark, marked, label_in, function_in};

use std::alloc::{AllocError, Global};
use std::collections::BTreeMap;
use std::marker::Model;

/// A name and the number of what it names.
#[derive(Drop)]
struct Mark<'a> {
    name: &'a [u8],
    at: u32,
}

impl<'a> Model for Mark<'a> {
    ghost use Rattle.sts_asm.specs.Marks.{Mark};

    ghost Value = { Mark };

    ghost view = { λ m. record { name = m.name.now; at = m.at } };
}

/// How many buckets the names are spread over.
const BUCKETS: usize = 1024;

/// Mixes one byte more into the number of a name.
fn with_byte(mixed: u16, byte: u8) -> u16
    ensures { result ≡ with_byte mixed byte }
{
    mixed.wrapping_mul(67).wrapping_add(u16::from(byte))
}

/// A number that all bytes of a name are mixed into.
fn mixed(name: &[u8]) -> u16
    ensures { result ≡ mixed name.now }
{
    let mut mixed = 0;
    for byte in name {
        mixed = with_byte(mixed, *byte);
    }
    mixed
}

/// The bucket of a name.
fn bucket_of(name: &[u8]) -> usize
    ensures { result ≡ bucket_of name.now }
{
    usize::from(mixed(name)) % BUCKETS
}

/// Makes the buckets that are not there yet.
fn fill(firsts: &mut Vec<Option<u32>>) -> Result<(), AllocError>
    ensures same { (i : ℕ) → first_of firsts.new.items i ≡ first_of firsts.old.items i }
    ensures all { OnOk result (BUCKETS ≤ length firsts.new.items) }
{
    if firsts.len() < BUCKETS {
        firsts.resize(BUCKETS, None)?;
    }
    Ok(())
}

/// The place of a bucket's first name.
fn first_of(firsts: &[Option<u32>], bucket: usize) -> Option<u32>
    ensures { result ≡ first_of firsts.now bucket }
{
    match firsts.get(bucket) {
        Some(first) => *first,
        None => None,
    }
}

/// Adds a name to the list.
fn push_mark<'a>(list: &mut Vec<Mark<'a>>, name: &'a [u8], at: u32) -> Result<(), AllocError>
    ensures ok { OnOk result (list.new.items ≡
        list.old.items ++ record { name = name.now; at = at } ∷ []) }
    ensures err { OnErr result (list.new.items ≡ list.old.items) }
{
    list.reserve(1)?;
    list.push_reserved(Mark { name, at });
    Ok(())
}

/// Adds a name to the list, as the first of its bucket.
fn push_first<'a>(
    list: &mut Vec<Mark<'a>>,
    firsts: &mut Vec<Option<u32>>,
    bucket: usize,
    name: &'a [u8],
    at: u32,
) -> Result<(), AllocError>
    requires { bucket < length firsts.old.items }
    ensures list { OnOk result (list.new.items ≡
        list.old.items ++ record { name = name.now; at = at } ∷ []) }
    ensures first { OnOk result (firsts.new.items ≡
        slice_set firsts.old.items bucket (Some (length list.old.items))) }
    ensures same_list { OnErr result (list.new.items ≡ list.old.items) }
    ensures same_firsts { OnErr result (firsts.new.items ≡ firsts.old.items) }
{
    let Ok(place) = u32::try_from(list.len()) else {
        return Err(AllocError);
    };
    push_mark(list, name, at)?;
    firsts[bucket] = Some(place);
    Ok(())
}

/// Adds a name to the list and to the map.
fn push_other<'a>(
    list: &mut Vec<Mark<'a>>,
    others: &mut BTreeMap<&'a [u8], u32>,
    name: &'a [u8],
    at: u32,
) -> Result<(), AllocError>
    ensures list { OnOk result (list.new.items ≡
        list.old.items ++ record { name = name.now; at = at } ∷ []) }
    ensures map { OnOk result ((q : List ℕ) → other_of others.new q ≡
        (if bytes_eq name.now q then Some at else other_of others.old q)) }
    ensures same_list { OnErr result (list.new.items ≡ list.old.items) }
    ensures same_map { OnErr result ((q : List ℕ) →
        other_of others.new q ≡ other_of others.old q) }
{
    list.reserve(1)?;
    others.insert(name, at)?;
    list.push_reserved(Mark { name, at });
    Ok(())
}

/// What the first name of a bucket says of a name, or else the map.
fn told_by(first: Option<&Mark<'_>>, others: &BTreeMap<&[u8], u32>, name: &[u8]) -> Option<u32>
    ensures { result ≡ told_by (option_copied first.entry) others.now name.now }
{
    match first {
        Some(mark) if mark.name == name => Some(mark.at),
        _ => others.get(name).copied(),
    }
}

/// Names in the order of the text. A name is compared with the first of its bucket. The names that
/// aren't the first of theirs are in one ordered map. If a bucket has n names, a look-up makes about
/// log n comparisons.
#[derive(Drop)]
pub struct Marks<'a> {
    list: Vec<Mark<'a>>,
    firsts: Vec<Option<u32>>,
    others: BTreeMap<&'a [u8], u32>,
}

impl<'a> Model for Marks<'a> {
    ghost use Rattle.std.specs.Prelude.{List};
    ghost use Rattle.sts_asm.specs.Marks.{Mark};
    ghost use Rattle.sts_asm.specs.Buckets.{AreFound};

    ghost Value = { List Mark };

    ghost view = { λ l. l.list.items };

    ghost invariant = { λ l. AreFound l.list.items l.firsts.items l.others };
}

impl<'a> Marks<'a> {
    /// No name yet.
    pub fn new(alloc: Global) -> Marks<'a>
        ensures { result ≡ [] }
    {
        Marks {
            list: Vec::new(alloc),
            firsts: Vec::new(alloc),
            others: BTreeMap::new(alloc),
        }
    }

    /// The place or function that this name names.
    pub fn find(&self, name: &[u8]) -> Option<u32>
        ensures { result ≡ marked self.now name.now }
    {
        let place = first_of(self.firsts.as_slice(), bucket_of(name))?;
        told_by(self.list.get(place as usize), &self.others, name)
    }

    /// Adds a new name.
    ///
    /// # Errors
    ///
    /// Memory ran out; the marks are as they were.
    pub fn push_new(&mut self, name: &'a [u8], at: u32) -> Result<(), AllocError>
        requires { marked self.old name.now ≡ None }
        ensures ok { OnOk result (self.new ≡ self.old ++ record { name = name.now; at = at } ∷ []) }
        ensures err { OnErr result (self.new ≡ self.old) }
    {
        fill(&mut self.firsts)?;
        let bucket = bucket_of(name);
        if first_of(self.firsts.as_slice(), bucket).is_some() {
            return push_other(&mut self.list, &mut self.others, name, at);
        }
        push_first(&mut self.list, &mut self.firsts, bucket, name, at)
    }

    fn push_again(&mut self, name: &'a [u8], at: u32) -> Result<(), AllocError>
        requires { ¬ (marked self.old name.now ≡ None) }
        ensures ok { OnOk result (self.new ≡ self.old ++ record { name = name.now; at = at } ∷ []) }
        ensures err { OnErr result (self.new ≡ self.old) }
    {
        push_mark(&mut self.list, name, at)
    }

    /// Adds a name. If the marks have the name already, it keeps its first meaning.
    ///
    /// # Errors
    ///
    /// Memory ran out; the marks are as they were.
    pub fn push(&mut self, name: &'a [u8], at: u32) -> Result<(), AllocError>
        ensures ok { OnOk result (self.new ≡ self.old ++ record { name = name.now; at = at } ∷ []) }
        ensures err { OnErr result (self.new ≡ self.old) }
    {
        if self.find(name).is_none() {
            self.push_new(name, at)
        } else {
            self.push_again(name, at)
        }
    }
}

/// The names that are known: the labels of one function, and the functions of the text.
#[derive(Drop)]
pub struct Names<'t, 'a> {
    labels: &'t Marks<'a>,
    functions: &'t Marks<'a>,
}

impl<'t, 'a> Model for Names<'t, 'a> {
    ghost use Rattle.sts_asm.specs.Marks.{Names};

    ghost Value = { Names };

    ghost view = { λ n. record { labels = n.labels.now; functions = n.functions.now } };
}

impl<'t, 'a> Names<'t, 'a> {
    /// The labels of a function, and the functions of the text.
    pub fn new(labels: &'t Marks<'a>, functions: &'t Marks<'a>) -> Names<'t, 'a>
        ensures { result ≡ record { labels = labels.now; functions = functions.now } }
    {
        Names { labels, functions }
    }

    fn label(&self, name: &[u8]) -> Option<u32>
        ensures { result ≡ marked self.now.labels name.now }
    {
        self.labels.find(name)
    }

    fn function(&self, name: &[u8]) -> Option<u32>
        ensures { result ≡ marked self.now.functions name.now }
    {
        self.functions.find(name)
    }
}

/// The instruction that a label names. Before names are known, every label counts as known.
pub fn label_in(names: Option<&Names<'_, '_>>, name: &[u8]) -> Option<u32>
    ensures { result ≡ label_in (option_copied names.entry) name.now }
{
    match names {
        None => Some(0),
        Some(names) => names.label(name),
    }
}

/// The function that a name names. Before names are known, every name counts as known.
pub fn function_in(names: Option<&Names<'_, '_>>, name: &[u8]) -> Option<u32>
    ensures { result ≡ function_in (option_copied names.entry) name.now }
{
    match names {
        None => Some(0),
        Some(names) => names.function(name),
    }
}
