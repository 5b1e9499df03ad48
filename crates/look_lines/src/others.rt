//! How many tasks don't live, and how many scopes are closed.

ghost use Rattle.std.specs.Prelude.{◌≡◌, ◌++◌, OnOk};
ghost use Rattle.std.specs.String.{string_bytes};
ghost use Rattle.look_lines.specs.Lines as def;

use crate::naming::Said;
use look_options::ViewOptions;
use std::fmt::Write;
use sts_world::Records;

/// The number of tasks that don't live.
pub fn resting(records: &Records) -> usize
    ensures value { result ≡ def.resting records.now.tasks }
{
    let mut count = 0;
    for t in 0..records.tasks_born() {
        if !records.lives(t as u32) {
            count += 1;
        }
    }
    count
}

/// The number of scopes that are closed.
pub fn closed(records: &Records) -> usize
    ensures value { result ≡ def.closed records.now.scopes }
{
    let mut count = 0;
    for s in 0..records.scopes_born() {
        if records.phase(s as u32).is_closed() {
            count += 1;
        }
    }
    count
}

/// The word for one, or that for none or several.
fn counted_word(n: usize, one: &'static str, several: &'static str) -> &'static str
    ensures { result.now ≡ def.counted_word n one.now several.now }
{
    if n == 1 { one } else { several }
}

fn others_line(out: &mut String, tasks: usize, scopes: usize) -> Said
    ensures { OnOk result (string_bytes out.new
        ≡ string_bytes out.old ++ def.others_line tasks scopes) }
{
    let after_tasks = counted_word(tasks, " task that doesn't live", " tasks that don't live");
    let after_scopes = counted_word(scopes, " closed scope", " closed scopes");
    writeln!(
        out,
        "not shown: {tasks}{after_tasks}, {scopes}{after_scopes}"
    )
}

/// How many tasks don't live, and how many scopes are closed, if those have no line.
pub fn others(out: &mut String, wanted: ViewOptions, records: &Records) -> Said
    ensures { OnOk result (string_bytes out.new
        ≡ string_bytes out.old ++ def.others wanted records.now) }
{
    if wanted.living {
        others_line(out, resting(records), closed(records))
    } else {
        Ok(())
    }
}
