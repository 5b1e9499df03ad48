//! What a column shows.

ghost use Rattle.std.specs.Prelude.{◌≡◌, ◌<◌, ◌^◌};
ghost use Rattle.look_drawing.specs.Present.{AreHeld, Follows, shown};

use crate::present::Present;
use look_names::Names;
use sts_code::Program;
use sts_world::World;

/// The world that a column shows, the world of the column before, the names of the text, the middle
/// of the column, and which tasks and scopes it can show.
#[derive(Clone, Copy)]
pub struct Change<'c, 'n, 't> {
    pub names: &'n Names<'t>,
    pub program: &'c Program,
    pub before: &'c World,
    pub world: &'c World,
    pub x: u128,
    pub present: &'c Present,
    pub ghost near: { x < 2 ^ 127 },
    pub ghost follows: { Follows before.now world.now },
    pub ghost held: { AreHeld world.now },
    pub ghost listed: { present.now ≡ shown before.now world.now },
}
