//! The amount that each place adds.

ghost use Rattle.std.specs.Prelude.{◌≡◌, ◌+◌, ◌*◌, ◌<◌, ◌≤◌, length, slice_set, get_or};
ghost use Rattle.look_refusal.specs.Trail.{greatest_number};
ghost use Rattle.look_refusal.specs.Walk.{AreParts};

/// The amount that the instruction of each place adds, and their sum.
#[derive(Drop)]
pub struct Shares {
    pub places: Vec<u128>,
    pub total: u128,
}

/// Adds `amount`, `times` times, at a place.
pub(crate) fn add(shares: &mut Shares, place: u32, amount: u128, times: u128)
    requires place { place < length shares.old.places.items }
    requires parts { AreParts shares.old }
    requires fits { shares.old.total + times * amount ≤ greatest_number }
    ensures places { shares.new.places.items ≡ slice_set shares.old.places.items place
        (get_or shares.old.places.items place 0 + times * amount) }
    ensures total { shares.new.total ≡ shares.old.total + times * amount }
    ensures parts { AreParts shares.new }
{
    let more = times * amount;
    let place = place as usize;
    shares.places[place] += more;
    shares.total += more;
}
