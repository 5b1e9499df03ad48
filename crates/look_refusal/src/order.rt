//! The order of the places by what they add. The weightiest one comes first. If two add the same, the
//! earlier place comes first.

ghost use Rattle.std.specs.Prelude.{◌≡◌, ◌<◌, length, IfSome};
ghost use Rattle.look_refusal.specs.Order as def;
ghost use Rattle.look_refusal.specs.Weights as weights;

/// How many places are shown at most.
const SHOWN: usize = 50;

/// Does the place `one` add more than `this`, or the same and comes before it?
fn is_weightier(shares: &[u128], this: usize, one: usize) -> bool
    requires this { this < length shares.now }
    requires one { one < length shares.now }
    ensures { result ≡ weights.is_weightier shares.now this one }
{
    shares[this] < shares[one] || (shares[one] == shares[this] && one < this)
}

/// Does a place come after the `last` one in the order? If there is none, each place does.
pub(crate) fn comes_after(shares: &[u128], last: Option<usize>, place: usize) -> bool
    requires last { IfSome last (λ x. x < length shares.now) }
    requires place { place < length shares.now }
    ensures { result ≡ def.comes_after shares.now last place }
{
    match last {
        None => true,
        Some(last) => is_weightier(shares, place, last),
    }
}

/// Does a place come before the `next` one in the order? If there is none, each place does.
fn comes_before(shares: &[u128], next: Option<usize>, place: usize) -> bool
    requires next { IfSome next (λ x. x < length shares.now) }
    requires place { place < length shares.now }
    ensures { result ≡ def.comes_before shares.now next place }
{
    match next {
        None => true,
        Some(next) => is_weightier(shares, next, place),
    }
}

/// Returns the first of the places that come after the `last` one.
fn next_after(shares: &[u128], last: Option<usize>) -> Option<usize>
    requires { IfSome last (λ x. x < length shares.now) }
    ensures { def.IsNext shares.now last (length shares.now) result }
{
    let mut next = None;
    for place in 0..shares.len() {
        if comes_after(shares, last, place) && comes_before(shares, next, place) {
            next = Some(place);
        }
    }
    next
}

/// Returns the last place whose rank lets it be shown; `None` if there is no place.
pub(crate) fn last_shown(shares: &[u128]) -> Option<usize>
    ensures { def.IsLastShown shares.now result }
{
    let mut last = None;
    for _ in 0..SHOWN {
        match next_after(shares, last) {
            Some(next) => last = Some(next),
            None => return last,
        }
    }
    last
}
