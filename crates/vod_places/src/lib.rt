//! Places in a source, as byte offsets, and the least of those where a rule is offended.
#![tactic(auto)]

ghost use Rattle.std.specs.Prelude.{◌≡◌, ℕ, List, Option, None, Some, MatchOption, if◌then◌else◌};
ghost use Rattle.vod_places.specs.Places.{sooner, least, IsLeast};

/// The sooner of two places, where there are both; else the one that there is.
pub fn sooner_of(first: Option<u32>, second: Option<u32>) -> Option<u32>
    ensures { result ≡ sooner first second }
{
    match (first, second) {
        (Some(first), Some(second)) => Some(first.min(second)),
        (Some(first), None) => Some(first),
        (None, second) => second,
    }
}

/// A place, where a test says so.
pub fn place_where(test: bool, place: u32) -> Option<u32>
    ensures { result ≡ (if test then Some place else None) }
{
    if test { Some(place) } else { None }
}

/// The least place of a list is in it, and no place in it is below; only an empty list has none.
pub fn least_is_least()
    ensures { (places : List ℕ) → IsLeast places (least places) }
{}
