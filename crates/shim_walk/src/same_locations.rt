// When two lists of locations are the same.
ghost use Rattle.std.specs.Prelude.{◌≡◌, ◌↔◌, IsTrue};
ghost use Rattle.shim_locations.specs.Ownerships.{ownership_of};

use shim_locations::location::Location;
use shim_locations::ownership::Ownership;
use shim_units_equality::Same;

fn same_ownership(one: Ownership, other: Ownership) -> bool
    ensures { IsTrue result ↔ (ownership_of one ≡ ownership_of other) }
{
    one == other
}

fn same_location(one: &Location, other: &Location) -> bool
    ensures { IsTrue result ↔ (one.now ≡ other.now) }
{
    one.ty() == other.ty()
        && one.value() == other.value()
        && same_ownership(one.ownership(), other.ownership())
        && one.chan().same(other.chan())
}

// Whether both are empty, or both have the same location.
fn same_option(one: &Option<Location>, other: &Option<Location>) -> bool
    ensures { IsTrue result ↔ (one.now ≡ other.now) }
{
    match (one, other) {
        (None, None) => true,
        (Some(location), Some(other)) => same_location(location, other),
        _ => false,
    }
}

/// Whether the two lists of locations are the same, one by one.
pub fn same_locations(one: &[Option<Location>], other: &[Option<Location>]) -> bool
    ensures { IsTrue result ↔ (one.now ≡ other.now) }
{
    let mut remainder = other;
    for location in one {
        let Some((first, rest)) = remainder.split_first() else {
            return false;
        };
        if !same_option(location, first) {
            return false;
        }
        remainder = rest;
    }
    remainder.is_empty()
}
