// What a process has to do with a channel.
ghost use Rattle.std.specs.Prelude.{◌≡◌, ◌&&◌, [], ◌∷◌, nat_lt, not};
ghost use Rattle.std.specs.Arc.{arc_value};
ghost use Rattle.std.specs.Option.{option_copied};
ghost use Rattle.shim_base.specs.Paths.{same_path};
ghost use Rattle.shim_process.specs.Locations.{own_of, is_on, is_own};
ghost use Rattle.shim_process.specs.Sharers.{is_among};
ghost use Rattle.shim_process.specs.SerialRuns.{is_in_runs};

use crate::location::Location;
use crate::serial_runs::SerialRuns;
use shim_base::{Chan, Path};
use std::sync::Arc;

/// Whether the channel is one of these.
pub fn is_among(given: &[Chan], c: &Chan) -> bool
    ensures { result ≡ is_among c.now.channel given.now }
{
    for one in given {
        if one == c {
            return true;
        }
    }
    false
}

/// Whether the process of this path declared the channel: the path is the channel's home, the serial number is
/// below `made`, and no `try` made the channel for a handler that hasn't taken it.
pub fn declared(home: &Arc<Path>, made: u32, untaken: &SerialRuns, c: &Chan) -> bool
    ensures { result ≡ same_path c.now.channel.home (arc_value home.now) && (nat_lt c.now.channel.serial made && not (is_in_runs c.now.channel.serial untaken.now.runs)) }
{
    *c.home() == **home && c.serial() < made && !untaken.has(c.serial())
}

// Whether the location is the channel's own variable and isn't with a child.
fn is_own(location: &Location, c: &Chan) -> bool
    ensures { result ≡ is_own location.now.ownership && is_on c.now.channel location.now }
{
    location.own() && *location.chan() == *c
}

fn own_in<'a>(location: &'a Option<Location>, c: &Chan) -> Option<&'a Location>
    ensures { option_copied result ≡ own_of c.now.channel (location.now ∷ []) }
{
    match location {
        Some(location) if is_own(location, c) => Some(location),
        _ => None,
    }
}

/// The first location that is the channel's own variable.
pub fn own_of<'a>(locations: &'a [Option<Location>], c: &Chan) -> Option<&'a Location>
    ensures { option_copied result ≡ own_of c.now.channel locations.now }
{
    for location in locations {
        if let Some(location) = own_in(location, c) {
            return Some(location);
        }
    }
    None
}
