// Names among others, and counts.
ghost use Rattle.std.specs.Prelude.{◌≡◌};
ghost use Rattle.std.specs.Option.{option_copied};
ghost use Rattle.shim_scopes.specs.Functions.{name_in};
ghost use Rattle.shim_scopes.specs.State.{IsNumber};

use shim_base::Name;
use shim_syntax::word::is_same;

// The name, where it is among those of `seen`.
pub fn find_in<'a>(seen: &[Name], name: &'a Name) -> Option<&'a Name>
    ensures { option_copied result ≡ name_in seen.now name.now }
{
    match seen.iter().find(|other| is_same(other, name)) {
        Some(_) => Some(name),
        None => None,
    }
}

// A count as a number of the tree.
pub fn number(count: usize) -> u32
    requires { IsNumber count }
    ensures { result ≡ count }
{
    count as u32
}
