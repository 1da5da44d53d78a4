// What a unit takes of the streams of the process around it.
ghost use Rattle.std.specs.Prelude.{◌≡◌, None, false, if◌then◌else◌};
ghost use Rattle.shim_process.specs.Forks.{is_input, is_output, takes_input, takes_output};

use shim_scopes::UParam;
use shim_syntax::Sort;

fn is_input(sort: &Sort) -> bool
    ensures { result ≡ is_input sort.now }
{
    match sort {
        Sort::Input => true,
        _ => false,
    }
}

fn is_output(sort: &Sort) -> bool
    ensures { result ≡ is_output sort.now }
{
    match sort {
        Sort::Output => true,
        _ => false,
    }
}

/// Whether a unit with these parameters takes the input.
pub fn takes_input(params: &[UParam]) -> bool
    ensures { result ≡ takes_input params.now }
{
    for param in params {
        if is_input(&param.sort) {
            return true;
        }
    }
    false
}

/// Whether a unit with these parameters takes the output.
pub fn takes_output(params: &[UParam]) -> bool
    ensures { result ≡ takes_output params.now }
{
    for param in params {
        if is_output(&param.sort) {
            return true;
        }
    }
    false
}

/// How many bytes of the input were read, for a unit that takes the input, and none for another.
pub fn input_for(params: &[UParam], at: Option<usize>) -> Option<usize>
    ensures { result ≡ if takes_input params.now then at else None }
{
    if takes_input(params) { at } else { None }
}

/// Whether a unit with these parameters has the output: it takes the output, and its parent had it.
pub fn output_for(params: &[UParam], has_output: bool) -> bool
    ensures { result ≡ if takes_output params.now then has_output else false }
{
    if takes_output(params) {
        has_output
    } else {
        false
    }
}
