// Why a program is refused.
ghost use Rattle.std.specs.Prelude.{◌≡◌};
ghost use Rattle.shim_scopes.specs.declared.fault.ScopeFault.TheVariants as v;

use shim_base::Name;

/// What is wrong at a place. Of several in one statement or branch, apart from the statements and branches
/// in it, the first of these is reported.
#[derive(Clone, Copy, Debug, PartialEq, Eq)]
pub enum ScopeKind {
    /// A variable without a declaration in scope.
    UnknownName,
    UnknownFunction,
    /// An exception that isn't in scope, be it thrown or among the `throws` of a function that is called.
    UnknownException,
    /// A name that one block declares twice, or that two functions have. Also a name that stands twice among
    /// the parameters of one function, or twice in its `throws`.
    Twice,
    /// A call that gives more or fewer arguments than the function takes, whose name is reported.
    Arity,
    /// A name that is bound to something else than is wanted in its place. That is a stream for a number or
    /// the reverse, a stream of the other direction, or, by reference, a variable of another type. An argument
    /// by reference that isn't bare is refused, too, with the name of the parameter.
    WrongKind,
    NoMain,
    /// `main` takes something else than at most one stream of each kind.
    MainParameters,
}

/// Why a program has no resolved form.
#[derive(Debug, Drop, PartialEq, Eq)]
pub enum ScopeFault {
    /// The first place that is refused.
    Refused {
        line: u32,
        kind: ScopeKind,
        name: Name,
    },
    /// Out of memory. This alone may come in place of any other answer.
    NoMemory,
}

impl From<shim_base::NoMemory> for ScopeFault {
    ghost from_gives = { λ _ e. e ≡ v.NoMemory };

    fn from(_error: shim_base::NoMemory) -> ScopeFault {
        ScopeFault::NoMemory
    }
}
