// The line that says why a source is refused.
ghost use Rattle.std.specs.Prelude.{◌≡◌, ◌≢◌, IfOk};
ghost use Rattle.shim_parser.specs.declared.ParseFault.TheVariants as faults;
ghost use Rattle.shim_scopes.specs.declared.ScopeFault.TheVariants as scope_faults;
ghost use Rattle.shim_sharing.specs.declared.ShareFault.TheVariants as share_faults;
ghost use Rattle.shim_report.specs.Refusal.{refusal_text, refusal_of, refusal_of_binding, refusal_of_cutting, refusal_of_scope, refusal_of_sharing};

use crate::line::{line_with_name, line_with_place, line_without_place, too_many, two_writers};
use shim_base::{List, Name, NoMemory};
use shim_front_end::SourceFault;
use shim_parser::{LexFault, LexKind, ParseFault};
use shim_scopes::{ScopeFault, ScopeKind};
use shim_sharing::ShareFault;
use std::alloc::Global;

// The line of a text that can't be cut.
fn lexical(alloc: Global, fault: &LexFault) -> Result<List<u8>, NoMemory>
    ensures { IfOk result (λ text. text ≡ refusal_of_cutting fault.now) }
{
    match fault.kind {
        LexKind::BadByte => line_with_place(alloc, fault.line, "bad byte", fault.at),
        LexKind::LongName => line_with_place(alloc, fault.line, "long name", fault.at),
        LexKind::BigNumber => line_with_place(alloc, fault.line, "big number", fault.at),
        LexKind::OpenComment => line_with_place(alloc, fault.line, "open comment", fault.at),
    }
}

// The line of a text that is no program's.
fn parsing(alloc: Global, fault: &ParseFault) -> Result<List<u8>, NoMemory>
    ensures line { IfOk result (λ text. text ≡ refusal_of fault.now) }
    ensures memory { IfOk result (λ text. fault.now ≢ faults.NoMemory) }
{
    match fault {
        ParseFault::Lex(fault) => lexical(alloc, fault),
        ParseFault::Unexpected { at, line } => line_with_place(alloc, *line, "unexpected", *at),
        ParseFault::TooDeep { line } => line_without_place(alloc, *line, "too deep"),
        ParseFault::TooMany { what, line } => too_many(alloc, *line, *what),
        ParseFault::NoMemory => Err(NoMemory),
    }
}

// The line of a name that is refused.
fn binding(alloc: Global, line: u32, kind: ScopeKind, name: &Name) -> Result<List<u8>, NoMemory>
    ensures { IfOk result (λ text. text ≡ refusal_of_binding line kind name.now) }
{
    match kind {
        ScopeKind::UnknownName => line_with_name(alloc, line, "unknown name", name),
        ScopeKind::UnknownFunction => line_with_name(alloc, line, "unknown function", name),
        ScopeKind::UnknownException => line_with_name(alloc, line, "unknown exception", name),
        ScopeKind::Twice => line_with_name(alloc, line, "twice", name),
        ScopeKind::Arity => line_with_name(alloc, line, "arity", name),
        ScopeKind::WrongKind => line_with_name(alloc, line, "wrong kind", name),
        ScopeKind::NoMain => line_without_place(alloc, line, "no main"),
        ScopeKind::MainParameters => line_without_place(alloc, line, "main parameters"),
    }
}

// The line of a program that has no resolved form.
fn scoping(alloc: Global, fault: &ScopeFault) -> Result<List<u8>, NoMemory>
    ensures line { IfOk result (λ text. text ≡ refusal_of_scope fault.now) }
    ensures memory { IfOk result (λ text. fault.now ≢ scope_faults.NoMemory) }
{
    match fault {
        ScopeFault::Refused { line, kind, name } => binding(alloc, *line, *kind, name),
        ScopeFault::NoMemory => Err(NoMemory),
    }
}

// The line of a program that breaks the sharing rule.
fn sharing(alloc: Global, fault: &ShareFault) -> Result<List<u8>, NoMemory>
    ensures line { IfOk result (λ text. text ≡ refusal_of_sharing fault.now) }
    ensures memory { IfOk result (λ text. fault.now ≢ share_faults.NoMemory) }
{
    match fault {
        ShareFault::TwoWriters {
            line,
            name,
            first,
            second,
        } => two_writers(alloc, *line, name, *first, *second),
        ShareFault::Alias { line, name } => line_with_name(alloc, *line, "alias", name),
        ShareFault::NoMemory => Err(NoMemory),
    }
}

/// The line of a fault, with its line feed. Out of memory has no line: it is answered as
/// itself.
pub fn fault_text(alloc: Global, fault: &SourceFault) -> Result<List<u8>, NoMemory>
    ensures line { IfOk result (λ text. text ≡ refusal_text fault.now) }
    ensures memory { IfOk result (λ text. (fault.now ≢ SourceFault.Parse faults.NoMemory) × (fault.now ≢ SourceFault.Scope scope_faults.NoMemory)
        × (fault.now ≢ SourceFault.Share share_faults.NoMemory)) }
{
    match fault {
        SourceFault::Parse(fault) => parsing(alloc, fault),
        SourceFault::Scope(fault) => scoping(alloc, fault),
        SourceFault::Share(fault) => sharing(alloc, fault),
    }
}
