// Laws of reading.
ghost use Rattle.std.specs.Prelude.{ℕ, List, Result};
ghost use Rattle.shim_syntax.specs.declared.Program.{Program};
ghost use Rattle.shim_syntax.specs.Printing.{canonical};
ghost use Rattle.shim_syntax.specs.Text.{IsText};
ghost use Rattle.shim_parser.specs.declared.fault.ParseFault.{ParseFault};
ghost use Rattle.shim_parser.specs.Parsing.{ParsesAs, IsOnly, IsReadBack};

/// If a program has a text, the clauses of `parse` allow two answers to what is printed of the program: the
/// same program but for lines, or `NoMemory`.
pub fn printed_text_is_read_back()
    ensures { (bytes : List ℕ) (p : Program) (result : Result Program ParseFault) → IsText bytes p
        → ParsesAs (canonical p) result → IsOnly (canonical p) result → IsReadBack p result }
{}
