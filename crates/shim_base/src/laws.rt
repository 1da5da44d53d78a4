// Laws of the definitions.
ghost use Rattle.std.specs.Prelude.{ℕ, List};
ghost use Rattle.shim_base.specs.Cutting.{IsCutOnce};
ghost use Rattle.shim_base.specs.Tokens.{Place};

/// A text is cut into tokens in exactly one way, up to its end or to one fault.
pub fn one_cutting()
    ensures { (place : Place) (bytes : List ℕ) → IsCutOnce place bytes }
{}
