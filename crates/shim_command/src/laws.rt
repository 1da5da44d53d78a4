// Laws of the table of modes.
ghost use Rattle.std.specs.Prelude.{◌≡◌, Some};
ghost use Rattle.clap.specs.Words.{Text};
ghost use Rattle.shim_command.specs.declared.mode.Mode.{Mode};
ghost use Rattle.shim_command.specs.Modes.{mode_named, row_of};

/// The word of a mode asks for that mode, so no two modes have one word; and no other word asks for it.
pub fn a_word_asks_for_its_mode()
    ensures asks { (mode : Mode) → mode_named (row_of mode).word ≡ Some mode }
    ensures only { (word : Text) (mode : Mode) → mode_named word ≡ Some mode → word ≡ (row_of mode).word }
{}
