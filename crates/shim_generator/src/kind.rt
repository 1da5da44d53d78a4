// The kinds of sources, and the words that name them.
ghost use Rattle.std.specs.Prelude.{◌≡◌};
ghost use Rattle.shim_generator.specs.Kinds.{kind_named};

/// The kinds of sources that are made.
#[derive(Clone, Copy, Debug, PartialEq, Eq)]
pub enum Kind {
    /// Three branches in a row, with a value sent from each to the next, again and again.
    Pipe,
    /// Calls that fork in two, down to leaves.
    Tree,
    /// Forks, one after the other, each ended by an exception that is caught.
    Storm,
}

impl Kind {
    /// The kind that a word names.
    #[tactic(auto, unfolding(crate::specs::Kinds::kind_named))]
    pub fn named(word: &[u8]) -> Option<Kind>
        ensures { result ≡ kind_named word.now }
    {
        match word {
            b"pipe" => Some(Kind::Pipe),
            b"tree" => Some(Kind::Tree),
            b"storm" => Some(Kind::Storm),
            _ => None,
        }
    }
}
