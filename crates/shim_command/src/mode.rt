// The modes. What each of them is called, reads and does stands in one row, and no other function asks for
// the mode.
ghost use Rattle.std.specs.Prelude.{◌≡◌};
ghost use Rattle.shim_command.specs.Modes.{mode_named, named_among, row_of, row_view};
ghost use Rattle.shim_command.specs.declared.mode.Extra.TheVariants as besides;
ghost use Rattle.shim_command.specs.declared.mode.Origin.TheVariants as origins;

/// What the word MODE asks for.
#[derive(Clone, Copy, Debug, PartialEq, Eq)]
pub enum Mode {
    Run,
    Reference,
    Check,
    Code,
    Gen,
    Up,
    Trace,
    Replay,
    Why,
    Batch,
}

/// Where the text of a source comes from.
#[derive(Clone, Copy, Debug, PartialEq, Eq)]
pub enum Origin {
    /// FILE is the name of its file.
    Stored,
    /// FILE is the word of a kind, of which a text is generated.
    Generated,
}

/// What is read beside the source.
#[derive(Clone, Copy, Debug, PartialEq, Eq)]
pub enum Extra {
    Nothing,
    /// The bytes that the run takes in, where an option names their file.
    Input,
    /// The bytes of `Input`, and then those of a journal, whose file an option has to name.
    InputAndJournal,
    /// The bytes of each file that INPUT names; one run takes in each.
    Inputs,
}

/// What is printed of a source that isn't run.
#[derive(Clone, Copy, Debug, PartialEq, Eq)]
pub enum Description {
    /// How many functions it has.
    Functions,
    /// The instructions that it is compiled to.
    Instructions,
    /// The text of its program in version 2.
    Version2,
}

/// Which run of a source is done.
#[derive(Clone, Copy, Debug, PartialEq, Eq)]
pub enum Course {
    /// The meaning itself: each time the first event that is enabled.
    ByFirstEvents,
    /// Some run, whichever events the workers do first.
    InSomeOrder,
}

/// What is printed of a run.
#[derive(Clone, Copy, Debug, PartialEq, Eq)]
pub enum Showing {
    Report,
    Summary,
}

/// What is done with a source that is accepted.
#[derive(Clone, Copy, Debug, PartialEq, Eq)]
pub enum Task {
    /// Something is printed of it, and nothing is run.
    Describes(Description),
    /// It is run, and something is printed of how that ended.
    Runs(Course, Showing),
    /// Its meaning is printed, and of a blocked one who waits for whom.
    Explains,
    /// It is run by workers, and the journal of what they did is printed.
    Records,
    /// It is run as a journal records it, and the report of that is printed.
    Replays,
    /// It is run by workers once on each input, and the reports of these runs are printed in order.
    RunsEach,
}

/// What a mode is.
#[derive(Clone, Copy)]
pub struct ModeRow {
    /// The word that asks for it.
    pub word: &'static str,
    pub origin: Origin,
    pub beside: Extra,
    pub task: Task,
}

/// All modes, in the order in which a word is looked up.
const MODES: [Mode; 10] = [
    Mode::Run,
    Mode::Reference,
    Mode::Check,
    Mode::Code,
    Mode::Gen,
    Mode::Up,
    Mode::Trace,
    Mode::Replay,
    Mode::Why,
    Mode::Batch,
];

// The row of a mode whose source is read from its file.
fn stored(word: &'static str, beside: Extra, task: Task) -> ModeRow
    ensures { row_view result ≡ record { word = word.entry.now; origin = origins.Stored; beside = beside; task = task } }
{
    ModeRow {
        word,
        origin: Origin::Stored,
        beside,
        task,
    }
}

// The row of a mode whose source is generated, and which reads nothing.
fn generated(word: &'static str, task: Task) -> ModeRow
    ensures { row_view result ≡ record { word = word.entry.now; origin = origins.Generated; beside = besides.Nothing; task = task } }
{
    ModeRow {
        word,
        origin: Origin::Generated,
        beside: Extra::Nothing,
        task,
    }
}

impl Mode {
    /// The row of the mode in the table of modes.
    pub fn row(self) -> ModeRow
        ensures { row_view result ≡ row_of self }
    {
        match self {
            Mode::Run => stored(
                "run",
                Extra::Input,
                Task::Runs(Course::InSomeOrder, Showing::Report),
            ),
            Mode::Reference => stored(
                "ref",
                Extra::Input,
                Task::Runs(Course::ByFirstEvents, Showing::Report),
            ),
            Mode::Check => stored(
                "check",
                Extra::Nothing,
                Task::Describes(Description::Functions),
            ),
            Mode::Code => stored(
                "code",
                Extra::Nothing,
                Task::Describes(Description::Instructions),
            ),
            Mode::Gen => generated("gen", Task::Runs(Course::InSomeOrder, Showing::Summary)),
            Mode::Up => stored("up", Extra::Nothing, Task::Describes(Description::Version2)),
            Mode::Trace => stored("trace", Extra::Input, Task::Records),
            Mode::Replay => stored("replay", Extra::InputAndJournal, Task::Replays),
            Mode::Why => stored("why", Extra::Input, Task::Explains),
            Mode::Batch => stored("batch", Extra::Inputs, Task::RunsEach),
        }
    }

    /// The mode that a word asks for.
    #[tactic(auto, unfolding(crate::specs::Modes::mode_named))]
    pub fn named(word: &str) -> Option<Mode>
        ensures { result ≡ mode_named word.now }
    {
        named_among(&MODES, word)
    }
}

// The first of these modes that a word asks for.
fn named_among(modes: &[Mode], word: &str) -> Option<Mode>
    ensures { result ≡ named_among modes.now word.now }
{
    for mode in modes {
        if word == mode.row().word {
            return Some(*mode);
        }
    }
    None
}
