// Laws of the machine.
ghost use Rattle.std.specs.Prelude.{◌≡◌, ◌≤◌, ℕ, ℤ, ◌+◌, ◌-◌, ◌*◌, ◌++◌, List, length, Some};
ghost use Rattle.shim_base.specs.Paths.{NamedChannel};
ghost use Rattle.shim_local.specs.Process.{AtFork, AtNext, AtPut, AtThrow};
ghost use Rattle.shim_scopes.specs.declared.tree.UExpr.{UExpr};
ghost use Rattle.shim_scopes.specs.declared.tree.UParam.{UParam};
ghost use Rattle.shim_units.specs.Numbering.{size_all};
ghost use Rattle.shim_units.specs.declared.form.Form.{Form};
ghost use Rattle.shim_units.specs.declared.unit.Arg.{Arg};
ghost use Rattle.shim_units.specs.declared.unit.UStmt.{UStmt};
ghost use Rattle.shim_process.specs.Arguments.{arguments};
ghost use Rattle.shim_process.specs.Todo.{Item, Successor, followed, items_all};
ghost use Rattle.shim_process.specs.LocalState.{ExceptionPlace, LocalState};
ghost use Rattle.shim_process.specs.Ends.{gone};
ghost use Rattle.shim_process.specs.Steps.{done, line_of, next_action};
ghost use Rattle.shim_walk_frames.specs.Pieces.{left_all};
ghost use Rattle.shim_code.specs.declared.machine_instr.MachineInstr.{MachineInstr};
ghost use Rattle.shim_code.specs.declared.machine_instr.Mark.{Mark as MarkOf};
ghost use Rattle.shim_code.specs.declared.machine_instr.MachineInstr.TheVariants.{End, Mark};
ghost use Rattle.shim_code.specs.MachineCode.{machine_args, machine_stmts, machine_unit};
ghost use Rattle.shim_machine.specs.Machine.{CodedUnit, Codes, Machine, ReturnPlace, fetch, machine, run_code, unit_of};
ghost use Rattle.shim_machine.specs.Correspondence.{AtStatement, Handles, HasAt, IsPlaceOf, IsRestOf, Returns, IsCodeOf, Corresponds};
ghost use Rattle.shim_process.specs.Stops.{put_value, stop, thrown_value};
ghost use Rattle.shim_process.specs.Unwinding.{exception_place_in, unwind};
ghost use Rattle.shim_machine.specs.Unwinds.{unwinds};
ghost use Rattle.shim_process.specs.Forks.{all_arguments, item_branches};
ghost use Rattle.shim_machine.specs.Forking.{DoesFork, JoinsAt};
ghost use Rattle.shim_machine.specs.StackHeights.{HasHeight, height_after, height_at};
ghost use Rattle.shim_machine.specs.MarkStops.{place_stop};
ghost use Rattle.shim_machine.specs.CodeRuns.{EvaluatesArguments, Runs};
ghost use Rattle.shim_machine.specs.Simulation.{AreCodesOf, AreBounded, ComesToMark, ComesFrom, Does, DoesPut, DoesThrow, HasHalted, MeetsAt, NextSuits, room, step_room};
ghost use Rattle.shim_machine.specs.SamePlaces.{ComesToPlace, DoesTo, GoOnAlike};

/// The code of an expression gives its value, or its trap, wherever it stands.
pub fn expressions()
    ensures { (codes : Codes) (e : UExpr) → Runs codes e }
{}

/// Where the code of what follows a statement stands, the machine comes to the mark at which the
/// process stands then, past the ends of `try` blocks and of called units, in so many instructions at
/// most.
pub fn resuming()
    ensures { (codes : Codes) (most line pc : ℕ) (handlers : List ℕ) (back : List ReturnPlace) (successor : Successor) (l : LocalState) → AreBounded codes most → IsRestOf (codes l.frame.unit).body l.frame.todo → Handles (codes l.frame.unit) handlers l.frame.places → Returns codes back l.callers → IsCodeOf (codes l.frame.unit) pc (followed successor l.frame.todo) → ComesToMark codes (room most (length l.callers)) (machine pc handlers back line l) (gone successor l) }
{}

/// Where the code of some statements stands, what is to be done for them stands, with their numbers.
pub fn entering()
    ensures { (u : CodedUnit) (ss : List UStmt) (pc n : ℕ) (k : List Item) → HasAt u n pc (machine_stmts u.units ss pc) → IsCodeOf u (pc + length (machine_stmts u.units ss pc)) k → IsCodeOf u pc (items_all ss n ++ k) }
{}

/// At the start of a unit's code is the mark of the statement with which the unit begins, or its end.
pub fn a_unit_begins_at_its_start()
    ensures { (u : CodedUnit) → u.code ≡ machine_unit u.units u.body → AtStatement u 0 (items_all u.body 0) }
{}

/// Where there is one for each parameter, the code of the arguments of a call or a branch gathers them
/// as they are computed from the left, or traps as the first does that has no value.
pub fn arguments_are_gathered()
    ensures { (codes : Codes) (params : List UParam) (args : List Arg) → length args ≡ length params → (m : Machine) (n : ℕ) → HasAt (unit_of codes m) n m.pc (machine_args params args m.pc) → EvaluatesArguments codes m (m.pc + length (machine_args params args m.pc)) (arguments m.state.locations m.state.frame.slots params args) }
{}

/// One step of the machine from a mark is what the statement there asks for: it comes to the mark at
/// which the process stands then, or traps as the process does. At a statement that isn't quiet this says nothing.
pub fn one_step()
    ensures { (codes : Codes) (most : ℕ) (l : LocalState) (pc : ℕ) (handlers : List ℕ) (back : List ReturnPlace) → AreCodesOf codes l.program → AreBounded codes most → NextSuits l.frame.todo l → Corresponds codes pc handlers back l → Does codes (step_room most (length l.callers)) (machine (pc + 1) handlers back (line_of l.frame.todo) l) (next_action l) l }
{}

/// A stretch of code that has come to its end comes to the same with a larger bound.
pub fn a_larger_bound()
    ensures { (codes : Codes) (n more : ℕ) (m : Machine) → n ≤ more → HasHalted (run_code codes n m) → run_code codes more m ≡ run_code codes n m }
{}

/// At each mark of a unit's code stands what is left of the unit's text from the mark's number on, with
/// the first part done where the mark is a second one.
pub fn a_mark_has_its_place()
    ensures { (u : CodedUnit) → u.code ≡ machine_unit u.units u.body → (pc : ℕ) (m : MarkOf) → fetch u pc ≡ Some (Mark m) → IsPlaceOf u pc (left_all u.body m.number) m.halfway }
{}

/// The end of a unit has the number after that of the unit's last statement.
pub fn an_end_has_the_last_number()
    ensures { (u : CodedUnit) → u.code ≡ machine_unit u.units u.body → (pc n : ℕ) → fetch u pc ≡ Some (End n) → n ≡ size_all u.body }
{}

/// The mark at its place says at what a process is.
pub fn a_mark_decides_the_stop()
    ensures { (u : CodedUnit) (pc : ℕ) (l : LocalState) → IsPlaceOf u pc l.frame.todo l.frame.halfway → stop l ≡ place_stop u pc l }
{}

/// From the mark of a `put` the machine comes to the instruction that puts the value, and from after it
/// to the next mark, or it traps as the expression does.
pub fn put()
    ensures { (codes : Codes) (most : ℕ) (l : LocalState) (pc : ℕ) (handlers : List ℕ) (back : List ReturnPlace) → AreBounded codes most → Corresponds codes pc handlers back l → stop l ≡ AtPut → DoesPut codes (room most (length l.callers)) (machine (pc + 1) handlers back (line_of l.frame.todo) l) (put_value l) l }
{}

/// From the mark of a throw the machine comes to the instruction that throws the exception of its label with
/// the number, or it traps as the expression does.
pub fn throw()
    ensures { (codes : Codes) (most : ℕ) (l : LocalState) (pc : ℕ) (handlers : List ℕ) (back : List ReturnPlace) (label : ℕ) → AreBounded codes most → Corresponds codes pc handlers back l → stop l ≡ AtThrow label → DoesThrow codes (room most (length l.callers)) (machine (pc + 1) handlers back (line_of l.frame.todo) l) label (thrown_value l) l }
{}

/// After the mark of a rendezvous is the slot that it is on, and from after that the machine comes to where
/// the process is after the rendezvous.
pub fn receive()
    ensures { (codes : Codes) (most : ℕ) (l : LocalState) (pc : ℕ) (handlers : List ℕ) (back : List ReturnPlace) (c : NamedChannel) → AreBounded codes most → Corresponds codes pc handlers back l → stop l ≡ AtNext c → MeetsAt codes (room most (length l.callers)) pc handlers back l }
{}

/// Where the exception of a label is in force, the machine goes on at its handler and comes to where the
/// process stands that has caught it.
pub fn unwind()
    ensures { (codes : Codes) (most line : ℕ) (l : LocalState) (pc : ℕ) (handlers : List ℕ) (back : List ReturnPlace) (label : ℕ) (v : ℤ) (p : ExceptionPlace) → AreBounded codes most → Corresponds codes pc handlers back l → exception_place_in l.frame (label - l.base) l.callers ≡ Some p → ComesFrom codes (room most (length l.callers)) (unwinds back handlers (label - l.base) line v l.callers l.frame l) (unwind l label v) }
{}

/// From the mark of a fork the machine comes to the fork of the branches that it gathered, which makes
/// the children that the definition says, or it traps as the first argument does that has no value.
pub fn fork()
    ensures { (codes : Codes) (most : ℕ) (l : LocalState) (pc : ℕ) (handlers : List ℕ) (back : List ReturnPlace) → AreCodesOf codes l.program → AreBounded codes most → NextSuits l.frame.todo l → Corresponds codes pc handlers back l → stop l ≡ AtFork → DoesFork codes (room most (length l.callers)) (machine (pc + 1) handlers back (line_of l.frame.todo) l) (all_arguments l (item_branches l.frame.todo)) l }
{}

/// The code after the fork's mark says what comes back of what the branches of a fork took, and where the
/// process goes on after the fork.
pub fn join()
    ensures { (u : CodedUnit) (l : LocalState) (pc : ℕ) → IsPlaceOf u pc l.frame.todo l.frame.halfway → stop l ≡ AtFork → JoinsAt u pc l }
{}

/// Each place of a unit's code has its height of the stack, by whatever way it is come to: one pass over the
/// code finds it, an instruction finds as many numbers as it works on, and where it leads to there are
/// as many as it leaves.
pub fn each_place_has_its_height()
    ensures { (u : CodedUnit) → u.code ≡ machine_unit u.units u.body → (pc : ℕ) (i : MachineInstr) → fetch u pc ≡ Some i → HasHeight u pc i × (height_at u (pc + 1) ≡ height_after (height_at u pc) i) }
{}

/// The bound `room` of a unit and its callers is their number times one more than `most`, the bound on the
/// instructions of a unit's code.
pub fn room_is_a_product()
    ensures { (most callers : ℕ) → room most callers ≡ (callers + 1) * (most + 1) }
{}

/// In the code of a program a state determines the place of its process: all that correspond to one state are at
/// one mark, or at the end of the unit. The places of their handlers and callers lead to the same marks;
/// the places themselves may differ, since a jump to a mark may be in place of the mark. A process that runs meets
/// the premises where it keeps `Corresponds` of its own places over `codes_of` its program.
pub fn a_state_has_one_place()
    ensures { (codes : Codes) (program : Form) (l : LocalState) (pc pc' : ℕ) (handlers handlers' : List ℕ) (back back' : List ReturnPlace) → AreCodesOf codes program → Corresponds codes pc handlers back l → Corresponds codes pc' handlers' back' l → (pc ≡ pc') × GoOnAlike codes l handlers back handlers' back' }
{}

/// Where the machine comes to a state, it comes to the place at which any process stands that is in that
/// state and has its places in the code, and goes on from there alike. So it is of all that `ComesToMark` says.
pub fn the_machine_comes_to_the_place()
    ensures { (codes : Codes) (program : Form) (bound : ℕ) (m : Machine) (l : LocalState) (pc : ℕ) (handlers : List ℕ) (back : List ReturnPlace) → AreCodesOf codes program → ComesToMark codes bound m l → Corresponds codes pc handlers back l → ComesToPlace codes bound m pc handlers back l }
{}

/// From the mark of a state one step of the machine comes to the place at which a process stands that has
/// taken the step that the definition says, and has its places in the code then, or it traps as the process
/// does. The machine may have begun with handlers and callers of its own. At a statement that isn't quiet this
/// says nothing.
pub fn one_step_comes_to_the_place()
    ensures { (codes : Codes) (most : ℕ) (l : LocalState) (pc pc' : ℕ) (handlers handlers' : List ℕ) (back back' : List ReturnPlace) → AreCodesOf codes l.program → AreBounded codes most → NextSuits l.frame.todo l → Corresponds codes pc handlers back l → Corresponds codes pc' handlers' back' (done (next_action l) l) → DoesTo codes (step_room most (length l.callers)) (machine (pc + 1) handlers back (line_of l.frame.todo) l) (next_action l) pc' handlers' back' l }
{}
