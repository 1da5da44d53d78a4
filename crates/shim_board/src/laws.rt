// What holds of every run, and between any two steps.
ghost use Rattle.std.specs.Prelude.{◌≡◌, ℕ, List, map};
ghost use Rattle.std.specs.declared.snapshot.Snapshot.{Snapshot};
ghost use Rattle.shim_board.specs.declared.board.Board.{Board};
ghost use Rattle.shim_board.specs.declared.chair.Chair.{Chair};
ghost use Rattle.shim_board.specs.Closing.{AreLeft};
ghost use Rattle.shim_board.specs.Kept.{Table};
ghost use Rattle.shim_board.specs.Rule.{Rule, NothingDone, IsOpening};
ghost use Rattle.shim_board.specs.Run.{BoardStep, board_run, one_round, AtMostOnce, NothingLost, WasCollected};
ghost use Rattle.shim_board.specs.contracts.steps.BoardRuleTableRuleContentViewLabelSnapshot.TheImpl as board_rule;

use shim_base::Named;

/// After every list of steps by any chairs in any order, each slot and round was put, claimed, given and
/// collected at most once, what was claimed is what was put, what was collected is what was given, and
/// at most one chair has the turn; and nothing that was put, claimed or given is lost.
pub fn board_run<T, N: Named>()
    ensures once { (net : N) (slots : ℕ) (steps : List (BoardStep T N)) → AtMostOnce (board_run N.name net slots steps) }
    ensures lost { (net : N) (slots : ℕ) (steps : List (BoardStep T N)) → NothingLost (board_run N.name net slots steps) }
{}

/// After the steps of `one_round`, the piece that chair 1 gave into the slot 0 in the round 0 was collected.
pub fn one_round<T, N: Named>()
    ensures { (net : N) (y z : T) → WasCollected (board_run N.name net 1 (one_round y z)) 0 0 z }
{}

/// What the running table keeps between any two of its steps, `BoardRule`, implies the rule of the board.
pub fn rule<T, N: Named>()
    ensures { (key : Snapshot N) (table : Table T N N.Label) → (board_rule.ghosts T.row N.row N.Label.row N.Named board_rule.no_dict).holds key table → Rule N.name (N.name key.value) table }
{}

/// Where no chair has put anything or has the turn, as when a board is new, all slots are EMPTY of round 0
/// and the turn is free.
pub fn opening<T, N: Named>()
    ensures { (key : Snapshot N) (table : Table T N N.Label) → (board_rule.ghosts T.row N.row N.Label.row N.Named board_rule.no_dict).holds key table → NothingDone table.views → IsOpening table }
{}

/// What all chairs put, claimed and collected fixes the slots in which a closed board leaves pieces.
pub fn left_slots<T, N: Named>()
    ensures { (board : Board T N N.Label) (chairs : List (Chair T N N.Label N.Named)) (net other : N) (left others : List (ℕ × T)) → AreLeft board chairs net left → AreLeft board chairs other others → map (λ p. p.0) left ≡ map (λ p. p.0) others }
{}
