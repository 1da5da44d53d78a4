// Laws of what the tool prints.
ghost use Rattle.std.specs.Prelude.{Option};
ghost use Rattle.shim_command.specs.declared.job.Job.{Job};
ghost use Rattle.shim_results.specs.Answer.{Answer};
ghost use Rattle.shim_tool.specs.Answer.{Answers};
ghost use Rattle.shim_tool.specs.Moments.{FilesAt};
ghost use Rattle.shim_tool.specs.Prepared.{Completes, Prepared, Prepares};

pub use shim_results::laws::{batches_end_by_all, functions_are_counted, stopped_runs_begin_alike};

/// What `prepare` comes to, with the run done that it left, is what the whole call answers.
pub fn what_is_prepared_is_answered()
    ensures { (ask : Option Job) (before now : FilesAt) (p : Prepared) (a : Answer) → Prepares ask before now p → Completes p a → Answers ask before now a }
{}
