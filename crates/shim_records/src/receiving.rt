// Who is at a channel.
ghost use Rattle.std.specs.Prelude.{◌≡◌};
ghost use Rattle.shim_semantics.specs.Nodes.{is_next};

use shim_base::Chan;
use shim_local::{Local, Stop};

/// Whether the process waits at the channel.
pub fn is_at_channel<L: Local>(process: &L, c: &Chan) -> bool
    ensures { result ≡ is_next (L.ops.stop process.now) c.now.channel }
{
    match process.stop() {
        Stop::Next(own) => *own == *c,
        Stop::Quiet
        | Stop::Put
        | Stop::Fork
        | Stop::Finish
        | Stop::Throw(_)
        | Stop::Trapped(_, _) => false,
    }
}
