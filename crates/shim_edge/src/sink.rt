// A sink that takes bytes.
ghost use Rattle.std.specs.Prelude.{◌≡◌, ℕ, ◌≤◌, List, Option, length, IfOk, OnOk, OnErr};
ghost use Rattle.shim_edge.specs.Count.{HasRisen};
ghost use Rattle.shim_edge.specs.Sink.{Takes, TakesAll};

/// Why a sink took nothing.
#[derive(Clone, Copy, Debug, PartialEq, Eq)]
pub enum SinkFault {
    /// The write failed, and the sink counted that.
    Failed,
}

/// A sink that takes bytes, with a count of its failed writes. The count may be a `u64` that saturates: at the
/// end of a `u64` it stays as it is at a failure, and the clause `cause` holds there, too.
pub trait Sink {
    /// The bytes that were taken, where contracts know them.
    ghost taken: { Self → Option (List ℕ) };

    /// How many writes have failed: no other write changes this count.
    ghost faults: { Self → ℕ };

    /// Takes some of the bytes, from the first on, and says how many. At `Failed` none was taken.
    fn write(&mut self, bytes: &[u8]) -> Result<usize, SinkFault>
        requires { 1 ≤ length bytes.now }
        ensures count { IfOk result (λ n. (1 ≤ n) × (n ≤ length bytes.now)) }
        ensures taken { Takes (taken self.old) bytes.now (taken self.new) result }
        ensures uncounted { OnOk result (faults self.new ≡ faults self.old) }
        ensures never_falls { faults self.old ≤ faults self.new }
        ensures cause { OnErr result (HasRisen (faults self.old) (faults self.new)) };
}

/// Writes all of the bytes, and takes no memory. At `Failed` the count of faults rose, if it could. The sink then
/// has taken the bytes from the first on, perhaps none, but not all.
pub fn write_all<K: Sink>(out: &mut K, bytes: &[u8]) -> Result<(), SinkFault>
    ensures taken { TakesAll (K.taken out.old) bytes.now (K.taken out.new) result }
    ensures uncounted { OnOk result (K.faults out.new ≡ K.faults out.old) }
    ensures never_falls { K.faults out.old ≤ K.faults out.new }
    ensures cause { OnErr result (HasRisen (K.faults out.old) (K.faults out.new)) }
{
    let mut at = 0;
    while at < bytes.len() {
        at += out.write(&bytes[at..])?;
    }
    Ok(())
}
