//! What takes bytes, a piece at a time. `sink.write_some(b"ab")?` is 1 or 2, the number of bytes that were taken.

ghost use Rattle.std.specs.Prelude.{◌≡◌, ◌≤◌, ◌++◌, ℕ, List, length, take, Option, Some, OnErr, IfOk, IsErrOf};
ghost use Rattle.actx_ports.specs.Ports.{Rose};

use crate::PortFault;

/// What takes bytes, a piece at a time.
pub trait Sink {
    /// The bytes written, where they are told.
    ghost written: { Self → Option (List ℕ) };

    /// How often writing has failed.
    ghost faults: { Self → ℕ };

    /// Takes some first bytes and answers how many: 0 only where there are none. A refused call takes no byte.
    ///
    /// Errors: `Failed`, only where the count rose, and where nothing of a piece that isn't empty is taken;
    /// `NoMemory`.
    fn write_some(&mut self, bytes: &[u8]) -> Result<usize, PortFault>
        ensures bound { IfOk result (λ n. n ≤ length bytes.now) }
        ensures some { IfOk result (λ n. n ≡ 0 → length bytes.now ≡ 0) }
        ensures bytes { IfOk result (λ n. (old : List ℕ) → written self.old ≡ Some old → written self.new ≡ Some (old ++ take n bytes.now)) }
        ensures refused { OnErr result (written self.new ≡ written self.old) }
        ensures later { faults self.old ≤ faults self.new }
        ensures cause { IsErrOf result PortFault.Failed → Rose (faults self.old) (faults self.new) };
}
