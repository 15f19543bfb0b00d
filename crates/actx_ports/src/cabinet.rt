//! Files by name, of which one is open. After `files.open_file("a.js")?` each `files.read_some(&mut buffer)?` gives the
//! next bytes of `a.js`, and 0 at its end.

ghost use Rattle.std.specs.Prelude.{◌≡◌, ◌<◌, ◌≤◌, ℕ, List, length, Option, Some, OnOk, OnErr, IfOk, IsErrOf};
ghost use Rattle.actx_ports.specs.Ports.{Rose, Gives};

use crate::PortFault;

/// Files by name, of which one is open. At first the open file has the empty text as its name, and no byte left.
pub trait Cabinet {
    /// The bytes held under a name, where they are told.
    ghost held: { Self → List ℕ → Option (List ℕ) };

    /// The bytes of the open file that are left, where they are told.
    ghost left: { Self → Option (List ℕ) };

    /// The name of the open file.
    ghost open_name: { Self → List ℕ };

    /// How often the file of a name has failed.
    ghost faults: { Self → List ℕ → ℕ };

    /// Makes the named file the open one, from its first byte. A refused call leaves the open file as it was.
    ///
    /// Errors: `Failed`, only where the count of the name rose; `NoMemory`.
    fn open_file(&mut self, name: &str) -> Result<(), PortFault>
        ensures held { (n : List ℕ) → held self.new n ≡ held self.old n }
        ensures named { OnOk result (open_name self.new ≡ name.now) }
        ensures whole { OnOk result ((bs : List ℕ) → held self.old name.now ≡ Some bs → left self.new ≡ Some bs) }
        ensures refused { OnErr result ((open_name self.new ≡ open_name self.old) × (left self.new ≡ left self.old)) }
        ensures later { (n : List ℕ) → faults self.old n ≤ faults self.new n }
        ensures cause { IsErrOf result PortFault.Failed → Rose (faults self.old name.now) (faults self.new name.now) };

    /// Puts the next bytes of the open file into the front of the buffer and answers how many; 0 is the end of input.
    /// A refused call leaves the open file and what is left of it as they were.
    ///
    /// Errors: `Failed`, only where the count of the open file's name rose; `NoMemory`.
    fn read_some(&mut self, buffer: &mut [u8]) -> Result<usize, PortFault>
        requires { 0 < length buffer.old }
        ensures bound { IfOk result (λ n. n ≤ length buffer.old) }
        ensures held { (n : List ℕ) → held self.new n ≡ held self.old n }
        ensures named { open_name self.new ≡ open_name self.old }
        ensures bytes { IfOk result (λ n. (bs : List ℕ) → left self.old ≡ Some bs → Gives n buffer.new bs (left self.new)) }
        ensures refused { OnErr result (left self.new ≡ left self.old) }
        ensures later { (n : List ℕ) → faults self.old n ≤ faults self.new n }
        ensures cause { IsErrOf result PortFault.Failed → Rose (faults self.old (open_name self.old)) (faults self.new (open_name self.old)) };
}
