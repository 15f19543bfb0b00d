//! Files and a sink in memory that never fail: a caller of these sees no fault but want of memory.

ghost use Rattle.std.specs.Prelude.{◌≡◌, ◌<◌, ◌≤◌, ◌++◌, ℕ, List, length, min, take, Option, Some, None, OnOk, OnErr, IfOk, IsErrOf, [], unwrap_or};
ghost use Rattle.actx_ports.specs.Ports.{Rose, Gives};
ghost use Rattle.actx_ports.specs.Memory.{held_in, held_on, left_on, steady_held, steady_name};

use crate::shelf::Shelf;
use crate::{Cabinet, PortFault, Sink};
use std::alloc::Global;

/// Files in memory. A name that it wasn't given is an empty file.
#[derive(Drop)]
pub struct SteadyCabinet {
    shelf: Shelf,
    /// The name of the open file, where that is one that the cabinet wasn't given.
    absent: Option<String>,
}

impl SteadyCabinet {
    /// The files by name, of which none is open. Of two entries with one name the first counts. No memory is taken.
    pub fn new(files: Vec<(String, Vec<u8>)>) -> SteadyCabinet
        ensures held { (n : List ℕ) → steady_held result n ≡ unwrap_or (held_in files.items n) [] }
        ensures left { left_on result.shelf ≡ [] }
        ensures named { steady_name result ≡ [] }
    {
        SteadyCabinet {
            shelf: Shelf::new(files),
            absent: None,
        }
    }
}

impl Cabinet for SteadyCabinet {
    ghost held = { λ c n. Some (steady_held c n) };

    ghost left = { λ c. Some (left_on c.shelf) };

    ghost open_name = { λ c. steady_name c };

    ghost faults = { λ _ _. 0 };

    /// Errors: `NoMemory`, only at a name that the cabinet wasn't given.
    fn open_file(&mut self, name: &str) -> Result<(), PortFault>
        ensures held { (n : List ℕ) → steady_held self.new n ≡ steady_held self.old n }
        ensures named { OnOk result (steady_name self.new ≡ name.now) }
        ensures whole { OnOk result (left_on self.new.shelf ≡ steady_held self.old name.now) }
        ensures refused { OnErr result (self.new ≡ self.old) }
        ensures memory { OnErr result (IsErrOf result PortFault.NoMemory × (held_on self.old.shelf name.now ≡ None)) }
    {
        if self.shelf.open(name) {
            self.absent = None;
            return Ok(());
        }
        let copy = String::from_str(self.shelf.allocator(), name)?;
        self.shelf.close();
        self.absent = Some(copy);
        Ok(())
    }

    /// Gives as many bytes as are left and the buffer takes, and never fails.
    fn read_some(&mut self, buffer: &mut [u8]) -> Result<usize, PortFault>
        requires { 0 < length buffer.old }
        ensures held { (n : List ℕ) → steady_held self.new n ≡ steady_held self.old n }
        ensures named { steady_name self.new ≡ steady_name self.old }
        ensures count { result ≡ Ok (min (length (left_on self.old.shelf)) (length buffer.old)) }
        ensures bytes { IfOk result (λ n. Gives n buffer.new (left_on self.old.shelf) (Some (left_on self.new.shelf))) }
    {
        Ok(self.shelf.give(buffer))
    }
}

/// Bytes in memory, taken whole at each write.
#[derive(Drop)]
pub struct SteadySink {
    bytes: Vec<u8>,
}

impl SteadySink {
    /// Nothing is written. No memory is taken.
    pub fn new(alloc: Global) -> SteadySink
        ensures { result.bytes.items ≡ [] }
    {
        SteadySink {
            bytes: Vec::new(alloc),
        }
    }

    /// The bytes written.
    pub fn written(&self) -> &[u8]
        ensures { result.now ≡ self.now.bytes.items }
    {
        self.bytes.as_slice()
    }
}

impl Sink for SteadySink {
    ghost written = { λ s. Some s.bytes.items };

    ghost faults = { λ _. 0 };

    /// Takes all bytes.
    ///
    /// Errors: `NoMemory`, only where there is a byte to take.
    fn write_some(&mut self, bytes: &[u8]) -> Result<usize, PortFault>
        ensures count { IfOk result (λ n. n ≡ length bytes.now) }
        ensures bytes { OnOk result (self.new.bytes.items ≡ self.old.bytes.items ++ bytes.now) }
        ensures refused { OnErr result (self.new.bytes.items ≡ self.old.bytes.items) }
        ensures memory { OnErr result (IsErrOf result PortFault.NoMemory × (0 < length bytes.now)) }
    {
        self.bytes.extend_from_slice(bytes)?;
        Ok(bytes.len())
    }
}
