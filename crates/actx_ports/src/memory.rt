//! Files and a sink in memory, whose listed calls fail: what tests of a caller hand it.
//! `MemoryCabinet::new(files, failing)` fails at each call whose number is listed.

ghost use Rattle.std.specs.Prelude.{◌≡◌, ◌<◌, ◌≤◌, ◌++◌, ◌↔◌, ◌||◌, ◌&&◌, ◌==◌, not, ℕ, List, length, min, take, drop, Option, Some, None, is_none, is_err, OnOk, OnErr, IfOk, IsErrOf, IsTrue, [], if◌then◌else◌};
ghost use Rattle.actx_ports.specs.Ports.{Rose, Gives};
ghost use Rattle.actx_ports.specs.Memory.{held_in, held_on, left_on, name_on, fails_next, after_call, refuses};

use crate::schedule::Schedule;
use crate::shelf::Shelf;
use crate::{Cabinet, PortFault, Sink};
use std::alloc::Global;

/// Files in memory. The calls of `open_file` and `read_some` are numbered together from 1, and those whose numbers are
/// listed fail.
#[derive(Drop)]
pub struct MemoryCabinet {
    shelf: Shelf,
    schedule: Schedule,
}

impl MemoryCabinet {
    /// The files by name, of which none is open, and the numbers of the calls that fail. Of two entries with one name
    /// the first counts. No memory is taken.
    pub fn new(files: Vec<(String, Vec<u8>)>, failing: Vec<u64>) -> MemoryCabinet
        ensures held { (n : List ℕ) → held_on result.shelf n ≡ held_in files.items n }
        ensures left { left_on result.shelf ≡ [] }
        ensures named { name_on result.shelf ≡ [] }
        ensures schedule { result.schedule ≡ record { failing = failing; calls = 0; faults = 0 } }
    {
        MemoryCabinet {
            shelf: Shelf::new(files),
            schedule: Schedule::new(failing),
        }
    }
}

impl Cabinet for MemoryCabinet {
    ghost held = { λ c n. held_on c.shelf n };

    ghost left = { λ c. Some (left_on c.shelf) };

    ghost open_name = { λ c. name_on c.shelf };

    ghost faults = { λ c _. c.schedule.faults };

    /// Errors: `Failed`, exactly where the number of the call is listed or no file has the name.
    fn open_file(&mut self, name: &str) -> Result<(), PortFault>
        ensures held { (n : List ℕ) → held_on self.new.shelf n ≡ held_on self.old.shelf n }
        ensures named { OnOk result (name_on self.new.shelf ≡ name.now) }
        ensures whole { OnOk result (held_on self.old.shelf name.now ≡ Some (left_on self.new.shelf)) }
        ensures refused { OnErr result (self.new.shelf ≡ self.old.shelf) }
        ensures later { self.old.schedule.faults ≤ self.new.schedule.faults }
        ensures cause { IsErrOf result PortFault.Failed → Rose self.old.schedule.faults self.new.schedule.faults }
        ensures fails { is_err result ≡ (fails_next self.old.schedule || is_none (held_on self.old.shelf name.now)) }
        ensures fault { OnErr result (IsErrOf result PortFault.Failed) }
        ensures counts { self.new.schedule ≡ after_call self.old.schedule (is_err result) }
    {
        if self.schedule.call() {
            return Err(self.schedule.fault());
        }
        if self.shelf.open(name) {
            Ok(())
        } else {
            Err(self.schedule.fault())
        }
    }

    /// Gives as many bytes as are left and the buffer takes.
    ///
    /// Errors: `Failed`, exactly where the number of the call is listed.
    fn read_some(&mut self, buffer: &mut [u8]) -> Result<usize, PortFault>
        requires { 0 < length buffer.old }
        ensures held { (n : List ℕ) → held_on self.new.shelf n ≡ held_on self.old.shelf n }
        ensures named { name_on self.new.shelf ≡ name_on self.old.shelf }
        ensures count { IfOk result (λ n. n ≡ min (length (left_on self.old.shelf)) (length buffer.old)) }
        ensures bytes { IfOk result (λ n. Gives n buffer.new (left_on self.old.shelf) (Some (left_on self.new.shelf))) }
        ensures refused { OnErr result (self.new.shelf ≡ self.old.shelf) }
        ensures later { self.old.schedule.faults ≤ self.new.schedule.faults }
        ensures cause { IsErrOf result PortFault.Failed → Rose self.old.schedule.faults self.new.schedule.faults }
        ensures fails { is_err result ≡ fails_next self.old.schedule }
        ensures fault { OnErr result (IsErrOf result PortFault.Failed) }
        ensures counts { self.new.schedule ≡ after_call self.old.schedule (is_err result) }
    {
        if self.schedule.call() {
            return Err(self.schedule.fault());
        }
        Ok(self.shelf.give(buffer))
    }
}

/// Bytes in memory, written a piece at a time. The calls of `write_some` are numbered from 1, and those whose numbers
/// are listed fail.
#[derive(Drop)]
pub struct MemorySink {
    bytes: Vec<u8>,
    piece: usize,
    schedule: Schedule,
}

impl MemorySink {
    /// Nothing is written. The numbers are those of the calls that fail, and a call takes at most `piece` bytes, so that
    /// with the piece 0 each write of a piece that isn't empty fails. No memory is taken.
    pub fn new(alloc: Global, failing: Vec<u64>, piece: usize) -> MemorySink
        ensures written { result.bytes.items ≡ [] }
        ensures piece { result.piece ≡ piece }
        ensures schedule { result.schedule ≡ record { failing = failing; calls = 0; faults = 0 } }
    {
        MemorySink {
            bytes: Vec::new(alloc),
            piece,
            schedule: Schedule::new(failing),
        }
    }

    /// The bytes written.
    pub fn written(&self) -> &[u8]
        ensures { result.now ≡ self.now.bytes.items }
    {
        self.bytes.as_slice()
    }
}

impl Sink for MemorySink {
    ghost written = { λ s. Some s.bytes.items };

    ghost faults = { λ s. s.schedule.faults };

    /// Takes as many bytes as there are, up to the greatest piece.
    ///
    /// Errors: `Failed`, exactly where the number of the call is listed, or the piece is 0 and there are bytes;
    /// `NoMemory`, only where there is a byte to take.
    fn write_some(&mut self, bytes: &[u8]) -> Result<usize, PortFault>
        ensures count { IfOk result (λ n. n ≡ min (length bytes.now) self.old.piece) }
        ensures bytes { IfOk result (λ n. self.new.bytes.items ≡ self.old.bytes.items ++ take n bytes.now) }
        ensures refused { OnErr result (self.new.bytes.items ≡ self.old.bytes.items) }
        ensures piece { self.new.piece ≡ self.old.piece }
        ensures later { self.old.schedule.faults ≤ self.new.schedule.faults }
        ensures cause { IsErrOf result PortFault.Failed → Rose self.old.schedule.faults self.new.schedule.faults }
        ensures fails { IsErrOf result PortFault.Failed ↔ IsTrue (refuses self.old.schedule self.old.piece (length bytes.now)) }
        ensures memory { IsErrOf result PortFault.NoMemory → 0 < min (length bytes.now) self.old.piece }
        ensures counts { self.new.schedule ≡ after_call self.old.schedule (refuses self.old.schedule self.old.piece (length bytes.now)) }
    {
        let listed = self.schedule.call();
        let n = bytes.len().min(self.piece);
        if listed || (n == 0 && !bytes.is_empty()) {
            return Err(self.schedule.fault());
        }
        self.bytes.extend_from_slice(&bytes[..n])?;
        Ok(n)
    }
}
