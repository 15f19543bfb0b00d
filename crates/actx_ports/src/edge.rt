//! The system's files and streams, as a cabinet and a sink that tell no bytes. A program makes them in its `main`:
//! `FileCabinet::new(rt.alloc(), &rt)` and `StdSink::new(rt.stdout())`.

ghost use Rattle.std.specs.Prelude.{◌≡◌, None, [], string_bytes};

use crate::{Cabinet, PortFault, Sink};
use std::alloc::Global;
use std::fs;
use std::io::{ErrorKind, Read, Write};
use std::rt::Files;

/// The files of the system, with one count of faults for all names.
#[derive(Drop)]
pub struct FileCabinet<'a, R: Files> {
    rt: &'a R,
    alloc: Global,
    name: String,
    file: Option<R::File>,
    faults: u64,
}

impl<'a, R: Files> FileCabinet<'a, R> {
    /// No file is open. No memory is taken.
    pub fn new(alloc: Global, rt: &'a R) -> FileCabinet<'a, R>
        ensures named { string_bytes result.name ≡ [] }
        ensures counts { result.faults ≡ 0 }
    {
        FileCabinet {
            rt,
            alloc,
            name: String::new(alloc),
            file: None,
            faults: 0,
        }
    }
}

impl<'a, R: Files> Cabinet for FileCabinet<'a, R> {
    ghost held = { λ _ _. None };

    ghost left = { λ _. None };

    ghost open_name = { λ c. string_bytes c.name };

    ghost faults = { λ c _. c.faults };

    fn open_file(&mut self, name: &str) -> Result<(), PortFault> {
        let copy = String::from_str(self.alloc, name)?;
        match fs::open(self.rt, name) {
            Ok(file) => {
                self.file = Some(file);
                self.name = copy;
                Ok(())
            }
            Err(refused) if refused.kind() == ErrorKind::OutOfMemory => Err(PortFault::NoMemory),
            Err(_) => {
                self.faults = self.faults.saturating_add(1);
                Err(PortFault::Failed)
            }
        }
    }

    fn read_some(&mut self, buffer: &mut [u8]) -> Result<usize, PortFault> {
        let Some(file) = &mut self.file else {
            return Ok(0);
        };
        match file.read(buffer) {
            Ok(n) => Ok(n),
            Err(refused) if refused.kind() == ErrorKind::OutOfMemory => Err(PortFault::NoMemory),
            Err(_) => {
                self.faults = self.faults.saturating_add(1);
                Err(PortFault::Failed)
            }
        }
    }
}

/// A stream of the system.
#[derive(Drop)]
pub struct StdSink<W: Write + Drop> {
    out: W,
    faults: u64,
}

impl<W: Write + Drop> StdSink<W> {
    /// The stream, from where it stands.
    pub fn new(out: W) -> StdSink<W>
        ensures stream { result.out ≡ out }
        ensures counts { result.faults ≡ 0 }
    {
        StdSink { out, faults: 0 }
    }
}

impl<W: Write + Drop> Sink for StdSink<W> {
    ghost written = { λ _. None };

    ghost faults = { λ s. s.faults };

    fn write_some(&mut self, bytes: &[u8]) -> Result<usize, PortFault> {
        if bytes.is_empty() {
            return Ok(0);
        }
        match self.out.write(bytes) {
            Ok(n) if n > 0 => Ok(n),
            Err(refused) if refused.kind() == ErrorKind::OutOfMemory => Err(PortFault::NoMemory),
            _ => {
                self.faults = self.faults.saturating_add(1);
                Err(PortFault::Failed)
            }
        }
    }
}
