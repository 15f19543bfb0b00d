//! Whole files and whole texts, over any cabinet and sink: `write_whole(&mut sink, b"done\n")?` writes the five bytes.

ghost use Rattle.std.specs.Prelude.{◌≡◌, ◌≤◌, ℕ, List, length, take, Some, OnOk, IfOk, IsErrOf, vec_len};
ghost use Rattle.actx_ports.specs.Ports.{Rose, AddsPart, AddsAll};

use crate::{Cabinet, PortFault, Sink};
use std::alloc::Global;

/// The greatest number of bytes that are asked for at once.
const PIECE: usize = 65_536;

/// The first bytes of a file, at most as many as the limit. The file is opened and is the open one afterwards. Each read
/// gives a byte at least, or is the last.
///
/// Errors: `Failed`, only where the count of the name rose; `NoMemory`.
pub fn read_whole<C: Cabinet>(
    alloc: Global,
    files: &mut C,
    name: &str,
    limit: usize,
) -> Result<Vec<u8>, PortFault>
    ensures bytes { IfOk result (λ v. (bs : List ℕ) → C.held files.old name.now ≡ Some bs → v.items ≡ take limit bs) }
    ensures within { IfOk result (λ v. vec_len v ≤ limit) }
    ensures held { (n : List ℕ) → C.held files.new n ≡ C.held files.old n }
    ensures named { OnOk result (C.open_name files.new ≡ name.now) }
    ensures later { (n : List ℕ) → C.faults files.old n ≤ C.faults files.new n }
    ensures cause { IsErrOf result PortFault.Failed → Rose (C.faults files.old name.now) (C.faults files.new name.now) }
{
    files.open_file(name)?;
    let mut memory = vec![in alloc; 0u8; limit.min(PIECE)]?;
    let buffer = memory.as_mut_slice();
    let mut text = Vec::new(alloc);
    while text.len() < limit {
        let room = (limit - text.len()).min(buffer.len());
        let n = files.read_some(&mut buffer[..room])?;
        if n == 0 {
            break;
        }
        text.extend_from_slice(&buffer[..n])?;
    }
    Ok(text)
}

/// Writes all of the bytes, or some first part of them and answers why no more. Each write takes a byte at least, or is
/// the last.
///
/// Errors: `Failed`, only where the count rose; `NoMemory`.
pub fn write_whole<S: Sink>(sink: &mut S, bytes: &[u8]) -> Result<(), PortFault>
    ensures all { OnOk result (AddsAll (S.written sink.old) bytes.now (S.written sink.new)) }
    ensures part { AddsPart (S.written sink.old) bytes.now (S.written sink.new) }
    ensures later { S.faults sink.old ≤ S.faults sink.new }
    ensures cause { IsErrOf result PortFault.Failed → Rose (S.faults sink.old) (S.faults sink.new) }
{
    let mut at = 0;
    while at < bytes.len() {
        let n = sink.write_some(&bytes[at..])?;
        at += n;
    }
    Ok(())
}
