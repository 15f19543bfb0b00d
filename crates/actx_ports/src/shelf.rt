//! Files in memory, of which one may be open. Of two entries with one name the first counts.

ghost use Rattle.std.specs.Prelude.{◌≡◌, ◌<◌, ◌≤◌, ◌++◌, ℕ, List, [], length, min, take, drop, Some, None, is_some};
ghost use Rattle.std.specs.Bool.{OnTrue, OnFalse};
ghost use Rattle.std.specs.Vec.{vec_allocator};
ghost use Rattle.actx_ports.specs.Ports.{Gives};
ghost use Rattle.actx_ports.specs.Memory.{held_in, left_in, place_of, held_on, left_on, name_on};

use std::alloc::Global;

/// Files in memory, with the place of the open one and the number of its bytes that were read.
#[derive(Drop)]
pub struct Shelf {
    files: Vec<(String, Vec<u8>)>,
    place: Option<usize>,
    at: usize,
}

impl Shelf {
    /// No file is open.
    pub fn new(files: Vec<(String, Vec<u8>)>) -> Shelf
        ensures { result ≡ record { files = files; place = None; at = 0 } }
    {
        Shelf {
            files,
            place: None,
            at: 0,
        }
    }

    /// The allocator of the files.
    pub fn allocator(&self) -> Global
        ensures { result ≡ vec_allocator self.now.files }
    {
        *self.files.allocator()
    }

    /// Opens the named file from its first byte, or says that there is none.
    pub fn open(&mut self, name: &str) -> bool
        ensures held { (n : List ℕ) → held_on self.new n ≡ held_on self.old n }
        ensures found { result ≡ is_some (held_on self.old name.now) }
        ensures named { OnTrue result (name_on self.new ≡ name.now) }
        ensures whole { OnTrue result (held_on self.old name.now ≡ Some (left_on self.new)) }
        ensures refused { OnFalse result (self.new ≡ self.old) }
    {
        let Some(i) = place(&self.files, name) else {
            return false;
        };
        self.place = Some(i);
        self.at = 0;
        true
    }

    /// Leaves no file open.
    pub fn close(&mut self)
        ensures { self.new ≡ record self.old { place = None } }
    {
        self.place = None;
    }

    /// Puts the next bytes of the open file into the buffer, as many as it takes, and answers how many.
    pub fn give(&mut self, buffer: &mut [u8]) -> usize
        requires { 0 < length buffer.old }
        ensures held { (n : List ℕ) → held_on self.new n ≡ held_on self.old n }
        ensures named { name_on self.new ≡ name_on self.old }
        ensures count { result ≡ min (length (left_on self.old)) (length buffer.old) }
        ensures bytes { Gives result buffer.new (left_on self.old) (Some (left_on self.new)) }
    {
        let n = fill(rest_of(&self.files, self.place, self.at), buffer);
        self.at = self.at.saturating_add(n);
        n
    }
}

/// The place of the first file with the name.
fn place(files: &[(String, Vec<u8>)], name: &str) -> Option<usize>
    ensures { result ≡ place_of files.now name.now }
{
    files.iter().position(|f| f.0.as_str() == name)
}

/// The bytes of the open file that are left.
fn rest_of(files: &[(String, Vec<u8>)], place: Option<usize>, at: usize) -> &[u8]
    ensures { result.now ≡ left_in files.now place at }
{
    let Some(i) = place else {
        return &[];
    };
    let Some(file) = files.get(i) else {
        return &[];
    };
    let bytes = file.1.as_slice();
    if at > bytes.len() {
        return &[];
    }
    &bytes[at..]
}

/// Puts the first bytes into the buffer, as many as it takes.
fn fill(bytes: &[u8], buffer: &mut [u8]) -> usize
    requires { 0 < length buffer.old }
    ensures count { result ≡ min (length bytes.now) (length buffer.old) }
    ensures bytes { bytes.now ≡ take result buffer.new ++ drop result bytes.now }
{
    let n = bytes.len().min(buffer.len());
    buffer[..n].copy_from_slice(&bytes[..n]);
    n
}
