//! Frames that wait for a value or a completion (ECMA-262, 9.4).

ghost use Rattle.std.specs.Prelude.{◌≡◌, [], ◌∷◌, OnOk, OnErr, IfErr};
ghost use Rattle.actx_suspend.specs.Stack.{Frame, top_of, below_of};

use actx_data::{NoMemory, Twin, copy_all};
use std::alloc::Global;
use std::marker::Model;

/// The frames that wait, seen as the list of them and of marks, the top first.
#[derive(Drop)]
pub struct Stack<F> {
    frames: Vec<F>,
}

impl<F> Model for Stack<F> {
    ghost use Rattle.std.specs.Prelude.{List};
    ghost use Rattle.actx_suspend.specs.Stack.{Entry, entries_of};

    ghost Value = { List (Entry F) };

    ghost view = { λ s. entries_of s.frames.items };
}

impl<F: Drop> Stack<F> {
    /// Nothing waits; no memory is taken.
    pub fn new(alloc: Global) -> Stack<F>
        ensures { result ≡ [] }
    {
        Stack {
            frames: Vec::new(alloc),
        }
    }

    /// Puts a frame on top. Where there is no memory the frame comes back, and nothing changes.
    pub fn push(&mut self, frame: F) -> Result<(), F>
        ensures pushed { OnOk result (self.new ≡ Frame frame ∷ self.old) }
        ensures handed_back { IfErr result (λ f. f ≡ frame) }
        ensures kept { OnErr result (self.new ≡ self.old) }
    {
        if let Err(refused) = self.frames.push(frame) {
            return Err(refused.value);
        }
        Ok(())
    }

    /// Takes the frame on top; `None` exactly where the stack is empty or a mark is on top. No memory is taken.
    pub fn pop(&mut self) -> Option<F>
        ensures top { result ≡ top_of self.old }
        ensures rest { self.new ≡ below_of self.old }
    {
        self.frames.pop()
    }
}

impl<F: Twin + Drop> Twin for Stack<F> {
    ghost use Rattle.actx_suspend.specs.Stack.{StackSame};

    ghost same = { λ a b. StackSame F.same a b };

    /// Errors: `NoMemory`, where a frame can't be copied.
    fn copy(&self, alloc: Global) -> Result<Stack<F>, NoMemory> {
        let frames = copy_all(alloc, self.frames.as_slice())?;
        Ok(Stack { frames })
    }
}
