//! Which calls fail, by their numbers: what the tests of a caller plan. With 1 and 3 listed, the first and the third
//! call fail.

ghost use Rattle.std.specs.Prelude.{◌≡◌, ◌≤◌};
ghost use Rattle.actx_ports.specs.Memory.{counted, is_listed};

use crate::PortFault;

/// The numbers of the calls that fail, counted from 1, with the numbers of calls and of faults so far.
#[derive(Drop)]
pub struct Schedule {
    failing: Vec<u64>,
    calls: u64,
    faults: u64,
}

impl Schedule {
    /// No call was made.
    pub fn new(failing: Vec<u64>) -> Schedule
        ensures { result ≡ record { failing = failing; calls = 0; faults = 0 } }
    {
        Schedule {
            failing,
            calls: 0,
            faults: 0,
        }
    }

    /// Counts a call, and says whether its number is listed.
    pub fn call(&mut self) -> bool
        ensures listed { result ≡ is_listed self.old.failing.items (counted self.old.calls) }
        ensures calls { self.new ≡ record self.old { calls = counted self.old.calls } }
    {
        self.calls = self.calls.saturating_add(1);
        self.failing.contains(&self.calls)
    }

    /// Counts a fault.
    pub fn fault(&mut self) -> PortFault
        ensures answer { result ≡ PortFault.Failed }
        ensures faults { self.new ≡ record self.old { faults = counted self.old.faults } }
        ensures later { self.old.faults ≤ self.new.faults }
    {
        self.faults = self.faults.saturating_add(1);
        PortFault::Failed
    }
}
