//! Values, code units and traces: what a run computes with and what is seen of it, as `add(2, 3)` is `Some(5)`.
#![tactic(auto)]

mod end;
mod event;
mod faults;
mod number;
mod shown;
mod trace;
mod twin;
mod units;
mod value;

pub use end::End;
pub use event::Event;
pub use faults::NoMemory;
pub use number::{add, mul, number_text, sub};
pub use shown::{ErrorName, Shown};
pub use trace::{JobKind, TraceEvent};
pub use twin::{Twin, copy_all};
pub use units::{Units, join};
pub use value::Value;

#[cfg(test)]
mod tests;
