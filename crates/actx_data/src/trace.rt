//! What a run writes.

ghost use Rattle.std.specs.Prelude.{◌≡◌, IfOk};

use super::{NoMemory, Shown, Twin, Units};
use std::alloc::Global;

/// The kinds of job (ECMA-262, 9.5).
#[derive(Clone, Copy, Debug, Drop, PartialEq, Eq)]
pub enum JobKind {
    Fulfil,
    Reject,
    Resume,
    Raise,
    Thenable,
    SpanEnd,
    Micro,
    Host,
}

/// One event of a trace.
#[derive(Debug, Drop, PartialEq, Eq)]
pub enum TraceEvent {
    /// A printed line, without its end.
    Out(Units),
    Start,
    Job(JobKind, Shown),
    /// The answer of the k-th variable's `get`.
    Get(u64, Shown),
    Begin { id: u64, parent: u64, name: Units },
    Finish { id: u64, ok: bool },
}

impl Twin for TraceEvent {
    ghost same = { λ a b. a ≡ b };

    /// Errors: `NoMemory`, where a text or a shown value can't be copied.
    fn copy(&self, alloc: Global) -> Result<TraceEvent, NoMemory> {
        Ok(match self {
            TraceEvent::Out(line) => TraceEvent::Out(line.copy(alloc)?),
            TraceEvent::Start => TraceEvent::Start,
            TraceEvent::Job(kind, shown) => TraceEvent::Job(*kind, shown.copy(alloc)?),
            TraceEvent::Get(variable, shown) => TraceEvent::Get(*variable, shown.copy(alloc)?),
            TraceEvent::Begin { id, parent, name } => TraceEvent::Begin {
                id: *id,
                parent: *parent,
                name: name.copy(alloc)?,
            },
            TraceEvent::Finish { id, ok } => TraceEvent::Finish { id: *id, ok: *ok },
        })
    }
}
