//! The line of what waits to run: jobs first, then host events (ECMA-262, 9.5).

ghost use Rattle.std.specs.Prelude.{◌≡◌, [], ◌++◌, ◌∷◌, IfOk, OnOk, OnErr};
ghost use Rattle.std.specs.List.{AllZip};
ghost use Rattle.actx_agent.specs.Line.{next_of, rest_of};

use actx_data::{Event, NoMemory, Twin};
use std::alloc::Global;
use std::collections::VecDeque;
use std::marker::Model;

/// What comes next.
#[derive(Drop)]
pub enum Next<J> {
    Job(J),
    Host(Event),
    /// No job waits and no event is left.
    Nothing,
}

/// The jobs that wait, and the host events that are left.
#[derive(Drop)]
pub struct Line<J> {
    jobs: VecDeque<J>,
    events: VecDeque<Event>,
}

impl<J> Model for Line<J> {
    ghost use Rattle.actx_agent.specs.Waiting.{Waiting};

    ghost Value = { Waiting J };

    ghost view = { λ l. record { jobs = l.jobs.items; events = l.events.items } };
}

impl<J: Drop> Line<J> {
    /// A line with these events and no job; no memory is taken.
    pub fn new(alloc: Global, events: Vec<Event>) -> Line<J>
        ensures { result ≡ record { jobs = []; events = events.items } }
    {
        Line {
            jobs: VecDeque::new(alloc),
            events: VecDeque::from(events),
        }
    }

    /// Puts a job behind all that wait. Where there is no memory, nothing changes.
    pub fn queue(&mut self, job: J) -> Result<(), NoMemory>
        ensures queued { OnOk result (self.new ≡ record self.old { jobs = self.old.jobs ++ job ∷ [] }) }
        ensures kept { OnErr result (self.new ≡ self.old) }
    {
        self.jobs.push_back(job)?;
        Ok(())
    }

    /// Takes the first job; where none waits, the first event; `Nothing` exactly where both lists are empty. No memory
    /// is taken.
    pub fn next(&mut self) -> Next<J>
        ensures first { result ≡ next_of self.old.jobs self.old.events }
        ensures rest { self.new ≡ rest_of self.old.jobs self.old.events }
    {
        if let Some(job) = self.jobs.pop_front() {
            return Next::Job(job);
        }
        match self.events.pop_front() {
            Some(event) => Next::Host(event),
            None => Next::Nothing,
        }
    }
}

/// The same items once more, in order.
fn twins_of<T: Twin + Drop>(alloc: Global, items: &VecDeque<T>) -> Result<VecDeque<T>, NoMemory>
    ensures { IfOk result (λ twins. AllZip T.same twins.items items.now.items) }
{
    let mut twins = VecDeque::with_capacity(alloc, items.len())?;
    for i in 0..items.len() {
        let twin = items[i].copy(alloc)?;
        twins.push_back(twin)?;
    }
    Ok(twins)
}

impl<J: Twin + Drop> Twin for Line<J> {
    ghost use Rattle.actx_agent.specs.Waiting.{WaitingSame};

    ghost same = { λ a b. WaitingSame J.same a b };

    /// Errors: `NoMemory`, where a job or an event can't be copied.
    fn copy(&self, alloc: Global) -> Result<Line<J>, NoMemory> {
        let jobs = twins_of(alloc, &self.jobs)?;
        let events = twins_of(alloc, &self.events)?;
        Ok(Line { jobs, events })
    }
}
