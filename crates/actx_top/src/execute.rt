//! Runs of accepted programs: a program is lowered, printed, parsed again, and what was parsed is run.

ghost use Rattle.std.specs.Prelude.{◌≡◌, [], ℕ, List, IfOk};
ghost use Rattle.actx_top.specs.Accepts.{Takes, ReadsPlain};
ghost use Rattle.actx_ast.specs.View.{program_view};
ghost use Rattle.actx_top.specs.Answers.{most_steps, run_shows};
ghost use Rattle.actx_top.specs.Ending.{Ends};
ghost use Rattle.actx_top.specs.Headline.{emitted};
ghost use Rattle.actx_rules.specs.Low.{low};
ghost use Rattle.actx_rules.specs.Meaning.{target_shows};

use crate::lower::lower;
use crate::read::read_back;
use crate::render::render;
use actx_ast::tree::Program;
use actx_data::{End, NoMemory, Twin};
use actx_emit::emit::emit;
use actx_target::machine::Target;
use std::alloc::Global;

/// What a run has printed, and where it stands.
#[derive(Drop)]
pub struct Run {
    pub lines: Vec<u8>,
    pub end: End,
}

/// The greatest number of steps of a run.
fn most_steps() -> u64
    ensures { result ≡ most_steps }
{
    20_000_000
}

/// The text that is emitted for a program.
///
/// # Errors
///
/// `NoMemory` where memory runs out.
#[tactic(auto, using(crate::proofs::Emitted::takes_on, crate::proofs::Emitted::takes_deep))]
pub fn emitted(alloc: Global, program: &Program) -> Result<Vec<u8>, NoMemory>
    requires { (text : List ℕ) × Takes text (program_view program.now) }
    ensures text { IfOk result (λ text. text.items ≡ emitted (program_view program.now)) }
    ensures reads { IfOk result (λ text. ReadsPlain text.items (low (program_view program.now))) }
{
    let plain = lower(alloc, program)?;
    emit(alloc, &plain)
}

/// The run of a plain program, without host events.
fn run_plain(alloc: Global, plain: &Program) -> Result<Run, NoMemory>
    ensures { IfOk result (λ run. Ends run (target_shows (program_view plain.now) [] most_steps)) }
{
    let mut target = Target::new(alloc, &plain.body, Vec::new(alloc))?;
    target.run(most_steps())?;
    let lines = render(alloc, &target.trace)?;
    let end = target.end.copy(alloc)?;
    Ok(Run { lines, end })
}

/// The run of an accepted program's emitted text.
pub fn execute(alloc: Global, program: &Program) -> Result<Run, NoMemory>
    requires { (text : List ℕ) × Takes text (program_view program.now) }
    ensures { IfOk result (λ run. Ends run (run_shows (program_view program.now))) }
{
    let text = emitted(alloc, program)?;
    let plain = read_back(alloc, &text)?;
    run_plain(alloc, &plain)
}
