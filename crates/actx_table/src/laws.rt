//! The laws of the step table. A law's function does nothing: its contract is the law.

ghost use Rattle.std.specs.Prelude.{List};
ghost use Rattle.actx_data.specs.declared.event.Event.{Event};
ghost use Rattle.actx_grammar.specs.declared.side.Side.{Side};
ghost use Rattle.actx_grammar.specs.declared.side.Side.TheVariants.{Source, Plain};
ghost use Rattle.actx_grammar.specs.Tree.{Stmts};
ghost use Rattle.actx_match.specs.Matching.{WithinFactor};
ghost use Rattle.actx_match.specs.Runs.{IsOrderly};
ghost use Rattle.actx_match.specs.Traced.{rank_by};
ghost use Rattle.actx_table.specs.Laws.{Laws, Begins};
ghost use Rattle.actx_table.specs.Low.{low};
ghost use Rattle.actx_table.specs.Machine.{step};
ghost use Rattle.actx_table.specs.Meaning.{see, goes, shows, Same};
ghost use Rattle.actx_table.specs.PreludeState.{begun};
ghost use Rattle.actx_table.specs.Taken.{IsTaken};
ghost use Rattle.actx_table.specs.Weight.{source_cost};

/// A step of either machine leaves what is seen of a run as it is, writes one event, or ends the run and writes none.
pub fn a_step_writes_one_event()
    ensures { (side : Side) → IsOrderly (rank_by goes) (step side) see }
{}

/// What each function of the prelude does, over every heap and every frame below: how `get` finds the value in place,
/// that `run` puts the old mapping back after a value and after a throw, what a new variable is, and which calls throw or
/// leave the profile.
pub fn prelude_keeps_the_mapping()
    ensures { Laws }
{}

/// The prelude's own list leaves a store that these laws speak of, and nothing is seen of it.
pub fn prelude_begins()
    ensures { Begins begun }
{}

/// The run of a program whose forms are all taken and the run of its emitted program match in both directions, trace and
/// end, for every list of host events.
pub fn source_and_target_match()
    ensures { (p : Stmts) → IsTaken p → Same p (low p) }
{}

/// What a program shows after some steps, its emitted program shows after at most 1,024 times the weights of these steps.
pub fn emitted_work_is_bounded()
    ensures { (p : Stmts) → IsTaken p → (events : List Event) → WithinFactor 1024 (shows Source p events) (shows Plain (low p) events) (source_cost p events) (λ m. m) }
{}
