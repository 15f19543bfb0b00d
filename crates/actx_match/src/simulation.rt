//! Simulations, as a counter by ones is simulated by a counter by halves: each of its steps is two of the other's.

ghost use Rattle.std.specs.Prelude.{◌≡◌, ℕ};
ghost use Rattle.actx_match.specs.Runs.{run, IsOrderly};
ghost use Rattle.actx_match.specs.Matching.{Match, Simulates};

/// A simulation of a source machine by a target machine, both deterministic and total.
pub trait Simulation {
    /// A state of the source.
    type Source;
    /// A state of the target.
    type Target;
    /// What is seen of either.
    type Seen;

    /// How far what is seen has come.
    ghost rank: { Self.Seen → ℕ };
    /// One step of the source.
    ghost source_step: { Self.Source → Self.Source };
    /// One step of the target.
    ghost target_step: { Self.Target → Self.Target };
    /// What is seen of the source.
    ghost see: { Self.Source → Self.Seen };
    /// What is seen of the target.
    ghost look: { Self.Target → Self.Seen };
    /// Which states correspond.
    ghost related: { Self.Source → Self.Target → Type 0 };
    /// What falls where the target stands still.
    ghost measure: { Self.Source → Self.Target → ℕ };

    /// Does nothing: it parts the definitions above from the laws below.
    fn laws_follow();

    ghost source_orderly: { IsOrderly rank source_step see };

    ghost target_orderly: { IsOrderly rank target_step look };

    ghost simulates: { Simulates source_step target_step see look related measure };
}

/// The law of every simulation: related states show the same, in both directions.
pub fn related_match<M: Simulation>()
    ensures { (s : M.Source) (t : M.Target) → M.related s t → Match (λ n. M.see (run M.source_step n s)) (λ m. M.look (run M.target_step m t)) }
{}

#[cfg(test)]
mod tests;
