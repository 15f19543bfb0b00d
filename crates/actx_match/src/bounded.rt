//! Simulations with a bound on the target's work, as a counter by halves takes at most twice the steps of one by ones.

ghost use Rattle.std.specs.Prelude.{◌≡◌, ℕ};
ghost use Rattle.actx_match.specs.Runs.{run, cost, IsOrderly};
ghost use Rattle.actx_match.specs.Matching.{Match, WithinFactor};
ghost use Rattle.actx_match.specs.Credit.{SimulatesOn};

/// A simulation whose steps are paid for by the source's weights, some of them ahead.
pub trait BoundedSimulation {
    /// A state of the source.
    type Source;
    /// A state of the target.
    type Target;
    /// What is seen of either.
    type Seen;

    /// How far what is seen has come.
    ghost rank: { Self.Seen → ℕ };
    /// One step of the source.
    ghost source_step: { Self.Source → Self.Source };
    /// One step of the target.
    ghost target_step: { Self.Target → Self.Target };
    /// What is seen of the source.
    ghost see: { Self.Source → Self.Seen };
    /// What is seen of the target.
    ghost look: { Self.Target → Self.Seen };
    /// Which states correspond, at which credit.
    ghost related: { ℕ → Self.Source → Self.Target → Type 0 };
    /// What falls where the target stands still.
    ghost measure: { Self.Source → Self.Target → ℕ };
    /// How many times the source's cost the target's may be.
    ghost factor: { ℕ };
    /// What a step from a state of the source weighs.
    ghost weight: { Self.Source → ℕ };
    /// What a step from a state of the target costs.
    ghost price: { Self.Target → ℕ };

    /// Does nothing: it parts the definitions above from the laws below.
    fn laws_follow();

    ghost source_orderly: { IsOrderly rank source_step see };

    ghost target_orderly: { IsOrderly rank target_step look };

    ghost simulates: { SimulatesOn source_step target_step see look related measure factor weight price };
}

/// The laws of every bounded simulation: states that are related without credit show the same, in both directions, and
/// the target's cost is at most the factor times the source's.
pub fn bounded_match<M: BoundedSimulation>()
    ensures shows { (s : M.Source) (t : M.Target) → M.related 0 s t → Match (λ n. M.see (run M.source_step n s)) (λ m. M.look (run M.target_step m t)) }
    ensures within { (s : M.Source) (t : M.Target) → M.related 0 s t → WithinFactor M.factor (λ n. M.see (run M.source_step n s)) (λ m. M.look (run M.target_step m t)) (λ n. cost M.source_step M.weight n s) (λ m. cost M.target_step M.price m t) }
{}

#[cfg(test)]
mod tests;
