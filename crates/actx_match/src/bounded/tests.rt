//! The law of bounded simulations at one of them: a clock, and one that is a step ahead.

ghost use Rattle.std.specs.Prelude.{◌≡◌, ◌+◌};
ghost use Rattle.std.proofs.Common.{arith, refl, ap, inr};
ghost use Rattle.actx_match.specs.Matching.{Moved};

use super::{BoundedSimulation, bounded_match};

/// A clock and a copy of it that is one ahead, of which one less is seen, and which takes as many steps.
struct Ahead;

impl BoundedSimulation for Ahead {
    type Source = u64;

    type Target = u64;

    type Seen = u64;

    ghost rank = { λ n. n };

    ghost source_step = { λ n. n + 1 };

    ghost target_step = { λ n. n + 1 };

    ghost see = { λ n. n + 1 };

    ghost look = { λ n. n };

    ghost related = { λ _ s t. t ≡ s + 1 };

    ghost measure = { λ _ _. 0 };

    ghost factor = { 1 };

    ghost weight = { λ _. 1 };

    ghost price = { λ _. 1 };

    fn laws_follow() {}

    ghost source_orderly = { λ s. inr refl };

    ghost target_orderly = { λ s. inr refl };

    ghost simulates = { record { same = λ credit s t r. r; steps = λ credit s t r. record { count = 1; left = credit; kept = ap (λ n. n + 1) r; goes_on = Moved (Prim.omega arith); within = Prim.omega arith } } };
}

#[test]
fn a_clock_is_within_the_bound_of_one_that_is_ahead() {
    bounded_match::<Ahead>();
}
