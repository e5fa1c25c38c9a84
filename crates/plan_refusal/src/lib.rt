// What a test comes to. Every test answers so, as every test of the model answers an `Option Answer`. Assumes nothing.
#![tactic(auto)]

ghost use Rattle.std.specs.Prelude.{◌≡◌};
ghost use Rattle.model.specs.Tests.{or_else};
ghost use Rattle.model.specs.declared.Answer.TheVariants.{Done};
ghost use Rattle.plan_refusal.specs.Found.{found};

use model::Answer;

// Nothing was found, or what answers it.
pub type Tested = Result<(), Answer>;

// The answer of a job in which just this was found.
#[tactic(auto, unfolding(model::specs::Tests::or_else))]
pub fn answer(tested: Tested) -> Answer
    ensures { result ≡ or_else (found tested) Done }
{
    match tested {
        Ok(()) => Answer::Done,
        Err(told) => told,
    }
}
