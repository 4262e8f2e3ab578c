#![tactic(auto)]

ghost use Rattle.std.specs.Prelude.{◌≡◌};
ghost use Rattle.model.specs.Outcome.{refusal_number};

use model::Refusal;

// The number of a refusal in documents 01 and 02.
#[tactic(auto, unfolding(model::specs::Outcome::refusal_number))]
pub fn refusal_number(r: Refusal) -> u32
    ensures { result ≡ refusal_number r }
{
    r as u32
}
