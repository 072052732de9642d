// The other refusals of the input.
ghost use Rattle.std.specs.Prelude.{◌≡◌};
ghost use Rattle.places.specs.Places.{whose_order};

use crate::Whose;

// Whose it is by the number alone: 1, 5 to 8, 33 to 35 and 44.
#[tactic(auto, unfolding(crate::specs::Places::whose_order))]
pub fn whose_order(number: u32) -> Whose
    ensures { result ≡ whose_order number }
{
    match number {
        1 => Whose::Steps,
        5 => Whose::Call,
        6 => Whose::Sigma,
        7 | 33 | 35 => Whose::Settlement,
        8 | 34 | 44 => Whose::Pillar,
        _ => Whose::Nobody,
    }
}
