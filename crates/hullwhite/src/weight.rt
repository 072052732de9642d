// The weight of one sigma's piece of a step: its length, or the decaying integral over it.

ghost use Rattle.std.specs.Prelude.{◌≡◌};
ghost use Rattle.hullwhite.specs.Variance.{no_decay, decaying_weight, weight};

use elementary::exp::exp_at;
use elementary::exp_m1::exp_m1_at;
use floats::Refusal;
use floats::finite::tested;

// The part from lower to upper of a step that ends at `end`.
#[derive(Clone, Copy)]
pub struct Piece {
    pub lower: f64,
    pub upper: f64,
    pub end: f64,
}

// |alpha| < 1e-12.
fn no_decay(alpha: f64) -> bool
    ensures { result ≡ no_decay alpha }
{
    -1.0e-12 < alpha && alpha < 1.0e-12
}

// exp(−2 alpha × (end − upper)) × (−exp_m1(−2 alpha × (upper − lower))) / (2 alpha).
fn decaying_weight(alpha: f64, piece: Piece, place: u32) -> Result<f64, Refusal>
    ensures { result ≡ decaying_weight alpha piece.lower piece.upper piece.end place }
{
    let rate = tested(-2.0 * alpha, place)?;
    let after = tested(piece.end - piece.upper, place)?;
    let left = exp_at(tested(rate * after, place)?, place)?;
    let length = tested(piece.upper - piece.lower, place)?;
    let grown = exp_m1_at(tested(rate * length, place)?, place)?;
    let both = tested(left * -grown, place)?;
    let twice = tested(2.0 * alpha, place)?;
    tested(both / twice, place)
}

// |alpha| < 1e-12 takes upper − lower.
pub fn weight(alpha: f64, piece: Piece, place: u32) -> Result<f64, Refusal>
    ensures { result ≡ weight alpha piece.lower piece.upper piece.end place }
{
    if no_decay(alpha) {
        tested(piece.upper - piece.lower, place)
    } else {
        decaying_weight(alpha, piece, place)
    }
}
