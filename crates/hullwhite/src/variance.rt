// hull_white_piecewise_variance and transition_variances.

ghost use Rattle.std.specs.Prelude.{◌≡◌, ◌≤◌, length};
ghost use Rattle.terms.specs.Market.{model_in};
ghost use Rattle.hullwhite.specs.Variance.{with_piece, piecewise_variance, step_variance, transition_variances};
ghost use Rattle.hullwhite.specs.laws.Filled.{Filled};

use crate::weight::{Piece, weight};
use floats::Refusal;
use floats::finite::tested;
use floats::max::greater;
use floats::min::lesser;
use terms::market::HullWhite;

// One sigma's piece: nothing where upper ≤ lower; else sigma × sigma × weight is added.
fn with_piece(alpha: f64, piece: Piece, sigma: f64, total: f64, place: u32) -> Result<f64, Refusal>
    ensures { result ≡ with_piece alpha piece.lower piece.upper piece.end sigma total place }
{
    if piece.upper <= piece.lower {
        return Ok(total);
    }
    let w = weight(alpha, piece, place)?;
    let square = tested(sigma * sigma, place)?;
    let more = tested(square * w, place)?;
    tested(total + more, place)
}

// The variance from start to end: each sigma holds until the next time, entry 0 reaches back to the start.
pub fn hull_white_piecewise_variance(
    model: HullWhite<'_>,
    start: f64,
    end: f64,
    place: u32,
) -> Result<f64, Refusal>
    ensures { result ≡ piecewise_variance (model_in model) start end place }
{
    let alpha = model.alpha;
    let times = model.sigma.times;
    if times.is_empty() {
        return Ok(0.0);
    }
    let mut total = 0.0;
    let mut lower = start;
    for (i, sigma) in model.sigma.sigmas.iter().enumerate() {
        let Some(next) = times.get(i + 1) else {
            let last = Piece {
                lower,
                upper: end,
                end,
            };
            return with_piece(alpha, last, *sigma, total, place);
        };
        let piece = Piece {
            lower,
            upper: lesser(end, *next),
            end,
        };
        total = with_piece(alpha, piece, *sigma, total, place)?;
        lower = greater(start, *next);
    }
    Ok(total)
}

// Step k's interval is from k × time_step to that plus time_step.
fn step_variance(model: HullWhite<'_>, time_step: f64, k: u32) -> Result<f64, Refusal>
    ensures { result ≡ step_variance (model_in model) time_step k }
{
    let start = tested((k as f64) * time_step, k)?;
    let end = tested(start + time_step, k)?;
    hull_white_piecewise_variance(model, start, end, k)
}

// The variances of all steps, in front of the row.
pub fn transition_variances(
    model: HullWhite<'_>,
    steps: u32,
    time_step: f64,
    variances: &mut [f64],
) -> Result<(), Refusal>
    requires { steps ≤ length variances.old }
    ensures { Filled (transition_variances (model_in model) steps time_step) result variances.old variances.new }
{
    for k in 0..steps {
        variances[k as usize] = step_variance(model, time_step, k)?;
    }
    Ok(())
}
