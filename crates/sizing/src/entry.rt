// The sizing entry: the terms are checked, then variances and widths; the lent slice is left all zero.

ghost use Rattle.std.specs.Prelude.{◌≡◌, ◌*◌, ◌^◌, ◌≤◌, ◌<◌, length};
ghost use Rattle.std.specs.Float.{binary64};
ghost use Rattle.std.specs.Float.Ieee.{div};
ghost use Rattle.terms.specs.Market.{calls_in, model_in, market_in};
ghost use Rattle.sizing.specs.Sizing.{SizesEntered};
ghost use Rattle.sizing.specs.laws.Sized.{lengths_for, sizes_as, widths_over, widths_at};

use crate::Lengths;
use bondevents::steps::steps_of;
use entrychecks::entries::tree_checks;
use floats::Refusal;
use floats::finite::tested;
use hullwhite::variance::transition_variances;
use terms::curve::{pillar_times, timed_pillars};
use terms::lists::last_day;
use terms::market::{CallSchedule, HullWhite, Market};
use terms::time::year_fraction;
use treebasedbondpricer::zero::zero_numbers;
use widths::tree::{Widths, tree_widths};

// Two places of the node slice for each node, three of the probability slice, and rows as long as the widest layer.
fn sized(found: Widths) -> Lengths
    requires { 3 * found.nodes < 2 ^ 64 }
    ensures { result ≡ lengths_for found }
{
    Lengths {
        nodes: 2 * found.nodes,
        probabilities: 3 * found.nodes,
        row: found.widest,
        count: found.nodes,
    }
}

// Variances, then widths.
fn sizes_over(
    steps: u32,
    dt: f64,
    model: HullWhite<'_>,
    variances: &mut [f64],
    nodes: &mut [i32],
) -> Result<Lengths, Refusal>
    requires { (0 < steps) × (steps ≤ 512) × (length variances.old ≡ steps) }
    ensures { result ≡ sizes_as (widths_over (length nodes.old) (model_in model) steps dt) }
{
    transition_variances(model, steps, dt, variances)?;
    let found = tree_widths(model.alpha, dt, variances, nodes)?;
    Ok(sized(found))
}

// time_step = T/steps, then the widths.
fn sizes_at(
    maturity: f64,
    steps: u32,
    model: HullWhite<'_>,
    nodes: &mut [i32],
) -> Result<Lengths, Refusal>
    requires { (0 < steps) × (steps ≤ 512) }
    ensures { result ≡ sizes_as (widths_at (length nodes.old) (model_in model) maturity steps) }
{
    let dt = tested(maturity / (steps as f64), 0)?;
    let mut variances = [0.0; 512];
    sizes_over(steps, dt, model, &mut variances[..steps as usize], nodes)
}

// How large the tree value's slices must be for these terms. The lent slice is untouched after an input refusal, else all zero.
pub fn sizes(
    market: Market<'_>,
    calls: CallSchedule<'_>,
    nodes: &mut [i32],
) -> Result<Lengths, Refusal>
    ensures { SizesEntered (market_in market) (calls_in calls) result nodes.old nodes.new }
{
    let Market {
        settlement,
        controls,
        pillars,
        ..
    } = market;
    let table = pillar_times(settlement, pillars.days);
    let count = timed_pillars(pillars.days);
    tree_checks(market, calls, &table[..count])?;
    let maturity = year_fraction(settlement, last_day(market.bond.leg.days));
    let steps = steps_of(maturity, controls.per_year, controls.maximum);
    let found = sizes_at(maturity, steps as u32, market.model, nodes);
    zero_numbers(nodes);
    found
}
