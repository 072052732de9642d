// The row of one shift.
// What is lent stays in slices of its own: of a struct of `&mut`s each contract would have to say that its borrows stay.
ghost use Rattle.std.specs.Prelude.{◌≡◌, ◌+◌, ◌*◌, ◌≤◌, length};
ghost use Rattle.terms.specs.Curve.{CurveTimes};
ghost use Rattle.terms.specs.Market.{calls_in, market_of, market_in};
ghost use Rattle.treebasedbondpricer.specs.Slices.{room_in};
ghost use Rattle.spreadtable.specs.Page.{row_text};
ghost use Rattle.spreadtable.specs.Table.{with_sigmas, cell_at};
ghost use Rattle.spreadtable.specs.laws.Writing.{appended};

use crate::Written;
use crate::cells::hash_cell;
use crate::checks::{single_row, unchecked_row};
use crate::rows::same_row;
use crate::sigmas::{any_outside, shifted_sigmas};
use floats::Reason;
use terms::limits::SigmaEntries;
use terms::market::{CallSchedule, HullWhite, Market, SigmaSchedule};

// The same terms with other sigmas.
fn with_sigmas<'a>(market: Market<'a>, sigmas: &'a [f64]) -> Market<'a>
    ensures { market_of result ≡ with_sigmas (market_in market) sigmas.now }
{
    Market {
        model: HullWhite {
            alpha: market.model.alpha,
            sigma: SigmaSchedule {
                times: market.model.sigma.times,
                sigmas,
            },
        },
        ..market
    }
}

// 46 ahead of any other refusal. Of more sigmas than a call takes none is read.
pub fn shifted_row(
    w: Written,
    shift: f64,
    market: Market<'_>,
    calls: CallSchedule<'_>,
    spreads: &[f64],
    curve_times: &[f64],
    nodes: &mut [i32],
    probabilities: &mut [f64],
    first: &mut [f64],
    second: &mut [f64],
) -> Written
    requires spreads_bound { w.length + 16 * length spreads.now + 1 ≤ 4112 }
    requires curve_times { CurveTimes market.settlement market.pillars.days.now curve_times.now }
    ensures { result ≡ appended w (row_text (cell_at (market_in market) (calls_in calls) (room_in nodes probabilities first second) shift) spreads.now) }
{
    let sigmas = market.model.sigma.sigmas;
    if any_outside(sigmas, shift) {
        let cell = hash_cell(Reason::ShiftedSigma.number());
        return same_row(w, spreads, cell);
    }
    if sigmas.len() > SigmaEntries::MOST {
        return unchecked_row(w, market, calls, spreads, curve_times);
    }
    let moved = shifted_sigmas(sigmas, shift);
    single_row(
        w,
        with_sigmas(market, &moved[..sigmas.len()]),
        calls,
        spreads,
        curve_times,
        nodes,
        probabilities,
        first,
        second,
    )
}
