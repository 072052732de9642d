// The discount curve: straight lines in the logarithm of the factor between the pillars around a time, and from the last pillar on its factor.

ghost use Rattle.std.specs.Prelude.{◌≡◌, ◌+◌, ◌<◌, ◌≤◌, min, length, get_or, take};
ghost use Rattle.floats.specs.Answers.{plus_zero};
ghost use Rattle.terms.specs.Curve.{on_line, between, curve_over, CurveTimes};

use crate::Settlement;
use crate::limits::PillarEntries;
use crate::time::{epoch_of, time_from};
use elementary::exp::exp_at;
use elementary::ln::ln_at;
use floats::Refusal;
use floats::finite::tested;

// The linear rule: l0 + (l1 − l0) × ((t − t0)/(t1 − t0)).
fn on_line(t: f64, t0: f64, l0: f64, t1: f64, l1: f64, place: u32) -> Result<f64, Refusal>
    ensures { result ≡ on_line t t0 l0 t1 l1 place }
{
    let rise = tested(l1 - l0, place)?;
    let part = tested(t - t0, place)?;
    let all = tested(t1 - t0, place)?;
    let share = tested(part / all, place)?;
    let more = tested(rise * share, place)?;
    tested(l0 + more, place)
}

// exp of the linear rule over ln of the two factors.
#[tactic(auto, unfolding(floats::specs::Answers::on_outcome, crate::specs::Curve::between))]
fn in_logarithms(t: f64, t0: f64, d0: f64, t1: f64, d1: f64, place: u32) -> Result<f64, Refusal>
    ensures { result ≡ between t t0 d0 t1 d1 place }
{
    let l0 = ln_at(d0, place)?;
    let l1 = ln_at(d1, place)?;
    let x = on_line(t, t0, l0, t1, l1, place)?;
    exp_at(x, place)
}

// Between pillar i and the one that follows it.
fn on_piece(times: &[f64], factors: &[f64], i: usize, t: f64, place: u32) -> Result<f64, Refusal>
    requires i_in_bounds { i + 1 < length times.now }
    requires i_in_bounds_2 { i + 1 < length factors.now }
    ensures { result ≡ between t (get_or times.now i plus_zero) (get_or factors.now i plus_zero) (get_or times.now (i + 1) plus_zero) (get_or factors.now (i + 1) plus_zero) place }
{
    in_logarithms(t, times[i], factors[i], times[i + 1], factors[i + 1], place)
}

// The curve at time t, over the pillars' times and factors.
pub fn curve_at(times: &[f64], factors: &[f64], t: f64, place: u32) -> Result<f64, Refusal>
    ensures { result ≡ curve_over times.now factors.now t place }
{
    if times.len() == 0 {
        return Ok(0.0);
    }
    if factors.len() == 0 {
        return Ok(0.0);
    }
    let last = times.len() - 1;
    for i in 0..last {
        if factors.len() <= i + 1 {
            return Ok(factors[i]);
        }
        if t < times[i + 1] {
            return on_piece(times, factors, i, t, place);
        }
    }
    Ok(factors[last])
}

// How many pillars the table of their times is made for.
pub fn timed_pillars(days: &[u32]) -> usize
    ensures { result ≡ min 256 (length days.now) }
{
    days.len().min(PillarEntries::MOST)
}

// The time of each pillar, worked out once: at the front of a table that has room for the most pillars.
pub fn pillar_times(settlement: Settlement, days: &[u32]) -> [f64; 256]
    ensures { CurveTimes settlement days.now (take (min 256 (length days.now)) result) }
{
    let mut times = [0.0; 256];
    if PillarEntries::MOST < days.len() {
        return times;
    }
    let epoch = epoch_of(settlement);
    for i in 0..days.len() {
        times[i] = time_from(epoch, days[i]);
    }
    times
}
