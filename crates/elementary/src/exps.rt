// exp of a row of numbers, each equal to exp of the number alone. The loops of the series have no test, so that several numbers are worked out side by side.

ghost use Rattle.std.specs.Prelude.{◌≡◌, true, length};
ghost use Rattle.elementary.specs.Exponential.{ExpRow};
ghost use Rattle.elementary.specs.laws.Steps.{Reducible};
ghost use Rattle.elementary.specs.laws.Rows.{Filled, Parted, Raised, StepRow, SeriesRow, SmallRow, first_terms, last_terms};

use crate::exp::{LN2_HIGH, LN2_LOW, power_of_two, terms};
use floats::round::near;
use std::f64::consts::LOG2_E;

// Whether a number lies from −700 to 700: no for a NaN.
fn within(x: f64) -> bool
    ensures { result ≡ true → Reducible x }
{
    -700.0 <= x && x <= 700.0
}

// k and r of each number. False where one lies outside ±700.
fn reduce_row(xs: &[f64], ks: &mut [f64], rs: &mut [f64]) -> bool
    requires { (length ks.old ≡ length xs.now) × (length rs.old ≡ length xs.now) }
    ensures { result ≡ true → Parted xs.now ks.new rs.new }
{
    for i in 0..xs.len() {
        let x = xs[i];
        if !within(x) {
            return false;
        }
        let k = near(x * LOG2_E);
        ks[i] = k;
        rs[i] = (x - k * LN2_HIGH) - k * LN2_LOW;
    }
    true
}

// The terms 13 to 7 of each series.
fn first_terms(rs: &[f64], ys: &mut [f64])
    requires { length ys.old ≡ length rs.now }
    ensures { Filled (first_terms rs.now) ys.old ys.new (length rs.now) }
{
    for i in 0..rs.len() {
        ys[i] = terms(rs[i], 1.0, 13, 6);
    }
}

// The terms 6 to 1, from there on. (Two short loops are faster than one long one.)
fn last_terms(rs: &[f64], ys: &mut [f64])
    requires { length ys.old ≡ length rs.now }
    ensures { Filled (last_terms rs.now ys.old) ys.old ys.new (length rs.now) }
{
    for i in 0..rs.len() {
        ys[i] = terms(rs[i], ys[i], 6, 0);
    }
}

// The whole series of each.
fn series_row(rs: &[f64], ys: &mut [f64])
    requires { length ys.old ≡ length rs.now }
    ensures { SeriesRow rs.now ys.new }
{
    first_terms(rs, ys);
    last_terms(rs, ys);
}

// Each times 2^k. False where a result isn't finite.
fn raise_row(ks: &[f64], ys: &mut [f64]) -> bool
    requires { (length ys.old ≡ length ks.now) × StepRow ks.now }
    ensures { Raised result ks.now ys.old ys.new }
{
    let mut good = true;
    for i in 0..ks.len() {
        let y = ys[i] * power_of_two(ks[i]);
        ys[i] = y;
        good = good & (y - y == 0.0);
    }
    good
}

// Whether all are at most 0.34 in size: then k is 0 and r the number itself.
fn small_row(xs: &[f64]) -> bool
    ensures { result ≡ true → SmallRow xs.now }
{
    let mut good = true;
    for x in xs {
        good = good & (*x <= 0.34) & (-0.34 <= *x);
    }
    good
}

// exp of numbers from −700 to 700.
fn reduced_row(xs: &[f64], ys: &mut [f64], ks: &mut [f64], rs: &mut [f64]) -> bool
    requires { (length ys.old ≡ length xs.now) × (length ks.old ≡ length xs.now) × (length rs.old ≡ length xs.now) }
    ensures { ExpRow result xs.now ys.new }
{
    if !reduce_row(xs, ks, rs) {
        return false;
    }
    series_row(rs, ys);
    raise_row(ks, ys)
}

// exp of each number, where it says true. Where it says false (a number outside ±700 or a result that isn't finite), nothing is said of ys. ks and rs are room to work in.
pub fn exp_row(xs: &[f64], ys: &mut [f64], ks: &mut [f64], rs: &mut [f64]) -> bool
    requires { (length ys.old ≡ length xs.now) × (length ks.old ≡ length xs.now) × (length rs.old ≡ length xs.now) }
    ensures { ExpRow result xs.now ys.new }
{
    if small_row(xs) {
        series_row(xs, ys);
        return true;
    }
    reduced_row(xs, ys, ks, rs)
}
