// The checks of the grid, in stages: each stage is one number, or two that belong together.

ghost use Rattle.std.specs.Prelude.{◌≡◌, ◌++◌, ◌≤◌, length};
ghost use Rattle.terms.specs.Checks.{first_of};
ghost use Rattle.terms.specs.Entries.{setting_checks, grid_counts, grid_days, list_numbers, grid_numbers, grid_orders};
ghost use Rattle.terms.specs.laws.Stages.{Tells};
ghost use Rattle.terms.specs.laws.TermChecks.{LegCounted};
ghost use Rattle.terms.specs.laws.CallChecks.{CallCounted};
ghost use Rattle.terms.specs.CallLists.{Entries};
ghost use Rattle.terms.specs.Market.{leg_in, calls_in, bond_in, controls_of};

use floats::Refusal;
use terms::Settlement;
use terms::calls::{call_days, call_order, strike_range};
use terms::cashflows::{any_paid, leg_days, maturity_apart};
use terms::counts::{call_count, leg_count, put_count};
use terms::fields::{day_count, settings, settlement_day, units_range};
use terms::limits::Cashflows;
use terms::market::{Bond, CallSchedule, Leg, TimeGrid};
use terms::numbers::all_within;

// 1, 33 and 2: settings, day count and counts.
pub fn grid_counts(
    controls: TimeGrid,
    code: u32,
    leg: Leg<'_>,
    calls: CallSchedule<'_>,
    puts: CallSchedule<'_>,
) -> Result<(), Refusal>
    ensures { Tells result
        (first_of (setting_checks (controls_of controls) code ++ grid_counts (leg_in leg) (calls_in calls) (calls_in puts)))
        (LegCounted (leg_in leg) × CallCounted (calls_in calls) × Entries (calls_in puts)) }
{
    settings(controls.per_year, controls.maximum)?;
    day_count(code)?;
    leg_count(leg)?;
    call_count(calls)?;
    put_count(puts)
}

// 3: days and kinds.
pub fn grid_days(
    settlement: u32,
    leg: Leg<'_>,
    calls: CallSchedule<'_>,
    puts: CallSchedule<'_>,
) -> Result<(), Refusal>
    requires days_len_bound { length leg.days.now ≤ 256 }
    requires starts_len_bound { length calls.starts.now ≤ 64 }
    requires put_starts_len_bound { length puts.starts.now ≤ 64 }
    requires kinds_len { length leg.kinds.now ≡ length leg.days.now }
    requires ends_len { length calls.ends.now ≡ length calls.starts.now }
    requires put_ends_len { length puts.ends.now ≡ length puts.starts.now }
    ensures { result ≡ first_of (grid_days settlement (leg_in leg) (calls_in calls) (calls_in puts)) }
{
    settlement_day(settlement)?;
    leg_days(leg)?;
    call_days(calls)?;
    call_days(puts)
}

// 4: the numbers of the lists and their ranges.
pub fn list_numbers(
    leg: Leg<'_>,
    calls: CallSchedule<'_>,
    puts: CallSchedule<'_>,
) -> Result<(), Refusal>
    requires amounts_len_bound { length leg.amounts.now ≤ 256 }
    requires strikes_len_bound { length calls.strikes.now ≤ 64 }
    requires put_strikes_len_bound { length puts.strikes.now ≤ 64 }
    ensures { result ≡ first_of (list_numbers (leg_in leg) (calls_in calls) (calls_in puts)) }
{
    all_within(Cashflows::AMOUNT, leg.amounts)?;
    strike_range(calls)?;
    strike_range(puts)
}

// 4: numbers and their ranges.
pub fn grid_numbers(bond: Bond<'_>, calls: CallSchedule<'_>) -> Result<(), Refusal>
    requires amounts_len_bound { length bond.leg.amounts.now ≤ 256 }
    requires strikes_len_bound { length calls.strikes.now ≤ 64 }
    requires put_strikes_len_bound { length bond.puts.strikes.now ≤ 64 }
    ensures { result ≡ first_of (grid_numbers bond.entry.units (bond_in bond).leg (calls_in calls) (bond_in bond).puts) }
{
    units_range(bond.units)?;
    list_numbers(bond.leg, calls, bond.puts)
}

// 5, 7 and 35: a call or a put that ends before it starts, nothing paid, and a maturity whose time is 0.
pub fn grid_orders(
    settlement: Settlement,
    leg: Leg<'_>,
    calls: CallSchedule<'_>,
    puts: CallSchedule<'_>,
) -> Result<(), Refusal>
    requires starts_len_bound { length calls.starts.now ≤ 64 }
    requires ends_len { length calls.ends.now ≡ length calls.starts.now }
    requires put_starts_len_bound { length puts.starts.now ≤ 64 }
    requires put_ends_len { length puts.ends.now ≡ length puts.starts.now }
    ensures { result ≡ first_of (grid_orders settlement (leg_in leg) (calls_in calls) (calls_in puts)) }
{
    call_order(calls)?;
    call_order(puts)?;
    any_paid(settlement.day, leg)?;
    maturity_apart(settlement, leg)
}
