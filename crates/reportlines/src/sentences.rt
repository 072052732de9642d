// What to do about a refusal.
ghost use Rattle.std.specs.Prelude.{◌≡◌};
ghost use Rattle.bondreport.specs.Lines.{text_line};
ghost use Rattle.bondreport.specs.Sentences.{sentence_for};

use crate::lines::text_line;
use bondreport::Line;

// One plain sentence for each refusal, by the number that is printed beside it; any number has one, so this takes no Reason.
#[tactic(auto, unfolding(bondreport::specs::Sentences::sentence_for))]
pub fn what_to_do(number: u32) -> Line
    ensures { result ≡ text_line (sentence_for number) }
{
    match number {
        1 => text_line(b"Correct the setting: 1 to 366 steps a year, at most 512 in all."),
        2 => text_line(b"Count the entries of each list: too few, too many, or unequal."),
        3 => text_line(b"Look at this entry: its day, its kind, or the order of days."),
        4 => text_line(b"A number is outside its range: look at where it came from."),
        5 => text_line(b"This call ends before it starts: look at its two days."),
        6 => text_line(b"Sigma times must rise: look at this sigma entry."),
        7 => text_line(b"No cashflow comes after settlement: check the settlement day."),
        8 => text_line(b"The curve must start at settlement, rise, and reach maturity."),
        9 => text_line(b"Correct the compounding or the frequency: it can't be used."),
        20 => text_line(b"A call on or after the last redemption has nothing to call."),
        21 => text_line(b"The tree finds no room: ask for fewer steps."),
        22 => text_line(b"Some steps have no variance and others do: look at sigmas of 0."),
        23 => text_line(b"The volatilities of neighbouring steps are too far apart."),
        24 => text_line(b"A probability is below 0: this is never given, so report it."),
        25 => text_line(b"A discount factor is at or below 0: look at the curve."),
        26 => text_line(b"The inputs are far from any market's: look at rates and spread."),
        27 => text_line(b"A result is too large: the inputs are far from any market's."),
        28 => text_line(b"A discount has no meaning here: look at the yield or the price."),
        29 => text_line(b"No yield or spread gives this price: look at the price."),
        30 => text_line(b"The search did not settle: the price is far from any market's."),
        31 => text_line(b"Give the bond a number from 1 to 999,999."),
        32 => text_line(b"This value or node count is too wide for the closing sheet."),
        33 => text_line(b"Correct the day-count code: it is 0, 1 or 2."),
        34 => text_line(b"Two pillars stand at one time: leave one of them out."),
        35 => text_line(b"The last cashflow is at time 0: check the settlement day."),
        36 => text_line(b"The price is far below what the bond is worth: look at it."),
        37 => text_line(b"Too many puts: at most 64 are taken."),
        38 => text_line(b"A put is above the call at this step: look at their strikes."),
        39 => text_line(b"A book has 1 to 32 bonds."),
        40 => text_line(b"Give the bond a desk from 0 to 7."),
        41 => text_line(b"Too many notices: at most 256 are taken in one go."),
        42 => text_line(b"Look at this notice: its series, its version or its action."),
        43 => text_line(b"This notice repeats the series and version of an earlier one."),
        44 => text_line(b"A discount factor must be above 0: look at this pillar."),
        45 => text_line(b"A table has 1 to 16 spreads and 1 to 16 shifts."),
        46 => text_line(b"The shift takes a sigma out of its range: look at the shift."),
        _ => text_line(b"This number is not known: look it up in the README."),
    }
}
