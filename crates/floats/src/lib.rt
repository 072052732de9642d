// Floats and what a function on them answers: the test that follows every operation, whole numbers, extremes and the
// midpoint, each equal to its definition bit for bit.

#![tactic(auto, unfolding(crate::specs::Answers::on_outcome))]

ghost use Rattle.std.specs.Prelude.{◌≡◌};
ghost use Rattle.floats.specs.Reasons.{reason_number};

pub mod ceil;
pub mod fields;
pub mod finite;
pub mod max;
pub mod midpoint;
pub mod min;
pub mod refusals;
pub mod round;
mod sign;

// Why a call is refused. The variants' numbers are those by which C and the printed reports know them: 1 to 9, 33 to 35, 37
// and 39 to 45 are found in the input, the others in the working state.
#[derive(Clone, Copy, Debug, PartialEq, Eq)]
pub enum Reason {
    // A grid setting outside its range.
    Setting = 1,
    // A list's count outside its limits, or parallel slices of unequal length.
    Count = 2,
    // A day out of range, cashflow days falling, a kind not 0 or 1.
    Day = 3,
    // A number that isn't finite or lies outside its range.
    Number = 4,
    // A call's or a put's end before its start.
    CallOrder = 5,
    // Sigma times not strictly rising.
    SigmaOrder = 6,
    // No cashflow after settlement.
    NothingPaid = 7,
    // Pillar days not strictly rising, the first not settlement, the last before maturity.
    PillarOrder = 8,
    // A compounding code unknown, or a frequency unusable.
    Rate = 9,
    // No principal at an eligible step.
    NoPrincipal = 20,
    // A layer doesn't fit the lent slices.
    NoRoom = 21,
    // Variance at or below 2^−52 on some steps only.
    NoVariance = 22,
    // A middle node beyond ±1,000,000.
    NodeTooFar = 23,
    // A probability below −1e-12.
    Probability = 24,
    // A factor at or below 0.
    Factor = 25,
    // exp or ln outside its range, or sqrt below 0.
    Outside = 26,
    // The result of an operation isn't finite.
    NotFinite = 27,
    // Yield base or simple factor at or below 0.
    YieldBase = 28,
    // No bracket.
    NoBracket = 29,
    // Not converged.
    NotConverged = 30,
    // A bond number outside 1 to 999,999, on the closing sheet.
    BondNumber = 31,
    // A value or a node count too wide for its columns there.
    TooWide = 32,
    // A day-count code that is unknown.
    DayCount = 33,
    // Two pillars at one time.
    SameTime = 34,
    // A maturity whose time is 0.
    NoTime = 35,
    // The tried spread is above 1.
    SpreadAbove = 36,
    // More than 64 puts.
    PutCount = 37,
    // A put above the call at a step.
    PutAbove = 38,
    // A book of no bonds, or of more than 32.
    BookSize = 39,
    // A desk outside 0 to 7.
    Desk = 40,
    // More than 256 call notices.
    NoticeCount = 41,
    // A notice's series, version or action out of range.
    NoticeRange = 42,
    // The same series and version twice.
    NoticeRepeated = 43,
    // A pillar factor that isn't positive.
    FactorNotPositive = 44,
    // No spreads or shifts of a table, or more than 16 of either.
    TableSize = 45,
    // A shifted sigma that isn't finite or lies outside its range.
    ShiftedSigma = 46,
}

impl Reason {
    // The number of the refusal.
    pub fn number(self) -> u32
        ensures { result ≡ reason_number self }
    {
        self as u32
    }
}

// Why and where a call is refused: by a `Reason`, where no other type of reasons, as a number, is named.
#[derive(Clone, Copy, Debug, PartialEq, Eq)]
pub struct Refusal<R = Reason> {
    pub reason: R,
    pub place: u32,
}
