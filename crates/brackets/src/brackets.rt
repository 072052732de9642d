// The bracket: each round takes it and hands back the next.
ghost use Rattle.std.specs.Prelude.{◌≡◌, true, false, ◌<◌, length};
ghost use Rattle.std.specs.Float.Ieee.{lt};
ghost use Rattle.floats.specs.Answers.{plus_zero};
ghost use Rattle.brackets.specs.Brackets.{counted, small, bracketed, raised, widen, halve};
ghost use Rattle.sought.specs.laws.Sought.{sought_at, Ready};

use crate::{Bracket, Halved, NoRoot, Root, Widened};
use floats::Refusal;
use floats::finite::tested;
use floats::max::greater;
use floats::midpoint::midpoint_at;
use rounded::mul_add::mul_add_at;
use sought::Sought;
use sought::objectives::objective;

// |x| below a limit.
pub fn is_small(limit: f64, x: f64) -> bool
    ensures { result ≡ small limit x }
{
    -limit < x && x < limit
}

// What was worked out, or no root after this many evaluations.
#[tactic(auto, unfolding(crate::specs::Brackets::counted))]
pub fn counted<T>(worked: Result<T, Refusal>, evaluations: u32) -> Result<T, NoRoot>
    ensures { result ≡ counted worked evaluations }
{
    worked.map_err(|refusal| NoRoot {
        refusal,
        evaluations,
    })
}

impl Bracket {
    // A value within ± this is a root.
    pub const TOLERANCE: f64 = 1e-12;
    // A bracket narrower than this isn't halved.
    pub const WIDTH: f64 = 1e-14;
    // A lower end that would move by less than this can't move.
    pub const EPSILON: f64 = 2.220446049250313e-16;

    // The objective falls through 0 between the ends.
    pub fn falls(self) -> bool
        ensures { result ≡ bracketed self }
    {
        self.at_lower >= 0.0 && self.at_upper <= 0.0
    }

    // An upper end whose objective is above 0 moves up.
    fn raise(
        self,
        sought: Sought<'_>,
        first: &mut [f64],
        second: &mut [f64],
    ) -> Result<Widened, NoRoot>
        requires ready { Ready sought.priced (length first.old) (length second.old) }
        requires evaluations_bound { self.evaluations < 1000 }
        ensures { result ≡ raised (sought_at sought.entry.priced sought.entry.target) self }
    {
        if self.at_upper > 0.0 {
            let upper = counted(mul_add_at(2.0, self.upper, 0.01, 0), self.evaluations)?;
            let evaluations = self.evaluations + 1;
            let tried = objective(sought, first, second, upper);
            let at_upper = counted(tried, evaluations)?;
            return Ok(Widened::Next(Bracket {
                upper,
                at_upper,
                evaluations,
                ..self
            }));
        }
        Ok(Widened::Next(self))
    }

    // A lower end whose objective is below 0 moves down, then the upper end. Where it can't move, widening ends.
    fn lower(
        self,
        sought: Sought<'_>,
        first: &mut [f64],
        second: &mut [f64],
        lowest: f64,
    ) -> Result<Widened, NoRoot>
        requires ready { Ready sought.priced (length first.old) (length second.old) }
        requires evaluations_bound { self.evaluations < 999 }
        requires self_value { bracketed self ≡ false }
        requires plus_zero_value { lt self.at_lower plus_zero ≡ true }
        ensures { result ≡ widen (sought_at sought.entry.priced sought.entry.target) lowest self }
    {
        let x = counted(mul_add_at(2.0, self.lower, -0.01, 0), self.evaluations)?;
        let lower = greater(x, lowest);
        let moved = counted(tested(lower - self.lower, 0), self.evaluations)?;
        if is_small(Bracket::EPSILON, moved) {
            return Ok(Widened::Last(self));
        }
        let evaluations = self.evaluations + 1;
        let tried = objective(sought, first, second, lower);
        let at_lower = counted(tried, evaluations)?;
        let next = Bracket {
            lower,
            at_lower,
            evaluations,
            ..self
        };
        next.raise(sought, first, second)
    }

    // One widening.
    pub fn widen(
        self,
        sought: Sought<'_>,
        first: &mut [f64],
        second: &mut [f64],
        lowest: f64,
    ) -> Result<Widened, NoRoot>
        requires ready { Ready sought.priced (length first.old) (length second.old) }
        requires evaluations_bound { self.evaluations < 999 }
        ensures { result ≡ widen (sought_at sought.entry.priced sought.entry.target) lowest self }
    {
        if self.falls() {
            return Ok(Widened::Last(self));
        }
        if self.at_lower < 0.0 {
            return self.lower(sought, first, second, lowest);
        }
        self.raise(sought, first, second)
    }

    // One halving. The width is tested on the bracket before it is halved.
    pub fn halve(
        self,
        sought: Sought<'_>,
        first: &mut [f64],
        second: &mut [f64],
    ) -> Result<Halved, NoRoot>
        requires ready { Ready sought.priced (length first.old) (length second.old) }
        requires evaluations_bound { self.evaluations < 1000 }
        ensures { result ≡ halve (sought_at sought.entry.priced sought.entry.target) self }
    {
        let middle = counted(midpoint_at(self.lower, self.upper, 0), self.evaluations)?;
        let evaluations = self.evaluations + 1;
        let tried = objective(sought, first, second, middle);
        let at_middle = counted(tried, evaluations)?;
        if is_small(Bracket::TOLERANCE, at_middle) {
            return Ok(Halved::Found(Root {
                at: middle,
                evaluations,
            }));
        }
        let width = counted(tested(self.upper - self.lower, 0), evaluations)?;
        if is_small(Bracket::WIDTH, width) {
            return Ok(Halved::Found(Root {
                at: middle,
                evaluations,
            }));
        }
        if at_middle > 0.0 {
            return Ok(Halved::Next(Bracket {
                lower: middle,
                at_lower: at_middle,
                evaluations,
                ..self
            }));
        }
        Ok(Halved::Next(Bracket {
            upper: middle,
            at_upper: at_middle,
            evaluations,
            ..self
        }))
    }
}
