// bracketed_root: up to 64 widenings, then 256 halvings.
ghost use Rattle.std.specs.Prelude.{◌≡◌, ◌<◌, ◌≤◌, length};
ghost use Rattle.brackets.specs.Brackets.{halving, settled, widening, bracketed_root};
ghost use Rattle.sought.specs.laws.Sought.{sought_at, Ready};

use brackets::brackets::{counted, is_small};
use brackets::{Bracket, Halved, NoRoot, Root, Widened};
use floats::max::greater;
use floats::{Reason, Refusal};
use sought::Sought;
use sought::objectives::objective;

// Up to 256 halvings.
fn halved_to_root(
    start: Bracket,
    sought: Sought<'_>,
    first: &mut [f64],
    second: &mut [f64],
) -> Result<Root, NoRoot>
    requires ready { Ready sought.priced (length first.old) (length second.old) }
    requires evaluations_bound { start.evaluations ≤ 130 }
    ensures { result ≡ halving (sought_at sought.entry.priced sought.entry.target) 256 start }
{
    let mut b = start;
    for _ in 0..256u32 {
        match b.halve(sought, first, second)? {
            Halved::Next(next) => {
                b = next;
            }
            Halved::Found(root) => {
                return Ok(root);
            }
        }
    }
    Err(NoRoot {
        refusal: Refusal {
            reason: Reason::NotConverged,
            place: 0,
        },
        evaluations: b.evaluations,
    })
}

// After widening: an end that is a root, no bracket, or the halvings.
fn settle(
    b: Bracket,
    sought: Sought<'_>,
    first: &mut [f64],
    second: &mut [f64],
) -> Result<Root, NoRoot>
    requires ready { Ready sought.priced (length first.old) (length second.old) }
    requires evaluations_bound { b.evaluations ≤ 130 }
    ensures { result ≡ settled (sought_at sought.entry.priced sought.entry.target) b }
{
    if is_small(Bracket::TOLERANCE, b.at_lower) {
        return Ok(Root {
            at: b.lower,
            evaluations: b.evaluations,
        });
    }
    if is_small(Bracket::TOLERANCE, b.at_upper) {
        return Ok(Root {
            at: b.upper,
            evaluations: b.evaluations,
        });
    }
    if b.falls() {
        return halved_to_root(b, sought, first, second);
    }
    Err(NoRoot {
        refusal: Refusal {
            reason: Reason::NoBracket,
            place: 0,
        },
        evaluations: b.evaluations,
    })
}

// Up to 64 widenings.
fn widened_to_root(
    start: Bracket,
    sought: Sought<'_>,
    first: &mut [f64],
    second: &mut [f64],
    lowest: f64,
) -> Result<Root, NoRoot>
    requires ready { Ready sought.priced (length first.old) (length second.old) }
    requires evaluations_bound { start.evaluations ≤ 2 }
    ensures { result ≡ widening (sought_at sought.entry.priced sought.entry.target) lowest 64 start }
{
    let mut b = start;
    for _ in 0..64u32 {
        match b.widen(sought, first, second, lowest)? {
            Widened::Next(next) => {
                b = next;
            }
            Widened::Last(last) => {
                return settle(last, sought, first, second);
            }
        }
    }
    settle(b, sought, first, second)
}

// From two ends, the lower one not below the lowest.
pub fn bracketed_root(
    sought: Sought<'_>,
    first: &mut [f64],
    second: &mut [f64],
    first_lower: f64,
    upper: f64,
    lowest: f64,
) -> Result<Root, NoRoot>
    requires { Ready sought.priced (length first.old) (length second.old) }
    ensures { result ≡ bracketed_root (sought_at sought.entry.priced sought.entry.target) first_lower upper lowest }
{
    let lower = greater(first_lower, lowest);
    let tried = objective(sought, first, second, lower);
    let at_lower = counted(tried, 1)?;
    let tried = objective(sought, first, second, upper);
    let at_upper = counted(tried, 2)?;
    let b = Bracket {
        lower,
        upper,
        at_lower,
        at_upper,
        evaluations: 2,
    };
    widened_to_root(b, sought, first, second, lowest)
}
