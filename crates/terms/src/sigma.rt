// The checks of the sigma entries.

ghost use Rattle.std.specs.Prelude.{◌≡◌, ◌||◌, ◌≤◌, length};
ghost use Rattle.terms.specs.Numbers.{float};
ghost use Rattle.terms.specs.Market.{sigma_in};
ghost use Rattle.terms.specs.Checks.{not_up_to, sigma_range, sigma_order};

use crate::limits::SigmaEntries;
use crate::market::SigmaSchedule;
use crate::ranges::not_up_to;
use crate::refusing::refused_first;
use floats::{Reason, Refusal};

// A time outside 0 to 600, or a sigma outside 0 to 10.
fn sigma_wrong(time: f64, sigma: f64) -> bool
    ensures { result ≡ (not_up_to (float 600) time || not_up_to (float 10) sigma) }
{
    not_up_to(SigmaEntries::TIME, time) || not_up_to(SigmaEntries::SIGMA, sigma)
}

// 4: times 0 to 600, sigmas 0 to 10.
pub fn sigma_range(sigma: SigmaSchedule<'_>) -> Result<(), Refusal>
    requires times_len_bound { length sigma.times.now ≤ 64 }
    requires sigmas_len { length sigma.sigmas.now ≡ length sigma.times.now }
    ensures { result ≡ sigma_range (sigma_in sigma) }
{
    let SigmaSchedule { times, sigmas } = sigma;
    refused_first(Reason::Number, times.len(), |i| {
        sigma_wrong(times[i], sigmas[i])
    })
}

// 6: sigma times not strictly rising.
pub fn sigma_order(sigma: SigmaSchedule<'_>) -> Result<(), Refusal>
    requires { length sigma.times.now ≤ 64 }
    ensures { result ≡ sigma_order (sigma_in sigma) }
{
    let times = sigma.times;
    refused_first(
        Reason::SigmaOrder,
        times.len(),
        |i| 0 < i && !(times[i - 1] < times[i]),
    )
}
