// Sigmas with a shift added to each.
ghost use Rattle.std.specs.Prelude.{◌≡◌, ◌≤◌, length, take};
ghost use Rattle.spreadtable.specs.Table.{shifted, any_outside};

use terms::limits::SigmaEntries;
use terms::ranges::not_up_to;

// Whether a shifted sigma isn't finite or lies outside 0 to 10.
pub fn any_outside(sigmas: &[f64], shift: f64) -> bool
    ensures { result ≡ any_outside (shifted shift sigmas.now) }
{
    for sigma in sigmas {
        if not_up_to(SigmaEntries::SIGMA, *sigma + shift) {
            return true;
        }
    }
    false
}

// As many shifted sigmas as a call takes.
pub fn shifted_sigmas(sigmas: &[f64], shift: f64) -> [f64; 64]
    requires { length sigmas.now ≤ 64 }
    ensures { take (length sigmas.now) result ≡ shifted shift sigmas.now }
{
    let mut moved = [0.0; 64];
    for i in 0..sigmas.len() {
        moved[i] = sigmas[i] + shift;
    }
    moved
}
