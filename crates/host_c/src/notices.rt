// The call list that notices give, for a C caller: all 64 places of it.

ghost use Rattle.callnotices.specs.Notices.{notices_in};
ghost use Rattle.callnotices.specs.Lists.{call_list};
ghost use Rattle.host.specs.Handed.{HandedList};

use callnotices::Notices;
use callnotices::entry::call_list;
use host::arrays::hand_list;

// The call list of the notices that stand: how many entries, and 64 starts, ends and strikes.
#[unsafe(no_mangle)]
pub extern "C" fn gutirapeo_call_list(
    series: &[u32],
    versions: &[u32],
    actions: &[u32],
    starts: &[u32],
    ends: &[u32],
    strikes: &[f64],
    place: &mut u32,
    count: &mut u32,
    call_starts: &mut [u32; 64],
    call_ends: &mut [u32; 64],
    call_strikes: &mut [f64; 64],
) -> u32
    ensures { HandedList
        (call_list (notices_in series versions actions starts ends strikes))
        result place.new count.new call_starts.new call_ends.new call_strikes.new }
{
    let answer = call_list(Notices {
        series,
        versions,
        actions,
        starts,
        ends,
        strikes,
    });
    hand_list(answer, place, count, call_starts, call_ends, call_strikes)
}
