ghost use Rattle.std.specs.Prelude.{◌≡◌, ◌↔◌, IsTrue};
ghost use Rattle.trick_check_order.specs.Calls.{AreCallees, all_below, each_below};

use trick_base::Items;

fn are_below(numbers: &[usize], limit: usize) -> bool
    ensures { result ≡ all_below limit numbers.now }
{
    for number in numbers {
        if *number >= limit {
            return false;
        }
    }
    true
}

fn each_is_below(calls: &[Items<usize>], limit: usize) -> bool
    ensures { result ≡ each_below limit calls.now }
{
    for callees in calls {
        if !are_below(callees.as_slice(), limit) {
            return false;
        }
    }
    true
}

/// Whether all that is called is there, as `order` wants it.
pub fn are_callees(calls: &[Items<usize>]) -> bool
    ensures { IsTrue result ↔ AreCallees calls.now }
{
    each_is_below(calls, calls.len())
}
