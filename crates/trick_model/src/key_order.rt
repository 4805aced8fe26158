//! The classes of jobs, and the order of their keys.

ghost use Rattle.std.specs.Prelude.{◌≡◌, ◌==◌};
ghost use Rattle.trick_model.specs.Order.{is_below, key, rank as rank_of};

use trick_lang::{Class, Job};

/// The rank of a class, from 0 to 9, which comes first in the keys of its jobs.
pub fn rank(class: Class) -> u8
    ensures { result ≡ rank_of class }
{
    class as u8
}

/// Whether a job is of a class.
pub fn is_of_class(job: &Job, class: Class) -> bool
    ensures { result ≡ (rank_of job.now.class == rank_of class) }
{
    rank(job.class) == rank(class)
}

/// Whether the first job comes before the second one in key order: class, phase, object and number in
/// the constructor decide, in this order.
pub fn precedes(one: &Job, other: &Job) -> bool
    ensures { result ≡ is_below (key one.now) (key other.now) }
{
    let (first, second) = (rank(one.class), rank(other.class));
    if first != second {
        return first < second;
    }
    if one.phase != other.phase {
        return one.phase < other.phase;
    }
    if one.object != other.object {
        return one.object < other.object;
    }
    one.number < other.number
}
