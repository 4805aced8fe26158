//! How many of its predecessors each due job waits for: counted at an open, and lowered by commits. The
//! earlier jobs of its own thread are counted by its rank among them, so that a commit lowers one number.

ghost use Rattle.std.specs.List.{slice_index_or};
ghost use Rattle.std.specs.Prelude.{◌≡◌, ℕ, ◌+◌, ◌-◌, ◌^◌, ◌<◌, [], IsTrue, length, slice_set};
ghost use Rattle.trick_phase_board.specs.Counts.{IsCounted, count_at, many_on, none_is_left, open_among, rank_in, with_fewer};
ghost use Rattle.trick_phase_board.specs.Search.{find_wanted};
ghost use Rattle.trick_phase_board.specs.Tables.{thread_in};
ghost use Rattle.trick_phase_board.specs.declared.search.Wanted.TheVariants.{Open};
ghost use Rattle.trick_model.specs.Laws.{is_among};
ghost use Rattle.trick_model.specs.Valid.{ids};

use crate::Tables;
use crate::known::Known;
use crate::search::{Wanted, find, is_wanted, stage_of};
use crate::tables::{list_at, thread_at};
use trick_lang::JobId;
use trick_phase_schedules::Stage;

// How many of these jobs are due and not committed.
fn count(stages: &[Stage], jobs: &[JobId]) -> usize
    ensures { result ≡ open_among stages.now jobs.now }
{
    let mut count = 0;
    for job in jobs {
        if is_wanted(Wanted::Open, stage_of(stages, *job)) {
            count += 1;
        }
    }
    count
}

// The number at a place, or 0 past the last one.
fn number_at(numbers: &[usize], place: usize) -> usize
    ensures { result ≡ count_at numbers.now place }
{
    match numbers.get(place) {
        Some(number) => *number,
        None => 0,
    }
}

// Sets the number at a place.
fn set_number(numbers: &mut Vec<usize>, place: usize, number: usize)
    ensures { numbers.new.items ≡ slice_set numbers.old.items place number }
{
    if place < numbers.len() {
        numbers[place] = number;
    }
}

// Lowers the number at a place by 1. Of a job that is not due it may be 0.
fn lower_number(numbers: &mut Vec<usize>, place: usize)
    ensures { numbers.new.items ≡ slice_set numbers.old.items place (count_at numbers.old.items place - 1) }
{
    if place < numbers.len() {
        numbers[place] = numbers[place].saturating_sub(1);
    }
}

/// Counts anew what each of these jobs waits for. It costs what they depend on.
pub fn count_all(due: &[JobId], tables: &Tables, stages: &[Stage], counts: &mut Vec<usize>)
    requires there { (k : ℕ) → IsTrue (is_among k (ids due.now)) → k < length counts.old.items }
    ensures length { length counts.new.items ≡ length counts.old.items }
    ensures counted { (k : ℕ) → IsTrue (is_among k (ids due.now)) → IsCounted tables.now stages.now counts.new.items k }
{
    for job in due {
        let depended = list_at(tables.depended.as_slice(), job.0 as usize);
        let awaited = count(stages, depended);
        set_number(counts, job.0 as usize, awaited);
    }
}

// Ranks one more job, which comes before those that are ranked.
fn rank_one(job: JobId, tables: &Tables, ranks: &mut Vec<usize>, left: &mut Vec<usize>)
    requires few { count_at left.old.items (thread_in tables.now job.0) + 1 < 2 ^ 64 }
    requires known { job.0 < length tables.now.threads }
    ensures ranks { ranks.new.items ≡ slice_set ranks.old.items job.0
        (count_at left.old.items (thread_in tables.now job.0) + 1) }
    ensures left { left.new.items ≡ slice_set left.old.items (thread_in tables.now job.0)
        (count_at left.old.items (thread_in tables.now job.0) + 1) }
{
    let thread = thread_at(tables, job);
    let rank = number_at(left, thread) + 1;
    set_number(ranks, job.0 as usize, rank);
    set_number(left, thread, rank);
}

/// Ranks each of these jobs among those of its thread, from the last one on, and counts those of each
/// thread. It costs these jobs.
pub fn rank_all(due: &[JobId], tables: &Tables, ranks: &mut Vec<usize>, left: &mut Vec<usize>)
    requires few { length due.now < 65536 }
    requires there { (k : ℕ) → IsTrue (is_among k (ids due.now)) → k < length ranks.old.items }
    requires known { (k : ℕ) → IsTrue (is_among k (ids due.now)) → k < length tables.now.threads }
    requires threads { (k : ℕ) → IsTrue (is_among k (ids due.now)) → thread_in tables.now k < length left.old.items }
    ensures as_many_ranks { length ranks.new.items ≡ length ranks.old.items }
    ensures as_many_threads { length left.new.items ≡ length left.old.items }
    ensures ranked { (k : ℕ) → IsTrue (is_among k (ids due.now))
        → count_at ranks.new.items k ≡ rank_in tables.now (thread_in tables.now k) k due.now }
    ensures left { (thread : ℕ) → count_at left.new.items thread ≡ many_on tables.now thread due.now }
{
    left.fill(0);
    for passed in 0..due.len() {
        let job = due[due.len() - 1 - passed];
        rank_one(job, tables, ranks, left);
    }
}

/// Lowers how many jobs are left of the thread of a job.
pub fn lower_thread(tables: &Tables, job: JobId, left: &mut Vec<usize>)
    requires { job.0 < length tables.now.threads }
    ensures { left.new.items ≡ slice_set left.old.items (thread_in tables.now job.0)
        (count_at left.old.items (thread_in tables.now job.0) - 1) }
{
    let thread = thread_at(tables, job);
    lower_number(left, thread);
}

/// Whether no predecessor of a due job is left, by the counts.
pub fn has_none_left(tables: &Tables, known: &Known, job: JobId) -> bool
    requires { job.0 < length tables.now.threads }
    ensures { result ≡ none_is_left tables.now known.now.counts.items known.now.ranks.items known.now.left.items job.0 }
{
    let awaited = number_at(&known.counts, job.0 as usize);
    let left = number_at(&known.left, thread_at(tables, job));
    let rank = number_at(&known.ranks, job.0 as usize);
    awaited == 0 && left.saturating_sub(rank) == 0
}

/// Lowers the count of each of these jobs by 1. It costs these jobs.
pub fn lower(jobs: &[JobId], counts: &mut Vec<usize>)
    ensures counts { counts.new.items ≡ with_fewer (ids jobs.now) counts.old.items }
    ensures length { length counts.new.items ≡ length counts.old.items }
{
    for job in jobs {
        lower_number(counts, job.0 as usize);
    }
}

/// The first job that a due job depends on, but for those before it on its thread, and that is not
/// committed. It searches only where the count says that there is one.
pub fn awaited(tables: &Tables, stages: &[Stage], counts: &[usize], job: JobId) -> Option<JobId>
    requires { IsCounted tables.now stages.now counts.now job.0 }
    ensures { result ≡ find_wanted Open stages.now (slice_index_or tables.now.depended job.0 []) }
{
    let awaited = number_at(counts, job.0 as usize);
    if awaited == 0 {
        return None;
    }
    let depended = list_at(tables.depended.as_slice(), job.0 as usize);
    find(Wanted::Open, stages, depended)
}
