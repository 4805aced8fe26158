ghost use Rattle.std.proofs.Props.{props};
ghost use Rattle.std.specs.Prelude.{◌≡◌, ◌+◌, ◌≤◌, All, IsTrue, length, map};
ghost use Rattle.trick_lang.specs.declared.job.Job.{Job};
ghost use Rattle.trick_model.specs.Condition.{is_condition_of};
ghost use Rattle.trick_model.specs.Plan.{has_thread};
ghost use Rattle.trick_base.specs.Time.{tic_limit};
ghost use Rattle.trick_model.specs.Valid.{all_differ, among-prop, AreDeedsAmong, AreNumbered, event_names, group_names, ids, IsAssignment, IsCell, IsCycle, IsDeedAmong, IsFrame, IsMainRight, IsPair, is_there, names_in, queues_of, rises, thread_numbers};
ghost use Rattle.trick_model.specs.declared.event.Event.{Event};
ghost use Rattle.trick_model.specs.declared.group.Group.{Group};
ghost use Rattle.trick_model.specs.declared.read_at.ReadAt.{ReadAt};
ghost use Rattle.trick_model.specs.declared.thread.Thread.{Thread};

use crate::{Depends, Event, Flags, Group, ReadAt, Thread};
use trick_base::Items;
use trick_lang::{Cell, JobId, Program};

/// What a run is told before it starts: a program and its input. Its ghost fields are facts that
/// every plan keeps.
#[derive(Drop)]
pub struct Plan {
    pub program: Program,
    /// The tics of a software frame, from 1 to 10^9.
    pub frame: u64,
    /// The first tic that is not run, at most 10^15 + 1.
    pub limit: u64,
    /// Whether the run starts in Freeze.
    pub frozen: bool,
    /// Thread 0, each child thread with a job and each thread that the input names, by number.
    pub threads: Items<Thread>,
    /// For each class, by rank, its jobs in key order.
    pub queues: Items<Items<JobId>>,
    pub depends: Items<Depends>,
    pub groups: Items<Group>,
    pub events: Items<Event>,
    /// In the order of their lines.
    pub reads: Items<ReadAt>,
    /// Assignments before the run, in the order of their lines.
    pub assigns: Items<(Cell, i64)>,
    /// The flags of the jobs at the start.
    pub jobs: Flags,
    /// The flags of the events at the start.
    pub events_on: Flags,
    /// The flags of the groups at the start.
    pub groups_on: Flags,
    // Threads stand by rising number, up to 15, and thread 0 is among them.
    pub ghost threads_rise: { IsTrue (rises (thread_numbers threads)) },
    pub ghost thread_limit: { All (λ (thread : Thread). thread.number ≤ 15) threads },
    pub ghost main_thread: { IsTrue (has_thread threads 0) },
    // The thread of each job is there, and no thread that nobody needs.
    pub ghost job_threads: { All (λ (job : Job). IsTrue (has_thread threads job.thread)) program.jobs },
    pub ghost needed_threads: { All (λ (thread : Thread). IsTrue (is_there program.jobs thread)) threads },
    // Thread 0 is scheduled unless the input names it.
    pub ghost main_right: { All IsMainRight threads },
    // The queues are the jobs of the classes in key order.
    pub ghost queues_right: { map ids queues ≡ queues_of program.jobs },
    // Frame, limit, cycles and tics are in their ranges.
    pub ghost frame_right: { IsFrame frame },
    pub ghost limit_right: { limit ≤ tic_limit + 1 },
    pub ghost thread_cycles: { All (λ (thread : Thread). IsCycle thread.cycle) threads },
    pub ghost group_cycles: { All (λ (group : Group). IsCycle group.cycle) groups },
    pub ghost event_cycles: { All (λ (event : Event). IsCycle event.cycle) events },
    pub ghost read_tics: { All (λ (read : ReadAt). read.tic ≤ tic_limit) reads },
    // No two groups, and no two events, have one name.
    pub ghost groups_differ: { IsTrue (all_differ (group_names groups)) },
    pub ghost events_differ: { IsTrue (all_differ (event_names events)) },
    // Each cell, job, group and event is there, and each number that is set is in its range.
    pub ghost pairs_right: { All (IsPair program.jobs threads) depends },
    pub ghost group_cells: { All (λ (group : Group). All (IsCell (length program.cells)) group.cells) groups },
    pub ghost assigns_right: { All (IsAssignment program.cells) assigns },
    pub ghost event_actions: { All (λ (event : Event). AreDeedsAmong (names_in program groups events) event.actions)
        events } by { Prim.hlevel (among-prop, props) },
    pub ghost read_actions: { All (λ (read : ReadAt). All (IsDeedAmong (names_in program groups events)) read.actions)
        reads } by { Prim.hlevel (among-prop, props) },
    // A condition cannot fault.
    pub ghost conditions_right: { All (λ (event : Event). IsTrue
        (is_condition_of (length program.cells) event.condition)) events },
    // The lists of an event's actions have rising numbers, up to 15.
    pub ghost actions_numbered: { All AreNumbered events },
    // There is one flag per job, event and group.
    pub ghost jobs_flagged: { length jobs.on ≡ length program.jobs },
    pub ghost events_flagged: { length events_on.on ≡ length events },
    pub ghost groups_flagged: { length groups_on.on ≡ length groups },
    // The limits of a plan.
    pub ghost group_limit: { length groups ≤ 64 },
    pub ghost variable_limit: { All (λ (group : Group). length group.cells ≤ 256) groups },
    pub ghost event_limit: { length events ≤ 256 },
    pub ghost pair_limit: { length depends ≤ 512 },
    pub ghost read_limit: { length reads ≤ 4096 },
}
