//! Laws of schedules, for each tic of every accepted plan and whatever flags and memory. A function that
//! calls one of them may rest on what it says; the call itself does nothing.

ghost use Rattle.trick_phase_schedules.specs.Laws.{AtEachTic, EveryBeginning, EveryBoard, EveryCopy, EverySchedule, GoesOn, OneByOne};

/// Every schedule of a tic gives the memory and the faults of its due jobs, one after the other in key
/// order. After each beginning of a schedule the committed jobs are closed under predecessors, memory and
/// faults are theirs, and no job in flight has an input that differs from its copy.
pub fn every_schedule_is_serial()
    ensures whole { AtEachTic EverySchedule }
    ensures begun { AtEachTic EveryBeginning }
{
    trick_model::laws::key_order_is_one();
    trick_race::laws::due_jobs_are_settled();
    trick_lang::laws::frame_law();
    trick_lang::laws::write_law();
}

/// A board, which keeps no copies, goes with the play that has them; and a copy stays what it was at its
/// take.
pub fn boards_need_no_copies()
    ensures board { AtEachTic EveryBoard }
    ensures copies { AtEachTic EveryCopy }
{
    trick_model::laws::key_order_is_one();
    trick_race::laws::due_jobs_are_settled();
    trick_lang::laws::frame_law();
    trick_lang::laws::write_law();
}

/// Which steps begin a schedule: those of which each can follow those before it. Each beginning goes on
/// to a whole schedule.
pub fn schedules_go_on()
    ensures { AtEachTic GoesOn }
{
    trick_model::laws::key_order_is_one();
    trick_race::laws::due_jobs_are_settled();
    trick_lang::laws::frame_law();
    trick_lang::laws::write_law();
}

/// One thread runs a schedule: the due jobs, each taken and at once committed, in key order.
pub fn one_thread_is_a_schedule()
    ensures { AtEachTic OneByOne }
{
    trick_model::laws::key_order_is_one();
    trick_race::laws::due_jobs_are_settled();
    trick_lang::laws::frame_law();
    trick_lang::laws::write_law();
}
