//! What is proved of the definitions. Each function is a promise, and does nothing.

ghost use Rattle.trick_plan_settings.specs.Worked.{AreThreadsWorked, IsQueueWorked};

/// The threads of five worked jobs, with what an input says of five threads.
pub fn worked_threads()
    ensures { AreThreadsWorked }
{}

/// The queue of the worked jobs of class scheduled.
pub fn worked_queue()
    ensures { IsQueueWorked }
{}
