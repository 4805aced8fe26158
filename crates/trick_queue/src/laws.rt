//! What follows from the definitions alone. A function that calls one of them may rest on what it says; the call
//! itself does nothing.

ghost use Rattle.trick_queue.specs.Late.{AreStepsWorked, IsLateExact};

/// What is late has a due tic that is not passed and not after the tic that is asked for.
pub fn late_test_is_exact()
    ensures { IsLateExact }
{
    trick_cycle::laws::due_test_is_exact();
}

/// Three jobs of cycles 2, 3 and 7 from tic 0, asked for at tics 0, 2 and 3, take at most 4, 2 and 2 steps.
pub fn worked_steps()
    ensures { AreStepsWorked }
{}
