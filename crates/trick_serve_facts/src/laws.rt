//! The laws. A function that calls one of these may rest on what it says; the call itself does nothing.

ghost use Rattle.trick_serve_facts.specs.Clients.{ClientsAreServed, OthersAreAbsent};
ghost use Rattle.trick_serve_facts.specs.IsServed.{RunsAreServed};
ghost use Rattle.trick_serve_facts.specs.Joins.{FirstClientsJoin, JoinsAreInOrder};
ghost use Rattle.trick_serve_facts.specs.NoThreads.{FewNoThreads};
ghost use Rattle.trick_serve_facts.specs.Sent.{ClientsAreSent, SentAreFronts};
ghost use Rattle.trick_serve_facts.specs.Texts.{TextsAreByTurns};
ghost use Rattle.trick_serve_facts.specs.Waits.{ClientsAreHeardOut, WaitingIsOver};
ghost use Rattle.trick_serve_facts.specs.Wants.{LeavesAreTold, WantsAreSaid};

/// Each client that was seated in a run was served: its entries are its join, its lines and its leave, its lines are
/// the first lines of its bytes, and it was sent a first part of its session text, turn after turn.
pub fn clients_are_served()
    ensures { ClientsAreServed }
{}

/// A session without a seat has no entry, and no message is to it.
pub fn others_are_absent()
    ensures { OthersAreAbsent }
{}

/// Clients join under the numbers 1, 2 and so on, in order, as many as have seats.
pub fn joins_are_in_order()
    ensures { JoinsAreInOrder }
{}

/// The first turn begins with the join of client 1, unless the door had answered, before its first client, that none had
/// come.
pub fn first_clients_join()
    ensures { FirstClientsJoin }
{}

/// A run whose turns were served, and whose lists keep the rules of entries, is a served run.
pub fn runs_are_served()
    ensures { RunsAreServed }
{}

/// The text of a session is that of its turns, one after another: of each turn the replies to its lines, and then the
/// sample that is due, of the state in which the turn ends.
pub fn texts_are_by_turns()
    ensures { TextsAreByTurns }
{}

/// Of the messages to a session that were handed over, also in a run that stopped, the first ones were kept for its
/// client, and what was kept went to its link, as far as that took it.
pub fn clients_are_sent()
    ensures { ClientsAreSent }
{}

/// Where the messages that were handed over are the first ones of a run, what a client's link took is a first part of
/// the text of its session in that run.
pub fn sent_are_fronts()
    ensures { SentAreFronts }
{}

/// Where a run is over as it waits in Freeze, below its limit, each client has left, or has said all lines of its bytes.
pub fn clients_are_heard_out()
    ensures { ClientsAreHeardOut }
{}

/// No client comes any more to a run that is over as it waits in Freeze, below its limit.
pub fn waiting_is_over()
    ensures { WaitingIsOver }
{}

/// The entries of a session tell whether it left, and why.
pub fn leaves_are_told()
    ensures { LeavesAreTold }
{}

/// A session whose writer told that it had no memory, and nothing else, left for that.
pub fn wants_are_said()
    ensures { WantsAreSaid }
{}

/// At most as many sessions left for want of a thread as there are clients with a seat to which one was refused.
pub fn few_no_threads()
    ensures { FewNoThreads }
{}
