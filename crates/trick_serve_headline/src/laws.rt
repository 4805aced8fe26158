//! The laws. A function that calls one of these may rest on what it says; the call itself does nothing.

ghost use Rattle.trick_serve_headline.specs.Alone.{RunsOfNobodyAreAlone};
ghost use Rattle.trick_serve_headline.specs.Continued.{RunsWriteRemainders};
ghost use Rattle.trick_serve_headline.specs.Headline.{RunsKeepHeadline};
ghost use Rattle.trick_serve_headline.specs.Noted.{ClientsAreServedAsNoted, RunsAreTheSameAsNoted};
ghost use Rattle.trick_serve_headline.specs.Stopped.{FrontsAreSent};
ghost use Rattle.trick_serve_headline.specs.Tended.{SentToClients, ServesTended};
ghost use Rattle.trick_serve_seats.specs.Taking.{hosts};

use trick_outside::{Door, Shelf, Spawner};

/// Under what its turns noted, and so under the journal that it wrote, a run is the same to each session: it has the
/// same entries, and the same text.
pub fn runs_are_the_same_as_noted()
    ensures { RunsAreTheSameAsNoted }
{
    trick_exec_laws::laws::noted_turns_do_the_same();
}

/// A client that was served in a run was served in its run under what its turns noted, by the same lines and the same
/// leave.
pub fn clients_are_served_as_noted()
    ensures { ClientsAreServedAsNoted }
{
    trick_exec_laws::laws::noted_turns_do_the_same();
}

/// A run that goes on from the state before a turn of a run under a journal writes the remainder of that run's files,
/// where it is given the same lines and publications from that turn on, whoever says them.
pub fn runs_write_remainders()
    ensures { RunsWriteRemainders }
{
    trick_model_remainder::laws::remainders_are_written();
    trick_model_sessions::laws::same_lines_write_the_same();
}

/// A whole run in which nobody joined is the run without clients, where no thread of its plan is asynchronous.
pub fn runs_of_nobody_are_alone()
    ensures { RunsOfNobodyAreAlone }
{}

/// A run of an accepted plan that was served to its end keeps the headline, as long as turns are counted.
pub fn served_runs_keep_the_headline<F: Shelf, D: Door, S: Spawner>()
    ensures { RunsKeepHeadline F.Shelf (hosts D.visited D.In.LinkIn D.Out.LinkOut S.failures D.has_client) }
{
    runs_are_the_same_as_noted();
    clients_are_served_as_noted();
    runs_write_remainders();
    trick_exec_laws::laws::noted_turns_do_the_same();
    trick_exec_own_journal::laws::written_journals_are_journals();
    trick_exec_own_journal::laws::turns_are_counted();
}

/// Where each client of a run that stopped was sent a first part of the messages to it that were handed over, it was sent
/// a first part of its session text in each whole run that goes on from what the journal's whole lines tell.
pub fn fronts_are_sent<D: Door, S: Spawner>()
    ensures { FrontsAreSent (hosts D.visited D.In.LinkIn D.Out.LinkOut S.failures D.has_client) }
{}

/// The clients of a whole run were served, as its door has them, where its turns were served and its clients tended, and
/// each client whose writer had no memory was told so.
pub fn tended_clients_are_served<D: Door, S: Spawner>()
    ensures { ServesTended (hosts D.visited D.In.LinkIn D.Out.LinkOut S.failures D.has_client) }
{
    trick_serve_facts::laws::runs_are_served();
    trick_serve_facts::laws::clients_are_heard_out();
    trick_serve_facts::laws::waiting_is_over();
    trick_serve_facts::laws::leaves_are_told();
    trick_serve_facts::laws::wants_are_said();
    trick_serve_facts::laws::few_no_threads();
    trick_serve_facts::laws::first_clients_join();
}

/// The clients of any run that were tended, also of one that stopped, were sent a first part of the messages to them
/// that were handed over.
pub fn tended_clients_are_sent<D: Door, S: Spawner>()
    ensures { SentToClients (hosts D.visited D.In.LinkIn D.Out.LinkOut S.failures D.has_client) }
{
    trick_serve_facts::laws::clients_are_sent();
}
