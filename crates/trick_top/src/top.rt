//! The top call of the whole program: every command, and `run` with threads and clients.

ghost use Rattle.std.specs.Prelude.{◌≡◌, ◌≢◌, ◌⊎◌, ℕ, List, [], None, Contains};
ghost use Rattle.trick_model.specs.State.{State};
ghost use Rattle.trick_model.specs.declared.entry.Entry.{Entry};
ghost use Rattle.trick_model.specs.declared.journal.Journal.{Journal};
ghost use Rattle.trick_model.specs.declared.plan.Plan.{Plan};
ghost use Rattle.trick_outside.specs.Causes.{Rose};
ghost use Rattle.trick_outside.specs.Does.{Went};
ghost use Rattle.trick_top_texts.specs.Texts.{IsPlanRefused};
ghost use Rattle.trick_serve_seats.specs.Taking.{hosts};
ghost use Rattle.trick_serve.specs.Serving.{moment, outside};
ghost use Rattle.trick_top_alone.specs.Acts.{last_state, length_verdict};
ghost use Rattle.trick_top_alone.specs.Aims as aims;
ghost use Rattle.trick_top_alone.specs.Answered.{HasAnswered};
ghost use Rattle.trick_top_alone.specs.Called.{HasCalled};
ghost use Rattle.trick_top_alone.specs.Sources.{Sources};
ghost use Rattle.trick_top_alone.specs.Status.{AreAccepted, AreRefusedTexts, EndsWith, Finds, Gives, HoldsSame, HoldsTexts};
ghost use Rattle.trick_top_alone.specs.Status.{IsDone, IsFittingIn, IsMisfitIn, IsRefusal, Misfits, MissesFile};
ghost use Rattle.trick_top_alone.specs.Status.{RefusesPlan, RefusesText, RunsToEnd, Stands, TookLine, end_verdict};
ghost use Rattle.trick_top_alone.specs.Verdict.{NoFile, Usage, line_of};
ghost use Rattle.trick_top_alone.specs.Verdict.{Verdict as VerdictOf};
ghost use Rattle.trick_top_alone.specs.Words.{AreRefused, Asks, AsksNoRun, AsksToRun, aim_of, with_run, without_run};
ghost use Rattle.trick_top.specs.Answers.{Answers, AnswersRun};
ghost use Rattle.trick_top.specs.Headline.{KeepsHeadline};
ghost use Rattle.trick_top.specs.Stands.{StandsServed};
ghost use Rattle.trick_top_words.specs.declared.command.Command.TheVariants as commands;
ghost use Rattle.trick_top_words.specs.declared.command.Command.{Command as CommandOf};
ghost use Rattle.trick_top_words.specs.declared.command.Texts.{Texts as TextsOf};

use crate::texts::serve_command;
use std::alloc::Global;
use std::sync::{Arc, Wait};
use std::thread::Threads;
use trick_base::Word;
use trick_outside::{Door, Gate, Shelf, Sink, Spawner};
use trick_serve::Serving;
use trick_serve_headline::laws::{
    fronts_are_sent, runs_of_nobody_are_alone, served_runs_keep_the_headline,
};
use trick_top_alone::{print, print_out_of_memory, read_run, tricks_alone};
use trick_top_texts::laws::texts_have_one_meaning;
use trick_top_words::{Texts, laws};

/// How the program ends: its status, and the door and the spawner that it was handed.
#[derive(Debug, Drop)]
pub struct Finished<D, S> {
    pub status: u8,
    pub door: D,
    pub spawner: S,
}

/// Serves the run that a command asks for, and prints its verdict's line.
fn run<F: Shelf, O: Sink, D, S, G, R>(
    alloc: Global,
    about: &Texts,
    serving: Serving<D, S, G, R>,
    shelf: &mut F,
    out: &mut O,
) -> Finished<D, S>
where
    D: Door + Send + Drop + 'static,
    D::In: Send + Drop + 'static,
    D::Out: Send + Drop + 'static,
    S: Spawner + Send + Drop + 'static,
    G: Gate + Send + Sync + Drop + 'static,
    R: Threads + Wait + Copy + Send + Drop + 'static,
    ensures { (words : List (List ℕ)) → AsksToRun words about.now
        → AnswersRun (outside F.Shelf (hosts D.visited D.In.LinkIn D.Out.LinkOut S.failures D.has_client)) D.failures
        O.Sink words (moment shelf.old serving.door serving.spawner) (moment shelf.new result.door result.spawner) out.old
        out.new result.status }
{
    let answer = serve_command(alloc, about, serving, shelf);
    Finished {
        status: print(alloc, &answer.verdict, out),
        door: answer.door,
        spawner: answer.spawner,
    }
}

/// Does what the words ask for, and prints its verdict's line.
fn answer<F: Shelf, O: Sink, D, S, G, R>(
    alloc: Global,
    words: &[Word],
    serving: Serving<D, S, G, R>,
    shelf: &mut F,
    out: &mut O,
) -> Finished<D, S>
where
    D: Door + Send + Drop + 'static,
    D::In: Send + Drop + 'static,
    D::Out: Send + Drop + 'static,
    S: Spawner + Send + Drop + 'static,
    G: Gate + Send + Sync + Drop + 'static,
    R: Threads + Wait + Copy + Send + Drop + 'static,
    ensures { Answers (outside F.Shelf (hosts D.visited D.In.LinkIn D.Out.LinkOut S.failures D.has_client)) D.failures
        O.Sink words.now (moment shelf.old serving.door serving.spawner) (moment shelf.new result.door result.spawner) out.old
        out.new result.status }
{
    match read_run(alloc, words) {
        Ok(Some(about)) => run(alloc, &about, serving, shelf, out),
        Ok(None) => Finished {
            status: tricks_alone(alloc, words, shelf, out),
            door: serving.door,
            spawner: serving.spawner,
        },
        Err(_) => Finished {
            status: print_out_of_memory(out),
            door: serving.door,
            spawner: serving.spawner,
        },
    }
}

/// Does what the words ask for, where there is memory for what threads share.
fn answer_shared<F: Shelf, O: Sink, D, S, G, R>(
    alloc: Global,
    words: &[Word],
    lent: Lent<D, S, G, R>,
    shelf: &mut F,
    out: &mut O,
) -> Finished<D, S>
where
    D: Door + Send + Drop + 'static,
    D::In: Send + Drop + 'static,
    D::Out: Send + Drop + 'static,
    S: Spawner + Send + Drop + 'static,
    G: Gate + Send + Sync + Drop + 'static,
    R: Threads + Wait + Copy + Send + Drop + 'static,
    ensures { Answers (outside F.Shelf (hosts D.visited D.In.LinkIn D.Out.LinkOut S.failures D.has_client)) D.failures
        O.Sink words.now (moment shelf.old lent.door lent.spawner) (moment shelf.new result.door result.spawner) out.old
        out.new result.status }
{
    let Lent {
        rt,
        door,
        spawner,
        gate,
    } = lent;
    match Arc::new(alloc, gate) {
        Ok(gate) => {
            let serving = Serving {
                rt,
                door,
                spawner,
                gate,
            };
            answer(alloc, words, serving, shelf, out)
        }
        Err(_) => Finished {
            status: print_out_of_memory(out),
            door,
            spawner,
        },
    }
}

/// What a call is lent beside its shelf and its sink.
#[derive(Drop)]
struct Lent<D, S, G, R> {
    rt: R,
    door: D,
    spawner: S,
    gate: G,
}

/// Does what the words of a command line ask for. The words come without the program's name. Answers the status of
/// the program (see docs/RULES.md); the sink is given one line, last of all, and before it one more by `gen`.
///
/// `run`, followed by the names of an S_define and of an input, runs the simulation with threads, and serves the clients
/// that the door gives: it takes their lines, sends them replies and samples, and writes the files of the run and its
/// journal, under which one thread writes the same. It goes on from a checkpoint where `--from` names one. The jobs of
/// scheduled threads run side by side, in threads that the spawner admits, and each passes the gate before its result is
/// stored. All threads have ended, and each client's links are back at the door, when it returns. For all other words it
/// does what [`tricks_alone`] does. The door and the spawner are handed back.
pub fn tricks<F: Shelf, O: Sink, D, S, G, R>(
    rt: R,
    alloc: Global,
    words: &[Word],
    shelf: &mut F,
    out: &mut O,
    door: D,
    spawner: S,
    gate: G,
) -> Finished<D, S>
where
    D: Door + Send + Drop + 'static,
    D::In: Send + Drop + 'static,
    D::Out: Send + Drop + 'static,
    S: Spawner + Send + Drop + 'static,
    G: Gate + Send + Sync + Drop + 'static,
    R: Threads + Wait + Copy + Send + Drop + 'static,
    // Words that ask to run nothing have the row of the call that waits for nobody, and the door and the spawner are
    // handed back as they are.
    ensures alone { AsksNoRun words.now
        → HasAnswered F.Shelf O.Sink shelf.old shelf.new out.old out.new (without_run words.now) result.status }
    ensures door { AsksNoRun words.now → result.door ≡ door }
    ensures spawner { AsksNoRun words.now → result.spawner ≡ spawner }

    // Words that ask to run something have a row of `run`.
    ensures row { (about : TextsOf) → AsksToRun words.now about
        → AnswersRun (outside F.Shelf (hosts D.visited D.In.LinkIn D.Out.LinkOut S.failures D.has_client)) D.failures
        O.Sink words.now (moment shelf.old door spawner) (moment shelf.new result.door result.spawner) out.old out.new
        result.status }
    ensures called { HasCalled F.Shelf O.Sink shelf.old shelf.new out.old out.new result.status }

    // The headline: where a run came to its end, what it wrote is the one-thread run of the journal that it wrote, and
    // each client was sent a first part of its session text.
    ensures headline { (about : TextsOf) → AsksToRun words.now about → (result.status ≡ 0) ⊎ (result.status ≡ 4)
        → KeepsHeadline (outside F.Shelf (hosts D.visited D.In.LinkIn D.Out.LinkOut S.failures D.has_client)) D.failures
        O.Sink words.now (moment shelf.old door spawner) (moment shelf.new result.door result.spawner) out.old out.new
        result.status }

    // Whatever the status is, and so at 5, 6 and 8 too: what stands of a run, and of the writes of other commands.
    ensures stopped { (about : TextsOf) → AsksToRun words.now about
        → StandsServed (outside F.Shelf (hosts D.visited D.In.LinkIn D.Out.LinkOut S.failures D.has_client)) words.now
        (moment shelf.old door spawner) (moment shelf.new result.door result.spawner) }
    ensures stopped_alone { AsksNoRun words.now → Stands F.Shelf shelf.old shelf.new (without_run words.now) }

    // What each other status says.
    ensures done { AsksNoRun words.now → result.status ≡ 0 → (verdict : VerdictOf)
        × IsDone F.Shelf shelf.old shelf.new (without_run words.now) verdict
        × TookLine (O.holds out.old) (O.holds out.new) (line_of verdict) }
    ensures faults { AsksNoRun words.now → result.status ≡ 4 → (asked : CommandOf) × (plan : Plan) × (first : State)
        × (lists : List (List Entry))
        × RunsToEnd F.Shelf shelf.old shelf.new (without_run words.now) asked plan first lists
        × (((last_state plan first lists).faults).count ≢ 0)
        × TookLine (O.holds out.old) (O.holds out.new) (line_of (end_verdict asked plan first lists)) }
    ensures usage { result.status ≡ 1 → AreRefused (with_run words.now) × Went F.Shelf shelf.old shelf.new []
        × TookLine (O.holds out.old) (O.holds out.new) (line_of Usage) }
    ensures text_refused { result.status ≡ 2 → (line : List ℕ)
        × RefusesText F.Shelf shelf.old shelf.new (with_run words.now) line
        × TookLine (O.holds out.old) (O.holds out.new) line }
    ensures plan_refused { result.status ≡ 3 → (line : List ℕ)
        × RefusesPlan F.Shelf shelf.old shelf.new (with_run words.now) line
        × TookLine (O.holds out.old) (O.holds out.new) line }
    ensures shelf_fault { result.status ≡ 5 → Rose (F.failures shelf.old) (F.failures shelf.new) }
    ensures journal_length { result.status ≡ 7 → (plan : Plan) × (first : State) × (journal : Journal)
        × Misfits F.Shelf shelf.old shelf.new (with_run words.now) plan first journal
        × TookLine (O.holds out.old) (O.holds out.new) (line_of (length_verdict plan first journal)) }
    ensures sink_fault { result.status ≡ 8 → Rose (O.failures out.old) (O.failures out.new) }
    ensures no_file { result.status ≡ 9 → (name : List ℕ)
        × MissesFile F.Shelf shelf.old shelf.new (with_run words.now) name
        × TookLine (O.holds out.old) (O.holds out.new) (line_of (NoFile name)) }
    ensures refused_same { IsRefusal (with_run words.now) result.status
        → HoldsSame (F.holds shelf.old) (F.holds shelf.new) }
    ensures refused_generated { (objects : ℕ) → Asks (with_run words.now) (commands.Gen objects)
        → (result.status ≡ 2) ⊎ (result.status ≡ 3) → HoldsTexts objects (F.holds shelf.old) (F.holds shelf.new) }

    // When each comes. Want of memory is free, and a failed sink decides over all else.
    ensures usage_all { AreRefused (with_run words.now) → EndsWith result.status 1 }
    ensures no_file_all { (about : TextsOf) (given : _)
        → Finds F.Shelf shelf.old (with_run words.now) about given
        → Contains given None → ¬ Rose (F.failures shelf.old) (F.failures shelf.new) → EndsWith result.status 9 }
    ensures text_refused_all { (asked : CommandOf) (given : Sources)
        → Gives F.Shelf shelf.old (with_run words.now) asked given
        → AreRefusedTexts (aim_of asked) given
        → ¬ Rose (F.failures shelf.old) (F.failures shelf.new) → EndsWith result.status 2 }
    ensures plan_refused_all { (asked : CommandOf) (given : Sources) (line : List ℕ)
        → Gives F.Shelf shelf.old (with_run words.now) asked given → IsPlanRefused given.s_define given.input line
        → ¬ Rose (F.failures shelf.old) (F.failures shelf.new) → EndsWith result.status 3 }
    ensures journal_length_all { (asked : CommandOf) (given : Sources)
        → Gives F.Shelf shelf.old (with_run words.now) asked given
        → aim_of asked ≡ aims.Run → AreAccepted given → IsMisfitIn given
        → ¬ Rose (F.failures shelf.old) (F.failures shelf.new) → EndsWith result.status 7 }
    ensures complete { (asked : CommandOf) (given : Sources)
        → Gives F.Shelf shelf.old (with_run words.now) asked given
        → AreAccepted given → IsFittingIn given
        → ¬ Rose (F.failures shelf.old) (F.failures shelf.new) → ¬ Rose (O.failures out.old) (O.failures out.new)
        → (result.status ≡ 0) ⊎ (((result.status ≡ 4) × (aim_of asked ≡ aims.Run)) ⊎ (result.status ≡ 6)) }
{
    laws::one_command();
    texts_have_one_meaning();
    trick_model::laws::plans_are_sound();
    trick_model::laws::runs_start_valid();
    served_runs_keep_the_headline::<F, D, S>();
    runs_of_nobody_are_alone();
    fronts_are_sent::<D, S>();
    let lent = Lent {
        rt,
        door,
        spawner,
        gate,
    };
    answer_shared(alloc, words, lent, shelf, out)
}
