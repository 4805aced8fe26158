ghost use Rattle.std.specs.Prelude.{◌≡◌, ◌≢◌, ◌⊎◌, ℕ, List, [], None, Contains};
ghost use Rattle.trick_model.specs.State.{State};
ghost use Rattle.trick_model.specs.declared.entry.Entry.{Entry};
ghost use Rattle.trick_model.specs.declared.journal.Journal.{Journal};
ghost use Rattle.trick_model.specs.declared.plan.Plan.{Plan};
ghost use Rattle.trick_outside.specs.Causes.{Rose};
ghost use Rattle.trick_outside.specs.Does.{Went};
ghost use Rattle.trick_top_texts.specs.Texts.{IsPlanRefused};
ghost use Rattle.trick_top_alone.specs.Acts.{last_state, length_verdict};
ghost use Rattle.trick_top_alone.specs.Aims as aims;
ghost use Rattle.trick_top_alone.specs.Answered.{HasAnswered};
ghost use Rattle.trick_top_alone.specs.Called.{HasCalled};
ghost use Rattle.trick_top_alone.specs.Outcome.{HasGone, HasPerformed};
ghost use Rattle.trick_top_alone.specs.Printed.{Prints};
ghost use Rattle.trick_top_alone.specs.Sources.{Sources, contents_of};
ghost use Rattle.trick_top_alone.specs.Status.{AreAccepted, AreRefusedTexts, EndsWith, Finds, Gives, HoldsSame, HoldsTexts};
ghost use Rattle.trick_top_alone.specs.Status.{IsDone, IsFittingIn, IsMisfitIn, IsRefusal, Misfits, MissesFile};
ghost use Rattle.trick_top_alone.specs.Status.{RefusesPlan, RefusesText, RunsToEnd, Stands, TookLine, end_verdict};
ghost use Rattle.trick_top_alone.specs.Verdict.{NoFile, OutOfMemory, Usage, line_of, verdict_of};
ghost use Rattle.trick_top_alone.specs.Verdict.{Verdict as VerdictOf};
ghost use Rattle.trick_top_alone.specs.Words.{AreRefused, Asked, Asks, aim_of, aim_of_task, without_run};
ghost use Rattle.trick_top_words.specs.declared.command.Command.TheVariants as commands;
ghost use Rattle.trick_top_words.specs.declared.command.Command.{Command as CommandOf};
ghost use Rattle.trick_top_words.specs.declared.command.Texts.{Texts as TextsOf};

use crate::files::read_named;
use crate::generated::run_generated;
use crate::sources::{Contents, as_sources};
use crate::texts::perform_on;
use crate::verdict::Verdict;
use crate::words::read_words;
use std::alloc::Global;
use trick_base::Word;
use trick_outside::{Printed, Shelf, Sink, put};
use trick_top_texts::laws::texts_have_one_meaning;
use trick_top_words::{Command, Texts, laws};

/// What a command does with the texts of its files.
fn go_on<F: Shelf>(
    alloc: Global,
    about: &Texts,
    contents: Contents,
    shelf: &mut F,
) -> Verdict<'static>
    ensures { HasPerformed F.Shelf shelf.old shelf.new (aim_of_task about.now.task) (contents_of contents)
        (verdict_of result) }
{
    perform_on(alloc, &about.task, as_sources(&contents), shelf)
}

/// What a command does with its files; its verdict is not printed yet.
fn perform<'a, F: Shelf>(alloc: Global, about: &'a Texts, shelf: &mut F) -> Verdict<'a>
    ensures { HasGone F.Shelf shelf.old shelf.new (Asked (commands.Texts about.now)) (verdict_of result) }
{
    match read_named(alloc, about, shelf) {
        Ok(contents) => go_on(alloc, about, contents, shelf),
        Err(verdict) => verdict,
    }
}

/// Does what is asked for; the verdict is not printed yet.
fn fulfil<'a, F: Shelf>(alloc: Global, command: &'a Command, shelf: &mut F) -> Verdict<'a>
    ensures { HasGone F.Shelf shelf.old shelf.new (Asked command.now) (verdict_of result) }
{
    match command {
        Command::Texts(about) => perform(alloc, about, shelf),
        Command::Gen { objects } => run_generated(alloc, *objects, shelf),
    }
}

/// Prints a verdict's line. The status of the program.
fn print_line<O: Sink>(verdict: &Verdict, line: &[u8], out: &mut O) -> u8
    requires { line.now ≡ line_of (verdict_of verdict.now) }
    ensures { Prints O.Sink out.old out.new (verdict_of verdict.now) result }
{
    match put(out, line) {
        Printed::Done => verdict.status(),
        Printed::Failed => 8,
        Printed::OutOfMemory => 6,
    }
}

/// Prints a verdict, or want of memory where there is none for its line. The status of the program.
pub fn print<O: Sink>(alloc: Global, verdict: &Verdict, out: &mut O) -> u8
    ensures { Prints O.Sink out.old out.new (verdict_of verdict.now) result }
{
    if let Some(line) = verdict.held_line() {
        return print_line(verdict, line, out);
    }
    match verdict.line(alloc) {
        Ok(line) => print_line(verdict, &line, out),
        Err(_) => print_out_of_memory(out),
    }
}

/// Prints the line of want of memory, for which no memory is needed. Answers the status of the program:
/// 6, or 8 where the sink failed.
pub fn print_out_of_memory<O: Sink>(out: &mut O) -> u8
    ensures { Prints O.Sink out.old out.new OutOfMemory result }
{
    print_line(&Verdict::OutOfMemory, b"refused OutOfMemory\n", out)
}

/// Does what the words ask for, and prints its verdict's line. The status of the program.
fn answer<F: Shelf, O: Sink>(alloc: Global, words: &[Word], shelf: &mut F, out: &mut O) -> u8
    ensures { HasAnswered F.Shelf O.Sink shelf.old shelf.new out.old out.new (without_run words.now) result }
{
    match read_words(alloc, words) {
        Ok(Some(command)) => {
            let verdict = fulfil(alloc, &command, shelf);
            print(alloc, &verdict, out)
        }
        Ok(None) => print(alloc, &Verdict::Usage, out),
        Err(_) => print_out_of_memory(out),
    }
}

/// Does what the words of a command line ask for, but for the command that runs threads: it waits
/// for nobody. The words come without the program's name. Answers the status of the program (see
/// docs/RULES.md); the sink is given one line, last of all, and before it one more by `gen`.
///
/// The commands are `serial`, `check` and `list`, each followed by the names of an S_define and of an input,
/// `replay`, followed by these and the name of a journal, and `gen`, followed by a number of objects. `serial`
/// writes the files of the run without clients, and `replay` those of the run under the journal; both go on
/// from a checkpoint where `--from` names one. `gen` writes its two texts and then the files of their run; and
/// the other two write nothing. After the shelf failed it is not called again.
pub fn tricks_alone<F: Shelf, O: Sink>(
    alloc: Global,
    words: &[Word],
    shelf: &mut F,
    out: &mut O,
) -> u8
    // One row of the table of statuses, with all calls of the shelf and all pieces that the sink was
    // given.
    ensures row { HasAnswered F.Shelf O.Sink shelf.old shelf.new out.old out.new (without_run words.now) result }
    ensures called { HasCalled F.Shelf O.Sink shelf.old shelf.new out.old out.new result }

    // What each status says.
    ensures done { result ≡ 0 → (verdict : VerdictOf)
        × IsDone F.Shelf shelf.old shelf.new (without_run words.now) verdict
        × TookLine (O.holds out.old) (O.holds out.new) (line_of verdict) }
    ensures usage { result ≡ 1 → AreRefused (without_run words.now) × Went F.Shelf shelf.old shelf.new []
        × TookLine (O.holds out.old) (O.holds out.new) (line_of Usage) }
    ensures text_refused { result ≡ 2 → (line : List ℕ)
        × RefusesText F.Shelf shelf.old shelf.new (without_run words.now) line
        × TookLine (O.holds out.old) (O.holds out.new) line }
    ensures plan_refused { result ≡ 3 → (line : List ℕ)
        × RefusesPlan F.Shelf shelf.old shelf.new (without_run words.now) line
        × TookLine (O.holds out.old) (O.holds out.new) line }
    ensures faults { result ≡ 4 → (asked : CommandOf) × (plan : Plan) × (first : State) × (lists : List (List Entry))
        × RunsToEnd F.Shelf shelf.old shelf.new (without_run words.now) asked plan first lists
        × (((last_state plan first lists).faults).count ≢ 0)
        × TookLine (O.holds out.old) (O.holds out.new) (line_of (end_verdict asked plan first lists)) }
    ensures shelf_fault { result ≡ 5 → Rose (F.failures shelf.old) (F.failures shelf.new) }
    ensures journal_length { result ≡ 7 → (plan : Plan) × (first : State) × (journal : Journal)
        × Misfits F.Shelf shelf.old shelf.new (without_run words.now) plan first journal
        × TookLine (O.holds out.old) (O.holds out.new) (line_of (length_verdict plan first journal)) }
    ensures sink_fault { result ≡ 8 → Rose (O.failures out.old) (O.failures out.new) }
    ensures no_file { result ≡ 9 → (name : List ℕ) × MissesFile F.Shelf shelf.old shelf.new (without_run words.now) name
        × TookLine (O.holds out.old) (O.holds out.new) (line_of (NoFile name)) }
    ensures refused_same { IsRefusal (without_run words.now) result
        → HoldsSame (F.holds shelf.old) (F.holds shelf.new) }
    ensures refused_generated { (objects : ℕ) → Asks (without_run words.now) (commands.Gen objects)
        → (result ≡ 2) ⊎ (result ≡ 3) → HoldsTexts objects (F.holds shelf.old) (F.holds shelf.new) }

    // Whatever the status is, and so at 5, 6 and 8 too: what stands of the writes.
    ensures stopped { Stands F.Shelf shelf.old shelf.new (without_run words.now) }

    // When each comes. Want of memory is free, and a failed sink decides over all else.
    ensures usage_all { AreRefused (without_run words.now) → EndsWith result 1 }
    ensures no_file_all { (about : TextsOf) (given : _)
        → Finds F.Shelf shelf.old (without_run words.now) about given
        → Contains given None → ¬ Rose (F.failures shelf.old) (F.failures shelf.new) → EndsWith result 9 }
    ensures text_refused_all { (asked : CommandOf) (given : Sources)
        → Gives F.Shelf shelf.old (without_run words.now) asked given
        → AreRefusedTexts (aim_of asked) given
        → ¬ Rose (F.failures shelf.old) (F.failures shelf.new) → EndsWith result 2 }
    ensures plan_refused_all { (asked : CommandOf) (given : Sources) (line : List ℕ)
        → Gives F.Shelf shelf.old (without_run words.now) asked given → IsPlanRefused given.s_define given.input line
        → ¬ Rose (F.failures shelf.old) (F.failures shelf.new) → EndsWith result 3 }
    ensures journal_length_all { (asked : CommandOf) (given : Sources)
        → Gives F.Shelf shelf.old (without_run words.now) asked given
        → aim_of asked ≡ aims.Run → AreAccepted given → IsMisfitIn given
        → ¬ Rose (F.failures shelf.old) (F.failures shelf.new) → EndsWith result 7 }
    ensures complete { (asked : CommandOf) (given : Sources)
        → Gives F.Shelf shelf.old (without_run words.now) asked given
        → AreAccepted given → IsFittingIn given
        → ¬ Rose (F.failures shelf.old) (F.failures shelf.new) → ¬ Rose (O.failures out.old) (O.failures out.new)
        → (result ≡ 0) ⊎ (((result ≡ 4) × (aim_of asked ≡ aims.Run)) ⊎ (result ≡ 6)) }
{
    laws::one_command();
    texts_have_one_meaning();
    answer(alloc, words, shelf, out)
}
