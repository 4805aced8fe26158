//! The files that a command names.

ghost use Rattle.std.specs.Prelude.{◌≡◌, ◌∷◌, [], IfErr, IfOk, is_some, option_map, option_to_list};
ghost use Rattle.trick_top_alone.specs.Outcome.{HasFound, HasNotFound};
ghost use Rattle.trick_top_alone.specs.Sources.{AreNamed, contents_of, texts_of};
ghost use Rattle.trick_top_alone.specs.Verdict.{verdict_of};
ghost use Rattle.trick_top_alone.specs.Words.{journal_of as journal_of_task, names_of};

use crate::sources::Contents;
use crate::verdict::Verdict;
use std::alloc::Global;
use trick_base::{Items, Word};
use trick_outside::{Got, Shelf, get};
use trick_top_words::{Task, Texts};

/// The name of the journal under which a simulation is run, where there is one.
fn journal_of(task: &Task) -> Option<&Word>
    ensures { option_map (λ name. name.now) result ≡ journal_of_task task.now }
{
    match task {
        Task::Replay { journal } => Some(journal),
        Task::Serial | Task::Run { .. } | Task::Check | Task::List => None,
    }
}

/// The texts of the files that a command names. They are read in this order: the S_define, the input, the checkpoint
/// and the journal, the last two where they are named. The first that is missing, or of which the shelf or memory
/// failed, ends it with its verdict.
pub fn read_named<'a, F: Shelf>(
    alloc: Global,
    about: &'a Texts,
    shelf: &mut F,
) -> Result<Contents, Verdict<'a>>
    ensures found { IfOk result (λ contents.
        HasFound F.Shelf shelf.old shelf.new (names_of about.now) (texts_of (contents_of contents))) }
    ensures named { IfOk result (λ contents. AreNamed about.now (contents_of contents)) }
    ensures not_found { IfErr result (λ verdict.
        HasNotFound F.Shelf shelf.old shelf.new (names_of about.now) (verdict_of verdict)) }
{
    let s_define = read_file(alloc, &about.s_define, shelf)?;
    let input = read_file(alloc, &about.input, shelf)?;
    let from = read_if_named(alloc, about.from.as_ref(), shelf)?;
    let journal = read_if_named(alloc, journal_of(&about.task), shelf)?;
    Ok(Contents {
        s_define,
        input,
        from,
        journal,
    })
}

/// The text of a file, where it is named.
fn read_if_named<'a, F: Shelf>(
    alloc: Global,
    name: Option<&'a Word>,
    shelf: &mut F,
) -> Result<Option<Items<u8>>, Verdict<'a>>
    ensures found { IfOk result (λ text. HasFound F.Shelf shelf.old shelf.new
        (option_to_list (option_map (λ name. name.now) name.entry)) (option_to_list text)) }
    ensures named { IfOk result (λ text. is_some text ≡ is_some (option_map (λ name. name.now) name.entry)) }
    ensures not_found { IfErr result (λ verdict. HasNotFound F.Shelf shelf.old shelf.new
        (option_to_list (option_map (λ name. name.now) name.entry)) (verdict_of verdict)) }
{
    match name {
        Some(name) => Ok(Some(read_file(alloc, name, shelf)?)),
        None => Ok(None),
    }
}

/// The text of a file.
fn read_file<'a, F: Shelf>(
    alloc: Global,
    name: &'a Word,
    shelf: &mut F,
) -> Result<Items<u8>, Verdict<'a>>
    ensures found { IfOk result (λ text. HasFound F.Shelf shelf.old shelf.new (name.now ∷ []) (text ∷ [])) }
    ensures not_found { IfErr result (λ verdict.
        HasNotFound F.Shelf shelf.old shelf.new (name.now ∷ []) (verdict_of verdict)) }
{
    match get(shelf, alloc, name) {
        Got::Found(text) => Ok(Items::from_vec(text)),
        Got::Missing => Err(Verdict::NoFile(name)),
        Got::Failed => Err(Verdict::ShelfFault),
        Got::OutOfMemory => Err(Verdict::OutOfMemory),
    }
}
