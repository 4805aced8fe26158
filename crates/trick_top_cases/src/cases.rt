//! The case that is read, and what each line does to it.

use crate::by_threads::{ByThreads, by_threads};
use crate::escapes::{bytes_of, is_numbered, numbers_of, pieces_of, text_of, words_of};
use crate::line::{Line, ONCE, Piece, Times, number};
use crate::mistake::Mistake;
use crate::outcome::{Given, Outcome, Setting, outcome_of};
use crate::report::{tell, tell_front};
use crate::text::{Text, all_filled, find, put};
use std::alloc::{AllocError, Global};
use std::mem;
use std::sync::Wait;
use std::thread::Threads;
use trick_base::Word;
use trick_cases_report::Report;

/// What was begun, to which pieces are added: the last of its list.
#[derive(Clone, Copy)]
enum Begun {
    Nothing,
    Text,
    File,
}

/// A piece as it is written, and what stands after it.
#[derive(Clone, Copy)]
struct Written<'l> {
    text: &'l str,
    end: &'static [u8],
}

/// The texts with names, the case with its files, and how its next command is done.
#[derive(Drop)]
pub(crate) struct Cases<R> {
    // By which threads are started.
    rt: R,
    texts: Vec<Text>,
    files: Vec<Text>,
    begun: Begun,
    setting: Setting,
    each: Vec<Word>,
    shown: Option<Vec<Word>>,
    // Whether it is printed how many threads a run asks for.
    tells_starts: bool,
}

impl<R: Threads + Wait + Copy + Send + Drop + 'static> Cases<R> {
    /// No text and no case.
    pub(crate) fn new(rt: R, alloc: Global) -> Cases<R> {
        Cases {
            rt,
            texts: Vec::new(alloc),
            files: Vec::new(alloc),
            begun: Begun::Nothing,
            setting: Setting::new(alloc),
            each: Vec::new(alloc),
            shown: None,
            tells_starts: false,
        }
    }

    /// Does a line, and reports what it comes to.
    pub(crate) fn take(
        &mut self,
        alloc: Global,
        text: &str,
        report: &mut Report,
    ) -> Result<(), Mistake> {
        let line = Line::read(text)?;
        if line.is_title() {
            report.word("\n");
        }
        if line.is_printed() {
            report.word(text);
            report.word("\n");
        }
        self.perform(alloc, line, report)
    }

    fn perform(&mut self, alloc: Global, line: Line, report: &mut Report) -> Result<(), Mistake> {
        match line {
            Line::Comment | Line::Section => Ok(()),
            Line::Text(name) => self.begin(alloc, Begun::Text, name),
            Line::File(name) => self.begin(alloc, Begun::File, name),
            Line::Pieces(times, piece) => self.add(alloc, times, piece),
            Line::Hole(number) => self.add_hole(alloc, number),
            Line::Run(words) => self.run(alloc, words, report),
            Line::Try(words) => self.attempt(alloc, words, report),
            Line::With(pieces) => self.with(alloc, pieces, report),
            Line::Fronts(rest) => self.fronts(alloc, rest, report),
            setting => self.set(alloc, setting),
        }
    }

    /// Does a line that says how the next commands are done.
    fn set(&mut self, alloc: Global, line: Line) -> Result<(), Mistake> {
        match line {
            Line::Case => self.begin_case(alloc),
            Line::Failing(calls) => self.setting.failing = numbers_of(alloc, calls)?,
            Line::Sink(calls) => self.setting.sink = numbers_of(alloc, calls)?,
            Line::Taking(most) => self.setting.taking = number(most)?,
            Line::Only(names) => self.setting.only = Some(words_of(alloc, names)?),
            Line::Show(names) => self.shown = Some(words_of(alloc, names)?),
            Line::Starts => self.tells_starts = true,
            Line::Each(words) => self.each = words_of(alloc, words)?,
            _ => {}
        }
        Ok(())
    }

    fn begin_case(&mut self, alloc: Global) {
        self.files = Vec::new(alloc);
        self.begun = Begun::Nothing;
        self.each = Vec::new(alloc);
        self.shown = None;
        self.tells_starts = false;
    }

    /// Begins a text or a file.
    fn begin(&mut self, alloc: Global, begun: Begun, name: &str) -> Result<(), Mistake> {
        let text = Text::new(alloc, bytes_of(alloc, name)?, Vec::new(alloc));
        let texts = match begun {
            Begun::Text => &mut self.texts,
            _ => &mut self.files,
        };
        put(texts, text)?;
        self.begun = begun;
        Ok(())
    }

    /// The text or the file that was begun.
    fn last(&mut self) -> Result<&mut Text, Mistake> {
        let last = match self.begun {
            Begun::Nothing => None,
            Begun::Text => self.texts.last_mut(),
            Begun::File => self.files.last_mut(),
        };
        last.ok_or(Mistake::Closed)
    }

    fn add_hole(&mut self, alloc: Global, number: u64) -> Result<(), Mistake> {
        self.last()?.add_hole(alloc, number)?;
        Ok(())
    }

    /// Adds a piece so many times.
    fn add(&mut self, alloc: Global, times: Times, piece: Piece) -> Result<(), Mistake> {
        match piece {
            Piece::Line(text) => self.add_part(alloc, times, Written { text, end: b"\n" }),
            Piece::Part(text) => self.add_part(alloc, times, Written { text, end: b"" }),
            Piece::Named(name) => self.add_named(alloc, times, name),
        }
    }

    fn add_named(&mut self, alloc: Global, times: Times, name: &str) -> Result<(), Mistake> {
        let named = self.named(alloc, name)?;
        let done = self.add_times(alloc, times, &named, b"");
        drop(named);
        done
    }

    /// The bytes and holes of the text of this name.
    fn named(&self, alloc: Global, name: &str) -> Result<Text, Mistake> {
        let name = bytes_of(alloc, name)?;
        let named = find(&self.texts, &name).ok_or(Mistake::Name)?;
        Ok(named.copied(alloc)?)
    }

    fn add_part(&mut self, alloc: Global, times: Times, written: Written) -> Result<(), Mistake> {
        if is_numbered(written.text) {
            return self.add_numbered(alloc, times, written);
        }
        self.add_written(alloc, times, written, 0)
    }

    /// Adds a piece so many times, each with its number.
    fn add_numbered(
        &mut self,
        alloc: Global,
        times: Times,
        written: Written,
    ) -> Result<(), Mistake> {
        for time in times.first..times.end {
            self.add_written(alloc, ONCE, written, time)?;
        }
        Ok(())
    }

    /// Adds a piece with this number so many times.
    fn add_written(
        &mut self,
        alloc: Global,
        times: Times,
        written: Written,
        time: u64,
    ) -> Result<(), Mistake> {
        let piece = text_of(alloc, written.text, time)?;
        let done = self.add_times(alloc, times, &piece, written.end);
        drop(piece);
        done
    }

    /// Adds the same piece so many times, and its end after it.
    fn add_times(
        &mut self,
        alloc: Global,
        times: Times,
        piece: &Text,
        end: &[u8],
    ) -> Result<(), Mistake> {
        let last = self.last()?;
        for _time in times.first..times.end {
            last.add_text(alloc, piece)?;
            last.add(end)?;
        }
        Ok(())
    }

    /// What a command comes to, and what it comes to by threads.
    fn both(&self, alloc: Global, given: Given) -> Result<(Outcome, ByThreads), AllocError> {
        let outcome = outcome_of(alloc, given)?;
        match by_threads(self.rt, alloc, given, &outcome) {
            Ok(seen) => Ok((outcome, seen)),
            Err(error) => {
                drop(outcome);
                Err(error)
            }
        }
    }

    /// The same with these pieces in the holes.
    fn with_pieces(
        &self,
        alloc: Global,
        words: &[Word],
        setting: &Setting,
        pieces: &[Vec<u8>],
    ) -> Result<(Outcome, ByThreads), AllocError> {
        let before = all_filled(alloc, &self.files, pieces)?;
        let given = Given {
            words,
            setting,
            before: &before,
        };
        let done = self.both(alloc, given);
        drop(before);
        done
    }

    /// The same as the setting says, which is used up.
    fn outcome(
        &mut self,
        alloc: Global,
        words: &[Word],
        pieces: &[Vec<u8>],
    ) -> Result<(Outcome, ByThreads), AllocError> {
        let setting = mem::replace(&mut self.setting, Setting::new(alloc));
        let done = self.with_pieces(alloc, words, &setting, pieces);
        drop(setting);
        done
    }

    /// Does a command with these pieces in the holes, and reports what it comes to.
    fn tell(
        &mut self,
        alloc: Global,
        words: &[Word],
        pieces: &[Vec<u8>],
        report: &mut Report,
    ) -> Result<Outcome, AllocError> {
        let (outcome, seen) = self.outcome(alloc, words, pieces)?;
        tell(report, &outcome, self.shown.as_ref());
        if self.tells_starts {
            report.number("starts ", seen.starts, "\n");
        }
        if !seen.is_same {
            report.word("by threads it comes to something else\n");
        }
        Ok(outcome)
    }

    /// Does a command, and keeps the files that it wrote.
    fn run(&mut self, alloc: Global, words: &str, report: &mut Report) -> Result<(), Mistake> {
        let words = words_of(alloc, words)?;
        let outcome = self.tell(alloc, &words, &[], report);
        drop(words);
        self.keep(outcome?)?;
        Ok(())
    }

    fn keep(&mut self, outcome: Outcome) -> Result<(), AllocError> {
        for file in outcome.written {
            put(&mut self.files, file)?;
        }
        Ok(())
    }

    /// Does a command, and keeps nothing.
    fn attempt(&mut self, alloc: Global, words: &str, report: &mut Report) -> Result<(), Mistake> {
        let words = words_of(alloc, words)?;
        let outcome = self.tell(alloc, &words, &[], report);
        drop(words);
        drop(outcome?);
        Ok(())
    }

    /// Does the command of `each` with these pieces in the holes, and keeps nothing.
    fn attempt_each(
        &mut self,
        alloc: Global,
        pieces: &[Vec<u8>],
        report: &mut Report,
    ) -> Result<(), Mistake> {
        let words = self.each.clone()?;
        let outcome = self.tell(alloc, &words, pieces, report);
        drop(words);
        drop(outcome?);
        Ok(())
    }

    /// The same with the pieces of a line.
    fn with(&mut self, alloc: Global, pieces: &str, report: &mut Report) -> Result<(), Mistake> {
        let pieces = pieces_of(alloc, pieces)?;
        let done = self.attempt_each(alloc, &pieces, report);
        drop(pieces);
        done
    }

    /// Does the command of `each` with each beginning of a file and a piece behind it, and keeps nothing.
    fn fronts(&mut self, alloc: Global, rest: &str, report: &mut Report) -> Result<(), Mistake> {
        let (name, piece) = rest.split_once(' ').unwrap_or((rest, ""));
        let whole = self.file(alloc, name)?;
        let done = self.each_front(alloc, &whole, piece, report);
        put(&mut self.files, whole)?;
        done
    }

    /// The file of this name without what follows a hole.
    fn file(&self, alloc: Global, name: &str) -> Result<Text, Mistake> {
        let name = bytes_of(alloc, name)?;
        let file = find(&self.files, &name).ok_or(Mistake::Name)?;
        Ok(file.front(alloc, file.bytes.len(), b"")?)
    }

    fn each_front(
        &mut self,
        alloc: Global,
        whole: &Text,
        piece: &str,
        report: &mut Report,
    ) -> Result<(), Mistake> {
        let piece = bytes_of(alloc, piece)?;
        for count in 0..whole.bytes.len() {
            put(&mut self.files, whole.front(alloc, count, &piece)?)?;
            self.tell_front(alloc, count, report)?;
        }
        Ok(())
    }

    /// Does the command of `each`, and reports in a line what it comes to with so many bytes.
    fn tell_front(
        &mut self,
        alloc: Global,
        count: usize,
        report: &mut Report,
    ) -> Result<(), AllocError> {
        let words = self.each.clone()?;
        let done = self.outcome(alloc, &words, &[]);
        drop(words);
        let (outcome, _seen) = done?;
        tell_front(report, count, &outcome);
        drop(outcome);
        Ok(())
    }
}
