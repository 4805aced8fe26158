//! The lines of the input, and how they are read.

use crate::mistake::Mistake;

/// How many times a piece comes: with the numbers from the first one up to the end, which does not belong to them.
#[derive(Clone, Copy)]
pub(crate) struct Times {
    pub(crate) first: u64,
    pub(crate) end: u64,
}

/// Once, with the number 0.
pub(crate) const ONCE: Times = Times { first: 0, end: 1 };

/// A piece of a text that is begun.
#[derive(Clone, Copy)]
pub(crate) enum Piece<'a> {
    /// `| long n;` is the piece and a line feed.
    Line(&'a str),
    /// `: long n;` is the piece alone.
    Part(&'a str),
    /// `= COUNTER` is the text of this name.
    Named(&'a str),
}

/// A line of the input.
#[derive(Clone, Copy)]
pub(crate) enum Line<'a> {
    /// `# Why` says something to the reader of the input; so does an empty line.
    Comment,
    /// `## Stops` begins a section.
    Section,
    /// `text COUNTER` begins a text with a name, for later use.
    Text(&'a str),
    /// `case A counter counts` begins a case, which has no file yet.
    Case,
    /// `file s` begins a file of the case.
    File(&'a str),
    /// `1000* : +1` adds a piece so many times to what is begun, with the numbers from 0, `1..1000* : +1`
    /// with those from 1, and `: +1` once.
    Pieces(Times, Piece<'a>),
    /// `@` is a hole of the file, in which each `- long n;` puts its piece; so is `\1` within a line, and `\2`
    /// or `@ 2` is one for the second piece of `- long @ n`.
    Hole(u64),
    /// `failing 3 5` lets these calls of the next shelf fail, of which the first is 0.
    Failing(&'a str),
    /// `sink 0` lets these calls of the next sink fail.
    Sink(&'a str),
    /// `taking 1` lets the next sink take at most so many bytes at a time.
    Taking(&'a str),
    /// `only s i` lets the next command begin with these of the files alone.
    Only(&'a str),
    /// `show final.chk` lets only these files be printed by their lines, up to the end of the case.
    Show(&'a str),
    /// `starts` lets it be printed how many threads each run asks to start, up to the end of the case.
    Starts,
    /// `run serial s i` does a command, and keeps the files that it wrote.
    Run(&'a str),
    /// `try serial s i` does a command, and keeps nothing.
    Try(&'a str),
    /// `each check s i` says what is done for each of the next lines.
    Each(&'a str),
    /// `- long n;` does it with this piece in the holes, and keeps nothing.
    With(&'a str),
    /// `fronts c x` does it with each beginning of the file `c` and this piece behind it.
    Fronts(&'a str),
}

impl<'a> Line<'a> {
    /// The line that this text is, without its line feed.
    pub(crate) fn read(text: &'a str) -> Result<Line<'a>, Mistake> {
        let (mark, rest) = halves(text);
        match mark {
            "" | "#" => Ok(Line::Comment),
            "##" => Ok(Line::Section),
            "text" => Ok(Line::Text(rest)),
            "case" => Ok(Line::Case),
            "starts" => Ok(Line::Starts),
            "file" => Ok(Line::File(rest)),
            "@" if rest.is_empty() => Ok(Line::Hole(1)),
            "@" => Ok(Line::Hole(number(rest)?)),
            "-" => Ok(Line::With(rest)),
            _ => command_or_piece(mark, rest),
        }
    }

    /// Whether the line is printed as it is.
    pub(crate) fn is_printed(&self) -> bool {
        match self {
            Line::Section | Line::Case | Line::Failing(_) | Line::Sink(_) | Line::Taking(_) => true,
            Line::Run(_) | Line::Try(_) | Line::Each(_) | Line::With(_) => true,
            Line::Only(_) | Line::Fronts(_) => true,
            _ => false,
        }
    }

    /// Whether an empty line is printed before it.
    pub(crate) fn is_title(&self) -> bool {
        matches!(self, Line::Section | Line::Case)
    }
}

/// What stands before the first blank and after it.
fn halves(text: &str) -> (&str, &str) {
    text.split_once(' ').unwrap_or((text, ""))
}

/// A line that says how commands are done, or does one, or a piece.
fn command_or_piece<'a>(mark: &str, rest: &'a str) -> Result<Line<'a>, Mistake> {
    match mark {
        "failing" => Ok(Line::Failing(rest)),
        "sink" => Ok(Line::Sink(rest)),
        "taking" => Ok(Line::Taking(rest)),
        "only" => Ok(Line::Only(rest)),
        "show" => Ok(Line::Show(rest)),
        "run" => Ok(Line::Run(rest)),
        "try" => Ok(Line::Try(rest)),
        "each" => Ok(Line::Each(rest)),
        "fronts" => Ok(Line::Fronts(rest)),
        _ => pieces(mark, rest),
    }
}

/// A piece, with how many times it comes.
fn pieces<'a>(mark: &str, rest: &'a str) -> Result<Line<'a>, Mistake> {
    let Some(times) = mark.strip_suffix('*') else {
        return Ok(Line::Pieces(ONCE, marked(mark, rest)?));
    };
    let times = times_of(times)?;
    let (mark, rest) = halves(rest);
    Ok(Line::Pieces(times, marked(mark, rest)?))
}

/// The numbers from 0, or from the first of two, up to the last one, which does not belong to them.
fn times_of(text: &str) -> Result<Times, Mistake> {
    let (first, end) = text.split_once("..").unwrap_or(("0", text));
    Ok(Times {
        first: number(first)?,
        end: number(end)?,
    })
}

/// The number that a text is.
pub(crate) fn number(text: &str) -> Result<u64, Mistake> {
    text.parse().map_err(|_| Mistake::Number)
}

/// A piece after its mark.
fn marked<'a>(mark: &str, rest: &'a str) -> Result<Piece<'a>, Mistake> {
    match mark {
        "|" => Ok(Piece::Line(rest)),
        ":" => Ok(Piece::Part(rest)),
        "=" => Ok(Piece::Named(rest)),
        _ => Err(Mistake::Mark),
    }
}
