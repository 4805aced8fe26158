//! A line of the cases.

/// Bytes that a line gives.
#[derive(Clone, Copy)]
pub enum Given<'l> {
    /// No byte.
    Nothing,
    /// These bytes, after `:`.
    Bytes(&'l str),
    /// These bytes and a line feed, after `|`.
    Line(&'l str),
    /// Those of the text of this name, after `=`.
    Named(&'l str),
}

/// What a line says.
#[derive(Clone, Copy)]
pub enum Line<'l> {
    /// Nothing: it is empty.
    Empty,
    /// Nothing: it is a comment, `# Why`.
    Comment,
    /// The head of a section, `## Numbers`.
    Head,
    /// A text of this name begins, `text input`.
    Text(&'l str),
    /// Bytes are added to a text, so many times: `| x = 1` with a line feed, `12* : x` without one.
    Add {
        /// How often.
        times: u64,
        /// Which bytes.
        given: Given<'l>,
    },
    /// A call with its words, `tokens input : x = 1`.
    Call {
        /// The name of the call, and what it is made with.
        words: &'l str,
        /// Its bytes.
        given: Given<'l>,
    },
}

// What a line of a text gives.
fn part(line: &str) -> Option<Given> {
    if line == "|" {
        return Some(Given::Line(""));
    }
    if let Some(text) = line.strip_prefix("| ") {
        return Some(Given::Line(text));
    }
    if let Some(text) = line.strip_prefix(": ") {
        return Some(Given::Bytes(text));
    }
    line.strip_prefix("= ").map(|name| Given::Named(name))
}

// What a line gives so many times, as `12* : x`.
fn repeated(line: &str) -> Option<(u64, Given)> {
    let (times, rest) = line.split_once("* ")?;
    Some((times.parse::<u64>().ok()?, part(rest)?))
}

// The words of a line, and what it gives.
fn halves(line: &str) -> (&str, Given) {
    if let Some((words, text)) = line.split_once(" : ") {
        return (words, Given::Bytes(text));
    }
    if let Some((words, name)) = line.split_once(" = ") {
        return (words, Given::Named(name));
    }
    match line.strip_suffix(" :") {
        Some(words) => (words, Given::Bytes("")),
        None => (line, Given::Nothing),
    }
}

// What a line of words says.
fn of_words(line: &str) -> Line {
    if let Some(name) = line.strip_prefix("text ") {
        return Line::Text(name);
    }
    let (words, given) = halves(line);
    Line::Call { words, given }
}

impl Line<'_> {
    /// What a line says.
    pub fn read(line: &str) -> Line<'_> {
        if line.is_empty() {
            return Line::Empty;
        }
        if line.starts_with("##") {
            return Line::Head;
        }
        if line.starts_with("#") {
            return Line::Comment;
        }
        if let Some(given) = part(line) {
            return Line::Add { times: 1, given };
        }
        match repeated(line) {
            Some((times, given)) => Line::Add { times, given },
            None => of_words(line),
        }
    }
}
