//! Whole programs.

ghost use Rattle.std.specs.Prelude.{◌≡◌, ◌-◌, length, map, take};
ghost use Rattle.trick_grammar.specs.Gives.{Gives, class_of};
ghost use Rattle.trick_grammar.specs.Text.{read_all};
ghost use Rattle.trick_grammar_example.specs.Answers.{Answers};
ghost use Rattle.trick_grammar_example.specs.Statements.{program};
ghost use Rattle.trick_grammar_example.specs.Told.{told_line};
ghost use Rattle.trick_grammar_example.specs.Trees.{statement_of};
ghost use Rattle.trick_grammar_example.specs.Words.{number_of};

use crate::source::Source;
use crate::statements::read_statements;
use crate::telling::told_line;
use crate::tree::Stmt;
use crate::word::{Token, Word};
use std::alloc::Global;
use trick_grammar::{GrammarStop, Refusal};

/// Why a text is no program.
#[derive(Clone, Copy, Debug, PartialEq, Eq)]
pub enum Fault {
    /// Memory ran out.
    OutOfMemory,
    /// No program goes on with a token, which is the first one; told at this line.
    Refused { kind: Refusal, line: u32 },
}

/// A text and its tokens. It has `last_line` lines.
#[derive(Clone, Copy)]
pub struct Cut<'t> {
    pub text: &'t [u8],
    pub tokens: &'t [Token],
    pub last_line: u32,
}

/// program = { statement }, all of the tokens. Each list has at most `limit` items, and the rest
/// nests at most `depth` deep.
pub fn read_program(alloc: Global, cut: Cut, limit: usize, depth: usize) -> Result<Vec<Stmt>, Fault>
    ensures { Answers (λ v. map statement_of v.items) (program cut.entry.text.now limit depth)
        cut.entry.tokens.now cut.entry.last_line result }
{
    match read_to_end(alloc, cut, limit, depth) {
        Ok(statements) => Ok(statements),
        Err(GrammarStop::Memory) => Err(Fault::OutOfMemory),
        Err(GrammarStop::At(kind, rest)) => Err(Fault::Refused {
            kind,
            line: told_at(cut, kind, rest),
        }),
    }
}

// The line that a refusal of the rest is told with.
fn told_at(cut: Cut, kind: Refusal, rest: &[Token]) -> u32
    ensures { result ≡ told_line cut.entry.last_line kind
        (take (length cut.entry.tokens.now - length rest.now) cut.entry.tokens.now) rest.now }
{
    let front = &cut.tokens[..cut.tokens.len().saturating_sub(rest.len())];
    told_line(cut.last_line, kind, front, rest)
}

fn read_to_end<'t>(
    alloc: Global,
    cut: Cut<'t>,
    limit: usize,
    depth: usize,
) -> Result<Vec<Stmt>, GrammarStop<'t, Word>>
    ensures { Gives (λ v. map statement_of v.items) result
        (read_all number_of class_of (program cut.entry.text.now limit depth) cut.entry.tokens.now) }
{
    let source = Source {
        text: cut.text,
        limit,
        scope: &[],
    };
    let (statements, rest) = read_statements(alloc, source, depth, cut.tokens)?;
    match rest {
        [] => Ok(statements),
        [_, ..] => Err(GrammarStop::At(Refusal::Expected, rest)),
    }
}
