//! Texts, and what is read of them: lists of at most 4,096 items, and the rest 64 deep.

use std::alloc::{AllocError, Global};
use trick_grammar::{Lexeme, Refusal};
use trick_grammar_example::program::{Cut, Fault, read_program};
use trick_grammar_example::tree::{Expr, Stmt};
use trick_grammar_example::word::{Token, Word};

// A text is pieces with blanks or line ends between their tokens, each so many times.
type Pieces = &'static [(&'static [u8], usize)];

// Texts that are programs, and how many statements each has.
const READ: [(Pieces, usize); 16] = [
    (&[(b"", 1)], 0),
    (&[(b"x = a ;", 1)], 1),
    (&[(b"x = a + 2 * ( b - 1 ) ; y ++ ; z ( ) ;", 1)], 3),
    (&[(b"enum e { a , b , } ;", 1)], 1),
    (&[(b"enum e { a , b } ;", 1)], 1),
    // The name of a loop stands three times in its header, and is not assigned in its statement.
    (&[(b"for ( i = 0 ; i < 9 ; i ++ ) x = i ;", 1)], 1),
    (&[(b"for ( i = 0 ; i < 9 ; i ++ ) i ( ) ; i = 1 ;", 1)], 2),
    (
        &[(b"for ( i = 0 ; i < 9 ; i ++ ) { j = i ; j ++ ; }", 1)],
        1,
    ),
    (
        &[(
            b"for ( i = 0 ; i < 9 ; i ++ ) { for ( j = 0 ; j < 9 ; j ++ ) x ++ ; j = 1 ; }",
            1,
        )],
        1,
    ),
    // The deepest, and the longest lists.
    (&[(b"{ ", 64), (b"} ", 64)], 1),
    (&[(b"for ( i = 0 ; i < 9 ; i ++ ) ", 64), (b"x ++ ;", 1)], 1),
    // A statement takes one level itself.
    (
        &[
            (b"x = ", 1),
            (b"( ", 63),
            (b"a ", 1),
            (b") ", 63),
            (b";", 1),
        ],
        1,
    ),
    (&[(b"x ++ ; ", 4096)], 4096),
    (&[(b"enum e { ", 1), (b"a , ", 4096), (b"} ;", 1)], 1),
    // Chains have no bound.
    (
        &[(b"if ( a ) x ++ ; ", 1), (b"else if ( a ) x ++ ; ", 5000)],
        1,
    ),
    (&[(b"x = a ", 1), (b"+ a * b ", 100_000), (b";", 1)], 1),
];

// Texts of nine lines that are no programs, the reason, and the line that it is told with.
const REFUSED: [(Pieces, Refusal, u32); 25] = [
    (&[(b"x = a + ;", 1)], Refusal::Expected, 1),
    (&[(b"x = a +\n;", 1)], Refusal::Expected, 2),
    (&[(b"x = a\n", 1)], Refusal::Expected, 9),
    (&[(b"{ x = a ;", 1)], Refusal::Expected, 9),
    (&[(b"x = a ; }", 1)], Refusal::Expected, 1),
    (&[(b"enum e { a ,\n, } ;", 1)], Refusal::Expected, 2),
    (
        &[(b"if ( a ) x ++ ; else if ( b ) y ++ ; else z ++ ;\nelse", 1)],
        Refusal::Expected,
        2,
    ),
    // Headers of loops.
    (
        &[(b"x ++ ;\nfor (\ni = 0 ; j < 9 ; i ++ ) ;", 1)],
        Refusal::BadHeader,
        2,
    ),
    (
        &[(b"x ++ ;\nfor ( i = 0 ; i < 9 ;\nj ++ ) ;", 1)],
        Refusal::BadHeader,
        2,
    ),
    (
        &[(b"\nfor ( i = 0 ; i < 9 ; i\n= 1", 1)],
        Refusal::BadHeader,
        2,
    ),
    (&[(b"\nfor ( i = x", 1)], Refusal::BadHeader, 2),
    (&[(b"\nfor i", 1)], Refusal::BadHeader, 2),
    (&[(b"\nfor", 1)], Refusal::BadHeader, 2),
    (
        &[(
            b"for ( i = 0 ; i < 9 ; i ++ )\nfor ( j = 0 ; i < 9 ; j ++ ) x ++ ;",
            1,
        )],
        Refusal::BadHeader,
        2,
    ),
    // Statements of loops.
    (
        &[(b"for ( i = 0 ; i < 9 ; i ++ )\ni\n= 1 ;", 1)],
        Refusal::BadLoop,
        2,
    ),
    (
        &[(b"for ( i = 0 ; i < 9 ; i ++ )\ni\n++", 1)],
        Refusal::BadLoop,
        2,
    ),
    (
        &[(b"for ( i = 0 ; i < 9 ; i ++ ) i\n;", 1)],
        Refusal::Expected,
        2,
    ),
    (
        &[(
            b"for ( i = 0 ; i < 9 ; i ++ ) for ( j = 0 ; j < 9 ; j ++ )\ni = j ;",
            1,
        )],
        Refusal::BadLoop,
        2,
    ),
    (
        &[(
            b"for ( i = 0 ; i < 9 ; i ++ ) if ( i ) x ++ ; else\ni = x ;",
            1,
        )],
        Refusal::BadLoop,
        2,
    ),
    (
        &[(b"for ( i = 0 ; i < 9 ; i ++ )\n+", 1)],
        Refusal::Expected,
        2,
    ),
    // One level deeper, and one item longer.
    (&[(b"{ ", 64), (b"\n{ } ", 1)], Refusal::TooDeep, 2),
    (
        &[(b"for ( i = 0 ; i < 9 ; i ++ ) ", 64), (b"\nfor", 1)],
        Refusal::TooDeep,
        2,
    ),
    (
        &[(b"x = ", 1), (b"( ", 63), (b"\n( a ", 1)],
        Refusal::TooDeep,
        2,
    ),
    (&[(b"x ++ ; ", 4096), (b"\nx ++ ;", 1)], Refusal::TooLong, 2),
    (
        &[(b"enum e { ", 1), (b"a , ", 4096), (b"\na } ;", 1)],
        Refusal::TooLong,
        2,
    ),
];

fn text_of(alloc: Global, pieces: Pieces) -> Result<Vec<u8>, AllocError> {
    let mut text = Vec::new(alloc);
    for (piece, count) in pieces {
        for _ in 0..*count {
            text.extend_from_slice(piece)?;
        }
    }
    Ok(text)
}

fn tokens(alloc: Global, text: &[u8]) -> Result<Vec<Token>, AllocError> {
    let mut found = Vec::new(alloc);
    let mut start: usize = 0;
    let mut line: u32 = 1;
    for row in text.split(|byte| *byte == b'\n') {
        for piece in row.split(|byte| *byte == b' ') {
            let end = start.saturating_add(piece.len());
            if !piece.is_empty() {
                found.push(Lexeme {
                    class: Word::of_bytes(piece),
                    start,
                    end,
                    number: 0,
                    line,
                })?;
            }
            start = end.saturating_add(1);
        }
        line = line.saturating_add(1);
    }
    Ok(found)
}

fn read(alloc: Global, text: &[u8]) -> Result<Vec<Stmt>, Fault> {
    match tokens(alloc, text) {
        Ok(tokens) => {
            let cut = Cut {
                text,
                tokens: &tokens,
                last_line: 9,
            };
            read_program(alloc, cut, 4096, 64)
        }
        Err(_) => Err(Fault::OutOfMemory),
    }
}

// How many statements a text has.
fn count(alloc: Global, pieces: Pieces) -> Result<usize, Fault> {
    match text_of(alloc, pieces) {
        Ok(text) => {
            let statements = read(alloc, &text)?;
            Ok(statements.len())
        }
        Err(_) => Err(Fault::OutOfMemory),
    }
}

fn is_choice_with_else(branch: &Stmt) -> bool {
    match branch {
        Stmt::When(_, then) => matches!(**then, Stmt::ChooseOr(_, _, _)),
        _ => false,
    }
}

fn is_product(link: &Expr) -> bool {
    match link {
        Expr::Linked(Word::Minus, operand) => matches!(**operand, Expr::Chain(_, _)),
        _ => false,
    }
}

// Whether an `else` is with its nearest `if`, and a product is one operand of a difference.
fn are_nearest(statements: &[Stmt]) -> bool {
    match statements {
        [
            Stmt::Choose(branch, more),
            Stmt::Set(_, Expr::Chain(_, links)),
        ] => more.is_empty()
            && is_choice_with_else(branch)
            && links.len() == 2
            && is_product(&links[0]),
        _ => false,
    }
}

fn nearest_takes(alloc: Global) -> bool {
    let text = b"if ( a ) if ( b ) x ++ ; else y ++ ; z = a - b * c - d ;";
    match read(alloc, text.as_slice()) {
        Ok(statements) => are_nearest(&statements),
        Err(_) => false,
    }
}

#[test]
fn reads_and_refuses(rt: HostRuntime) {
    let alloc = rt.alloc();
    for (pieces, want) in READ {
        assert_eq!(rt; count(alloc, pieces), Ok(want), "{pieces:?}");
    }
    for (pieces, kind, line) in REFUSED {
        let want = Err(Fault::Refused { kind, line });
        assert_eq!(rt; count(alloc, pieces), want, "{pieces:?}");
    }
    assert!(rt; nearest_takes(alloc));
}
