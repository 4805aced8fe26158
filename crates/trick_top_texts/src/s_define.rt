//! From an S_define to its program.

ghost use Rattle.std.specs.Prelude.{Err, IfErr, IfOk, List, Ok, ℕ};
ghost use Rattle.trick_check.specs.Named.{IsNamed};
ghost use Rattle.trick_check.specs.Refused.{IsRefused};
ghost use Rattle.trick_lang.specs.SDefineOf.{sdefine_of};
ghost use Rattle.trick_top_texts.specs.Answers.{IsUnready};
ghost use Rattle.trick_top_texts.specs.Texts.{HasProgram};
ghost use Rattle.trick_sdef.specs.Answers.{IsSDefine};

use crate::Unready;
use std::alloc::Global;
use trick_check::{CheckFault, resolve};
use trick_lang::Program;
use trick_lang::syntax::SDefine;
use trick_sdef::{SdefFault, read_sdef};
use trick_top_refusals::{check_line, s_define_line};

// The refusal of an S_define by its reader.
fn unread(alloc: Global, fault: SdefFault) -> Unready
    ensures { (s_define input : List ℕ) → IsSDefine s_define (Err fault) → IsUnready s_define input result }
{
    match fault {
        SdefFault::OutOfMemory => Unready::OutOfMemory,
        fault => Unready::by_text(s_define_line(alloc, fault)),
    }
}

// The refusal of an S_define whose tree names no program.
fn unnamed(alloc: Global, tree: &SDefine, fault: &CheckFault) -> Unready
    requires { IsRefused (sdefine_of tree.now) fault.now }
    ensures { (s_define input : List ℕ) → IsSDefine s_define (Ok tree.now) → IsUnready s_define input result }
{
    match fault {
        CheckFault::OutOfMemory => Unready::OutOfMemory,
        fault => Unready::by_text(check_line(alloc, fault)),
    }
}

// The program that a tree names.
fn name(alloc: Global, tree: &SDefine) -> Result<Program, Unready>
    ensures named { IfOk result (IsNamed (sdefine_of tree.now)) }
    ensures refused { IfErr result (λ unready. (s_define input : List ℕ) → IsSDefine s_define (Ok tree.now)
        → IsUnready s_define input unready) }
{
    match resolve(alloc, tree) {
        Ok(program) => Ok(program),
        Err(fault) => Err(unnamed(alloc, tree, &fault)),
    }
}

/// The program of an S_define.
pub(crate) fn program(alloc: Global, s_define: &[u8]) -> Result<Program, Unready>
    ensures program { IfOk result (HasProgram s_define.now) }
    ensures refused { IfErr result (λ unready. (input : List ℕ) → IsUnready s_define.now input unready) }
{
    match read_sdef(alloc, s_define) {
        Ok(tree) => name(alloc, &tree),
        Err(fault) => Err(unread(alloc, fault)),
    }
}
