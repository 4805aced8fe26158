ghost use Rattle.std.specs.Prelude.{◌≡◌, ◌∷◌, ◌+◌, ◌-◌, ◌<◌, ◌≤◌, ◌^◌, [], IsTrue, Ok, OnOk, length, nat_lt, pos, ℕ};
ghost use Rattle.trick_lang.specs.Effect.{ran, scalars_of};
ghost use Rattle.trick_eval.specs.Evaluation.{Ran, SameShape, seen, setting_of};
ghost use Rattle.trick_eval.specs.Machine.{Fits, Went, block_weight, code_weight, left, picked as picked_of, stack_weight};
ghost use Rattle.trick_lang.specs.Numbers.{and_then, is_true};
ghost use Rattle.trick_lang.specs.Run.{assigned, at_line, changed, first_value, local_of, run as run_of, turn_count, with_local, with_stored};
ghost use Rattle.trick_lang.specs.TreeOf.{branches_of, change_of, code_of, codes_of, else_of, first_value_of, spot_of, term_of};
ghost use Rattle.trick_lang.specs.Passes.{branch_passes, change_passes, code_passes, first_passes, place_passes, term_passes};
ghost use Rattle.trick_lang.specs.Valid.{code_fits, deep_at, span_test};
ghost use Rattle.trick_lang.specs.Value.{value};
ghost use Rattle.trick_eval.specs.declared.stack.Frame.TheVariants.{Rest, Turns};
ghost use Rattle.trick_lang.specs.Wrap.{scalar_at, wrap as wrap_of};

use crate::expression::{apply, find, value_of};
use crate::stack::{Frame, Stack};
use crate::working::Working;
use trick_lang::{
    Arithmetic, Bound, Branch, Change, Expr, FaultKind, Place, Program, Scalar, StatementFault,
    Stmt, Variable, wrap,
};

// Whether the test of the statement in that line is true.
fn test_holds(
    line: u32,
    test: &Expr,
    base: u32,
    memory: &[i64],
    working: &Working,
) -> Result<bool, StatementFault>
    requires { IsTrue (term_passes span_test (term_of test.now)) }
    ensures { result ≡ at_line line (value (term_of test.now) (seen base memory.now working.now))
        (λ n. Ok (is_true n)) }
{
    match value_of(test, base, memory, working) {
        Ok(number) => Ok(number != 0),
        Err(kind) => Err(StatementFault { kind, line }),
    }
}

// The number that an assignment makes of the old one.
fn change_number(
    change: &Change,
    old: i64,
    base: u32,
    memory: &[i64],
    working: &Working,
) -> Result<i64, FaultKind>
    requires { IsTrue (change_passes span_test (change_of change.now)) }
    ensures { result ≡ changed (change_of change.now) old (seen base memory.now working.now) }
{
    match change {
        Change::Set(value) => value_of(value, base, memory, working),
        Change::Update(operator, value) => {
            let number = value_of(value, base, memory, working)?;
            apply(*operator, old, number)
        }
        Change::Increase => apply(Arithmetic::Plus, old, 1),
        Change::Decrease => apply(Arithmetic::Minus, old, 1),
    }
}

// The type of a cell.
fn scalar_of(cells: &[Variable], cell: usize) -> Scalar
    ensures { result ≡ scalar_at (scalars_of cells.now) cell }
{
    if cell < cells.len() {
        cells[cell].scalar
    } else {
        Scalar::Long
    }
}

// The cell of an assignment and its number.
fn assignment(
    place: &Place,
    change: &Change,
    base: u32,
    memory: &[i64],
    working: &Working,
) -> Result<(usize, i64), FaultKind>
    requires place { IsTrue (place_passes span_test (spot_of place.now)) }
    requires change { IsTrue (change_passes span_test (change_of change.now)) }
    ensures { result ≡ assigned (spot_of place.now) (change_of change.now)
        (seen base memory.now working.now) }
{
    let cell = find(place, base, memory, working)?;
    let old = working.cell(memory, cell);
    let number = change_number(change, old, base, memory, working)?;
    Ok((cell, number))
}

fn assign(
    program: &Program,
    line: u32,
    place: &Place,
    change: &Change,
    base: u32,
    memory: &[i64],
    working: &mut Working,
) -> Result<(), StatementFault>
    requires place { IsTrue (place_passes span_test (spot_of place.now)) }
    requires change { IsTrue (change_passes span_test (change_of change.now)) }
    ensures ran { Ran result working.new (at_line line
        (assigned (spot_of place.now) (change_of change.now) (seen base memory.now working.old))
        (λ w. Ok (with_stored working.old w.0
        (wrap_of (scalar_at (scalars_of program.now.cells) w.0) w.1)))) }
    ensures shape { SameShape working.old working.new }
{
    match assignment(place, change, base, memory, working) {
        Ok((cell, number)) => {
            let scalar = scalar_of(program.cells.as_slice(), cell);
            working.store(cell, wrap(scalar, number as i128));
            Ok(())
        }
        Err(kind) => Err(StatementFault { kind, line }),
    }
}

fn set_local(
    line: u32,
    slot: u32,
    scalar: Scalar,
    change: &Change,
    base: u32,
    memory: &[i64],
    working: &mut Working,
) -> Result<(), StatementFault>
    requires passes { IsTrue (change_passes span_test (change_of change.now)) }
    ensures ran { Ran result working.new (at_line line
        (changed (change_of change.now) (local_of working.old slot)
        (seen base memory.now working.old))
        (λ n. Ok (with_local working.old slot (wrap_of scalar n)))) }
    ensures shape { SameShape working.old working.new }
{
    let old = working.local(slot);
    match change_number(change, old, base, memory, working) {
        Ok(number) => {
            working.set_local(slot, wrap(scalar, number as i128));
            Ok(())
        }
        Err(kind) => Err(StatementFault { kind, line }),
    }
}

// The first value of a local variable.
fn first_number(
    value: &Option<Expr>,
    base: u32,
    memory: &[i64],
    working: &Working,
) -> Result<i64, FaultKind>
    requires { IsTrue (first_passes span_test (first_value_of value.now)) }
    ensures { result ≡ first_value (first_value_of value.now) (seen base memory.now working.now) }
{
    match value {
        None => Ok(0),
        Some(value) => value_of(value, base, memory, working),
    }
}

fn declare(
    line: u32,
    slot: u32,
    scalar: Scalar,
    value: &Option<Expr>,
    base: u32,
    memory: &[i64],
    working: &mut Working,
) -> Result<(), StatementFault>
    requires passes { IsTrue (first_passes span_test (first_value_of value.now)) }
    ensures ran { Ran result working.new (at_line line
        (first_value (first_value_of value.now)
        (seen base memory.now (with_local working.old slot (pos 0))))
        (λ n. Ok (with_local (with_local working.old slot (pos 0)) slot (wrap_of scalar n)))) }
    ensures shape { SameShape working.old working.new }
{
    working.set_local(slot, 0);
    match first_number(value, base, memory, working) {
        Ok(number) => {
            working.set_local(slot, wrap(scalar, number as i128));
            Ok(())
        }
        Err(kind) => Err(StatementFault { kind, line }),
    }
}

// The number that the variable of a loop does not reach.
fn end(bound: Bound) -> u64
    ensures turns { (from : ℕ) → result - from ≡ turn_count from bound }
    ensures small { result ≤ 2 ^ 32 }
{
    match bound {
        Bound::Below(bound) => bound as u64,
        Bound::UpTo(bound) => bound as u64 + 1,
    }
}

// The block that an `if` runs, if it runs one.
fn pick(
    branches: &[Branch],
    otherwise: Option<u32>,
    base: u32,
    memory: &[i64],
    working: &Working,
) -> Result<Option<u32>, StatementFault>
    requires { IsTrue (branch_passes span_test (branches_of branches.now (else_of otherwise))) }
    ensures { result ≡ picked_of (branches_of branches.now (else_of otherwise))
        (seen base memory.now working.now) }
{
    for branch in branches {
        match test_holds(branch.line, &branch.test, base, memory, working) {
            Ok(true) => return Ok(Some(branch.block)),
            Ok(false) => {}
            Err(stop) => return Err(stop),
        }
    }
    Ok(otherwise)
}

// Does what a statement does at once, and puts the frames of the rest on the stack.
fn perform(
    program: &Program,
    statement: &Stmt,
    base: u32,
    memory: &[i64],
    working: &mut Working,
    stack: &mut Stack,
) -> Result<(), StatementFault>
    requires passes { IsTrue (code_passes span_test (code_of statement.now)) }
    requires room { IsTrue (code_fits program.now.blocks (length stack.old.frames) stack.old.room
        (code_of statement.now)) }
    requires fits { Fits program.now.blocks stack.old.room stack.old.frames }
    ensures ran { Went result
        (and_then (run_of (code_of statement.now) (setting_of program.now base memory.now) working.old)
        (left program.now base memory.now stack.old.frames))
        (left program.now base memory.now stack.new.frames working.new) }
    ensures fits { OnOk result (Fits program.now.blocks stack.new.room stack.new.frames) }
    ensures lighter { OnOk result (stack_weight (codes_of program.now.blocks) stack.new.frames
        < code_weight (code_of statement.now) (block_weight (codes_of program.now.blocks))
        + stack_weight (codes_of program.now.blocks) stack.old.frames) }
    ensures room { stack.new.room ≡ stack.old.room }
    ensures shape { SameShape working.old working.new }
{
    match statement {
        Stmt::Empty => Ok(()),
        Stmt::Declare {
            line,
            slot,
            scalar,
            value,
        } => declare(*line, *slot, *scalar, value, base, memory, working),
        Stmt::SetLocal {
            line,
            slot,
            scalar,
            change,
        } => set_local(*line, *slot, *scalar, change, base, memory, working),
        Stmt::Assign {
            line,
            place,
            change,
        } => assign(program, *line, place, change, base, memory, working),
        Stmt::If {
            branches,
            otherwise,
        } => {
            match pick(branches, *otherwise, base, memory, working) {
                Ok(Some(block)) => {
                    stack.enter(block as usize);
                    Ok(())
                }
                Ok(None) => Ok(()),
                Err(stop) => Err(stop),
            }
        }
        Stmt::For {
            slot,
            from,
            bound,
            block,
        } => {
            stack.push(Frame::Turns {
                slot: *slot,
                number: *from,
                end: end(*bound),
                block: *block,
            });
            Ok(())
        }
        Stmt::Run(block) => {
            stack.enter(*block as usize);
            Ok(())
        }
    }
}

// Goes on with a block at a statement.
fn go_on(
    program: &Program,
    block: usize,
    at: usize,
    base: u32,
    memory: &[i64],
    working: &mut Working,
    stack: &mut Stack,
) -> Result<(), StatementFault>
    requires fits { Fits program.now.blocks stack.old.room
        (Rest block at ∷ stack.old.frames) }
    ensures ran { Went result
        (left program.now base memory.now (Rest block at ∷ stack.old.frames) working.old)
        (left program.now base memory.now stack.new.frames working.new) }
    ensures fits { OnOk result (Fits program.now.blocks stack.new.room stack.new.frames) }
    ensures lighter { OnOk result (stack_weight (codes_of program.now.blocks) stack.new.frames
        < stack_weight (codes_of program.now.blocks) (Rest block at ∷ stack.old.frames)) }
    ensures room { stack.new.room ≡ stack.old.room }
    ensures shape { SameShape working.old working.new }
{
    let blocks = program.blocks.as_slice();
    if block >= blocks.len() {
        return Ok(());
    }
    let statements = blocks[block].statements.as_slice();
    if at >= statements.len() {
        return Ok(());
    }
    stack.push(Frame::Rest { block, at: at + 1 });
    perform(program, &statements[at], base, memory, working, stack)
}

// Does the next turn of a loop, if one is left.
fn next_turn(
    program: &Program,
    slot: u32,
    number: u64,
    end: u64,
    block: u32,
    working: &mut Working,
    stack: &mut Stack,
)
    requires fits { Fits program.now.blocks stack.old.room
        (Turns slot number end block ∷ stack.old.frames) }
    ensures ran { (base : ℕ) → (memory : _) →
        left program.now base memory (Turns slot number end block ∷ stack.old.frames) working.old
        ≡ left program.now base memory stack.new.frames working.new }
    ensures fits { Fits program.now.blocks stack.new.room stack.new.frames }
    ensures lighter { stack_weight (codes_of program.now.blocks) stack.new.frames
        < stack_weight (codes_of program.now.blocks) (Turns slot number end block ∷ stack.old.frames) }
    ensures room { stack.new.room ≡ stack.old.room }
    ensures shape { SameShape working.old working.new }
{
    if number < end {
        working.set_local(slot, number as i64);
        stack.push(Frame::Turns {
            slot,
            number: number + 1,
            end,
            block,
        });
        stack.enter(block as usize);
    }
}

// Does a step of the topmost frame, which is no longer on the stack.
fn step(
    program: &Program,
    frame: Frame,
    base: u32,
    memory: &[i64],
    working: &mut Working,
    stack: &mut Stack,
) -> Result<(), StatementFault>
    requires fits { Fits program.now.blocks stack.old.room (frame ∷ stack.old.frames) }
    ensures ran { Went result
        (left program.now base memory.now (frame ∷ stack.old.frames) working.old)
        (left program.now base memory.now stack.new.frames working.new) }
    ensures fits { OnOk result (Fits program.now.blocks stack.new.room stack.new.frames) }
    ensures lighter { OnOk result (stack_weight (codes_of program.now.blocks) stack.new.frames
        < stack_weight (codes_of program.now.blocks) (frame ∷ stack.old.frames)) }
    ensures room { stack.new.room ≡ stack.old.room }
    ensures shape { SameShape working.old working.new }
{
    match frame {
        Frame::Rest { block, at } => go_on(program, block, at, base, memory, working, stack),
        Frame::Turns {
            slot,
            number,
            end,
            block,
        } => {
            next_turn(program, slot, number, end, block, working, stack);
            Ok(())
        }
    }
}

/// Runs a block. The stack is empty, and has room for the frames of the block.
pub fn run(
    program: &Program,
    block: usize,
    base: u32,
    memory: &[i64],
    working: &mut Working,
    stack: &mut Stack,
) -> Result<(), StatementFault>
    requires empty { stack.old.frames ≡ [] }
    requires room { deep_at program.now.blocks block ≤ stack.old.room }
    requires some { 0 < stack.old.room }
    ensures ran { Ran result working.new (ran program.now base block memory.now working.old) }
    ensures room { stack.new.room ≡ stack.old.room }
    ensures shape { SameShape working.old working.new }
{
    stack.enter(block);
    while let Some(frame) = stack.pop() {
        if let Err(stop) = step(program, frame, base, memory, working, stack) {
            return Err(stop);
        }
    }
    Ok(())
}
