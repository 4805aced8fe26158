//! The table of actions.

ghost use Rattle.std.specs.Prelude.{◌≡◌, map};
ghost use Rattle.trick_command.specs.Rows.{form_of};
ghost use Rattle.trick_command.specs.Seen.{pieces_in};
ghost use Rattle.trick_model.specs.Commands.{action_forms};

use crate::piece::{Piece, call};

/// A form of an action.
#[derive(Clone, Copy, Debug, PartialEq, Eq)]
pub enum Row {
    /// `PATH = LIT`
    Assign,
    /// `trick.var_set("PATH", LIT)`
    SetVariable,
    /// `trick.exec_set_job_onoff("job", I, LIT)`
    SetJob,
    /// `trick.freeze()`
    Freeze,
    /// `trick.exec_freeze()`
    ExecFreeze,
    /// `trick.stop()`
    Stop,
    /// `trick.stop(TIME)`
    StopAt,
    /// `trick.checkpoint()`
    Checkpoint,
    /// `trick.dr_enable_group("name")`
    EnableGroup,
    /// `trick.dr_disable_group("name")`
    DisableGroup,
    /// `trick.activate_event("name")`
    ActivateEvent,
    /// `trick.deactivate_event("name")`
    DeactivateEvent,
}

/// The rows in the order of the table: where words have two forms, the first counts.
pub fn rows() -> &'static [Row]
    ensures { map form_of result.now ≡ action_forms }
{
    &[
        Row::Assign,
        Row::SetVariable,
        Row::SetJob,
        Row::Freeze,
        Row::ExecFreeze,
        Row::Stop,
        Row::StopAt,
        Row::Checkpoint,
        Row::EnableGroup,
        Row::DisableGroup,
        Row::ActivateEvent,
        Row::DeactivateEvent,
    ]
}

/// The pieces of a form.
pub fn pieces(row: Row) -> &'static [Piece]
    ensures { pieces_in result.now ≡ (form_of row).pieces }
{
    const COMMA: Piece = Piece::Is(b",");
    match row {
        Row::Assign => &[Piece::Path, Piece::Is(b"="), Piece::Literal],
        Row::SetVariable => call!(b"var_set", Piece::Quoted, COMMA, Piece::Literal),
        Row::SetJob => call!(
            b"exec_set_job_onoff",
            Piece::Quoted,
            COMMA,
            Piece::Whole,
            COMMA,
            Piece::Literal
        ),
        Row::Freeze => call!(b"freeze"),
        Row::ExecFreeze => call!(b"exec_freeze"),
        Row::Stop => call!(b"stop"),
        Row::StopAt => call!(b"stop", Piece::Time),
        Row::Checkpoint => call!(b"checkpoint"),
        Row::EnableGroup => call!(b"dr_enable_group", Piece::Quoted),
        Row::DisableGroup => call!(b"dr_disable_group", Piece::Quoted),
        Row::ActivateEvent => call!(b"activate_event", Piece::Quoted),
        Row::DeactivateEvent => call!(b"deactivate_event", Piece::Quoted),
    }
}
