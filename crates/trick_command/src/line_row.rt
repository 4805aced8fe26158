//! The table of clients' lines that are no actions.

ghost use Rattle.std.specs.Prelude.{◌≡◌, map};
ghost use Rattle.trick_command.specs.Rows.{line_form_of};
ghost use Rattle.trick_command.specs.Seen.{pieces_in};
ghost use Rattle.trick_model.specs.Commands.{command_forms};

use crate::piece::{Piece, call};

/// A form of a client's line that is no action.
#[derive(Clone, Copy, Debug, PartialEq, Eq)]
pub enum LineRow {
    /// No word.
    Empty,
    /// `trick.exec_run()`
    Resume,
    /// `trick.var_add("name")`
    Add,
    /// `trick.var_remove("name")`
    Remove,
    /// `trick.var_clear()`
    Clear,
    /// `trick.var_cycle(TIME)`
    Cycle,
    /// `trick.var_pause()`
    Pause,
    /// `trick.var_unpause()`
    Unpause,
    /// `trick.var_send()`
    Send,
    /// `trick.var_exists("name")`
    Exists,
    /// `trick.var_ascii()`
    Ascii,
    /// `trick.var_set_client_tag("text")`
    ClientTag,
    /// `trick.var_set_copy_mode(WHOLE)`
    CopyMode,
    /// `trick.var_exit()`
    Exit,
}

/// The rows in the order of the table.
pub fn line_rows() -> &'static [LineRow]
    ensures { map line_form_of result.now ≡ command_forms }
{
    &[
        LineRow::Empty,
        LineRow::Resume,
        LineRow::Add,
        LineRow::Remove,
        LineRow::Clear,
        LineRow::Cycle,
        LineRow::Pause,
        LineRow::Unpause,
        LineRow::Send,
        LineRow::Exists,
        LineRow::Ascii,
        LineRow::ClientTag,
        LineRow::CopyMode,
        LineRow::Exit,
    ]
}

/// The pieces of a form.
pub fn line_pieces(row: LineRow) -> &'static [Piece]
    ensures { pieces_in result.now ≡ (line_form_of row).pieces }
{
    match row {
        LineRow::Empty => &[],
        LineRow::Resume => call!(b"exec_run"),
        LineRow::Add => call!(b"var_add", Piece::Quoted),
        LineRow::Remove => call!(b"var_remove", Piece::Quoted),
        LineRow::Clear => call!(b"var_clear"),
        LineRow::Cycle => call!(b"var_cycle", Piece::Time),
        LineRow::Pause => call!(b"var_pause"),
        LineRow::Unpause => call!(b"var_unpause"),
        LineRow::Send => call!(b"var_send"),
        LineRow::Exists => call!(b"var_exists", Piece::Quoted),
        LineRow::Ascii => call!(b"var_ascii"),
        LineRow::ClientTag => call!(b"var_set_client_tag", Piece::Quoted),
        LineRow::CopyMode => call!(b"var_set_copy_mode", Piece::Whole),
        LineRow::Exit => call!(b"var_exit"),
    }
}
