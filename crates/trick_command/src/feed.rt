//! Bytes go in, and lines come out.

ghost use Rattle.std.specs.Prelude.{◌≡◌, ◌≢◌, ◌↔◌, ◌++◌, ◌∷◌, [], Err, None, OnErr, OnOk};
ghost use Rattle.std.specs.Option.{option_to_list};
ghost use Rattle.trick_command.specs.Fed.{HasTaken, fed, nothing_fed};
ghost use Rattle.trick_model.specs.Commands.{without_return};

use crate::FeedFault;
use std::alloc::{AllocError, AllocFailed, Global};
use std::collections::VecDeque;
use std::marker::Model;
use trick_base::Line;

// The most bytes of a line.
const LINE_LIMIT: usize = 4096;

/// The lines of a client's bytes, which may come cut into any pieces. A line ends at a line feed, which
/// is dropped, with one carriage return before it. Once 4,097 bytes have come without a line feed, the
/// feed takes no more; the lines before them can still be pulled. Contracts see the lines that wait and
/// the bytes since the last line feed.
#[derive(Drop)]
pub struct Feed {
    alloc: Global,
    waiting: VecDeque<Line>,
    held: Option<Vec<u8>>,
}

impl Model for Feed {
    ghost use Rattle.std.specs.Prelude.{option_map};
    ghost use Rattle.trick_command.specs.Fed.{Fed};

    ghost Value = { Fed };

    ghost view = { λ feed. record {
      waiting = feed.waiting.items;
      held = option_map (λ held. held.items) feed.held;
    } };
}

// A line without the carriage return at its end.
fn without_return(line: &[u8]) -> &[u8]
    ensures { result.now ≡ without_return line.now }
{
    let Some((last, front)) = line.split_last() else {
        return line;
    };
    if *last == b'\r' { front } else { line }
}

impl Feed {
    /// A feed to which no byte has come. Takes no memory.
    pub fn new(alloc: Global) -> Self
        ensures { result ≡ nothing_fed }
    {
        Feed {
            alloc,
            waiting: VecDeque::new(alloc),
            held: Some(Vec::new(alloc)),
        }
    }

    // Puts the line that a line feed ends after those that wait. Without memory nothing changes.
    fn end_line(&mut self) -> Result<(), AllocError>
        ensures ok { OnOk result (self.new ≡ fed self.old (10 ∷ [])) }
        ensures err { OnErr result (self.new ≡ self.old) }
        ensures takes { OnErr result (self.old.held ≢ None) }
    {
        let Some(held) = &mut self.held else {
            return Ok(());
        };
        let line = Line::from_bytes(self.alloc, without_return(held))?;
        self.waiting.push_back(line)?;
        held.clear();
        Ok(())
    }

    // Holds one more byte, or takes no more where the line is too long. Without memory nothing changes.
    fn hold(&mut self, byte: u8) -> Result<(), AllocFailed<u8>>
        requires { byte ≢ 10 }
        ensures ok { OnOk result (self.new ≡ fed self.old (byte ∷ [])) }
        ensures err { OnErr result (self.new ≡ self.old) }
        ensures takes { OnErr result (self.old.held ≢ None) }
    {
        let Some(held) = &mut self.held else {
            return Ok(());
        };
        if held.len() < LINE_LIMIT {
            return held.push(byte);
        }
        self.held = None;
        Ok(())
    }

    // Takes one more byte. Without memory nothing changes.
    fn take(&mut self, byte: u8) -> Result<(), AllocError>
        ensures ok { OnOk result (self.new ≡ fed self.old (byte ∷ [])) }
        ensures err { OnErr result (self.new ≡ self.old) }
        ensures takes { OnErr result (self.old.held ≢ None) }
    {
        if byte == b'\n' {
            self.end_line()
        } else {
            self.hold(byte)?;
            Ok(())
        }
    }

    /// Takes a piece of the client's bytes. It is refused as `LongLine` once 4,097 bytes have come
    /// without a line feed, in this piece or an earlier one. A want of memory leaves the feed as it is
    /// after some first bytes of the piece. It takes time as the piece is long.
    pub fn push(&mut self, piece: &[u8]) -> Result<(), FeedFault>
        ensures bytes { result ≢ Err FeedFault.OutOfMemory → self.new ≡ fed self.old piece.now }
        ensures long { (result ≡ Err FeedFault.LongLine) ↔ (self.new.held ≡ None) }
        ensures memory { result ≡ Err FeedFault.OutOfMemory → HasTaken self.old piece.now self.new }
    {
        for byte in piece {
            self.take(*byte)?;
        }
        match self.held {
            Some(_) => Ok(()),
            None => Err(FeedFault::LongLine),
        }
    }

    /// Takes out the first of the lines that wait; none exactly where none waits. Takes no memory.
    pub fn pull(&mut self) -> Option<Line>
        ensures line { self.old.waiting ≡ option_to_list result ++ self.new.waiting }
        ensures none { (result ≡ None) ↔ (self.old.waiting ≡ []) }
        ensures held { self.new.held ≡ self.old.held }
    {
        self.waiting.pop_front()
    }
}
