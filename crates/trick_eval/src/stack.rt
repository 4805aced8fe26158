ghost use Rattle.std.specs.Prelude.{◌≡◌, ◌∷◌, ◌<◌, [], IfOk, MatchOption, length};
ghost use Rattle.trick_eval.specs.declared.stack.Frame.TheVariants.{Rest};

use std::alloc::{AllocError, Global};
use std::marker::Model;

/// What is left of a block, or of the turns of a loop.
#[derive(Clone, Copy)]
pub enum Frame {
    Rest {
        block: usize,
        at: usize,
    },
    Turns {
        slot: u32,
        number: u64,
        end: u64,
        block: u32,
    },
}

/// Frames, the topmost first, and how many have room.
#[derive(Drop)]
pub struct Stack {
    frames: Vec<Frame>,
}

impl Model for Stack {
    ghost use Rattle.std.specs.Prelude.{reverse, vec_capacity};
    ghost use Rattle.trick_eval.specs.Frames.{Frames};

    ghost Value = { Frames };

    ghost view = { λ s. record { frames = reverse s.frames.items; room = vec_capacity s.frames } };
}

impl Stack {
    /// No frames, with room for so many.
    pub fn new(alloc: Global, room: usize) -> Result<Self, AllocError>
        ensures { IfOk result (λ s. s ≡ record { frames = []; room = room }) }
    {
        Ok(Stack {
            frames: Vec::with_capacity(alloc, room)?,
        })
    }

    /// Puts a frame on top.
    pub fn push(&mut self, frame: Frame)
        requires { length self.old.frames < self.old.room }
        ensures { self.new ≡ record { frames = frame ∷ self.old.frames; room = self.old.room } }
    {
        self.frames.push_reserved(frame);
    }

    /// Puts the frame of a whole block on top.
    pub fn enter(&mut self, block: usize)
        requires { length self.old.frames < self.old.room }
        ensures { self.new ≡ record { frames = Rest block 0 ∷ self.old.frames; room = self.old.room } }
    {
        self.push(Frame::Rest { block, at: 0 });
    }

    /// Takes the topmost frame.
    pub fn pop(&mut self) -> Option<Frame>
        ensures frames { MatchOption result (self.old.frames ≡ []) (λ f. self.old.frames ≡ f ∷ self.new.frames) }
        ensures none { MatchOption result (self.new.frames ≡ []) (λ _. self.new.room ≡ self.old.room) }
        ensures room { self.new.room ≡ self.old.room }
    {
        self.frames.pop()
    }

    /// Takes all frames away.
    pub fn clear(&mut self)
        ensures { self.new ≡ record { frames = []; room = self.old.room } }
    {
        self.frames.clear();
    }
}
