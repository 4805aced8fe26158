//! A reader and a writer as works, each for a thread of its own.

ghost use Rattle.std.specs.Prelude.{◌≡◌};

use crate::{
    Heard, Message, Putter, ReaderDone, Taker, WriteStop, WriterDone, read_all, write_all,
};
use std::alloc::Global;
use std::sync::{Arc, Wait};
use trick_outside::{LinkIn, LinkOut, Work};
use trick_turn::Bell;

/// The work of a reader, which is `read_all`.
#[derive(Drop)]
pub struct Reader<I, R> {
    pub rt: R,
    pub alloc: Global,
    pub link: I,
    /// What it fills.
    pub inbox: Putter<Heard>,
    /// The bell of the one who empties the inbox.
    pub bell: Arc<Bell>,
}

impl<I: LinkIn + Send + Drop, R: Wait + Send + Drop> Work for Reader<I, R> {
    ghost use Rattle.std.specs.Prelude.{◌≡◌, []};
    ghost use Rattle.trick_wire.specs.Ends.{IsSamePutter, put_by};
    ghost use Rattle.trick_wire.specs.HasRead.{HasRead};

    type Out = ReaderDone<I>;

    ghost promises = { λ work done. IsSamePutter work.inbox done.inbox
        × (put_by work.inbox ≡ [] → HasRead (I.holds work.link) (I.holds done.link) (I.failures work.link)
        (I.failures done.link) done.stop (put_by done.inbox)) };

    fn run(self) -> ReaderDone<I> {
        let Reader {
            rt,
            alloc,
            link,
            inbox,
            bell,
        } = self;
        read_all(&rt, alloc, link, inbox, bell)
    }
}

/// The work of a writer, which is `write_all`.
#[derive(Drop)]
pub struct Writer<O, R> {
    pub rt: R,
    pub link: O,
    /// What it empties.
    pub outbox: Taker<Message>,
    /// Where it puts why it stopped.
    pub causes: Putter<WriteStop>,
    /// The bell of the one who fills the outbox.
    pub bell: Arc<Bell>,
}

impl<O: LinkOut + Send + Drop, R: Wait + Send + Drop> Work for Writer<O, R> {
    ghost use Rattle.std.specs.Prelude.{◌≡◌, ◌<◌, []};
    ghost use Rattle.trick_wire.specs.Ends.{IsSamePutter, IsSameTaker, put_by, room_of, taken_by};
    ghost use Rattle.trick_wire.specs.HasWritten.{HasWritten, cause_of};

    type Out = WriterDone<O>;

    ghost promises = { λ work done. IsSameTaker work.outbox done.outbox × IsSamePutter work.causes done.causes
        × (taken_by work.outbox ≡ [] → HasWritten (O.holds work.link) (O.holds done.link) (O.failures work.link)
        (O.failures done.link) done.stop (taken_by done.outbox))
        × (0 < room_of work.causes → put_by work.causes ≡ [] → put_by done.causes ≡ cause_of done.stop) };

    fn run(self) -> WriterDone<O> {
        let Writer {
            rt,
            link,
            outbox,
            causes,
            bell,
        } = self;
        write_all(&rt, link, outbox, causes, bell)
    }
}
