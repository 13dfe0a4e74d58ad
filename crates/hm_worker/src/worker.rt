ghost use Rattle.std.specs.Prelude.{◌≡◌, ◌≤◌, ◌+◌, ℕ, List, [], length};
ghost use Rattle.hm_frame.specs.Links.{max_datagram_len};
ghost use Rattle.hm_shared.specs.Books.{Holds};
ghost use Rattle.hm_shared.specs.History.{SwitchSetup, SwitchTurn};
ghost use Rattle.hm_shared.specs.JournalText.{journal_text};
ghost use Rattle.hm_shared.specs.Written.{PutsPieces};
ghost use Rattle.hm_worker.specs.Working.{Work, HasTurned, Ends, Goes};

use crate::worker_end::WorkerEnd;
use hm_base::entries::PageRoom;
use hm_codec::buf::{Buf, MAX_LEN};
use hm_codec::decode::decode;
use hm_codec::encode::encode;
use hm_frame::datagram::Taken;
use hm_frame::link::Link;
use hm_frame::link_law::link_calls_add_up;
use hm_outside::device::{NotPut, Sink};
use hm_packet::packet::Packet;
use hm_packet::turn::Turn;
use hm_shared::book::{Book, Turned};
use std::alloc::Global;

/// A worker of a switch: the link that it takes from and sends to, how many turns it made, how many packets it sent, and how it
/// ended.
#[derive(Drop)]
pub struct Worker<L> {
    pub link: L,
    pub took: u64,
    pub sent: u64,
    pub end: WorkerEnd,
}

impl<L> Worker<L> {
    /// A worker before its first take.
    pub fn new(link: L) -> Worker<L>
        ensures { result ≡ record { link = link; took = 0; sent = 0; end = WorkerEnd.Ended } }
    {
        Worker {
            link,
            took: 0,
            sent: 0,
            end: WorkerEnd::Ended,
        }
    }
}

impl<L: Link> Worker<L> {
    /// Takes at most so often, and hands each packet that comes to the switch: what that sends of it goes out.
    pub fn work(&mut self, book: &mut Book, most: u64)
        ensures { (setup : SwitchSetup) → Holds book.old setup []
            → (turns : List SwitchTurn) × Holds book.new setup turns × Ends self.new.end setup
            (record { took = 0; sent = 0; came = L.coming self.old.link; posted = L.sent self.old.link; faults = L.faults self.old.link })
            (record { took = self.new.took; sent = self.new.sent; came = L.coming self.new.link; posted = L.sent self.new.link; faults = L.faults self.new.link })
            turns most }
    {
        self.took = 0;
        self.sent = 0;
        self.end = self.take_turns(book, most);
    }

    /// Works over a new book, and then writes the journal of all turns to the sink.
    pub fn run<K: Sink>(
        &mut self,
        alloc: Global,
        mut book: Book,
        most: u64,
        sink: &mut K,
    ) -> Result<(), NotPut>
        ensures { (setup : SwitchSetup) → Holds book setup []
            → (turns : List SwitchTurn) × Ends self.new.end setup
            (record { took = 0; sent = 0; came = L.coming self.old.link; posted = L.sent self.old.link; faults = L.faults self.old.link })
            (record { took = self.new.took; sent = self.new.sent; came = L.coming self.new.link; posted = L.sent self.new.link; faults = L.faults self.new.link })
            turns most
            × PutsPieces result (journal_text turns) (K.held sink.old) (K.held sink.new) (K.faults sink.old) (K.faults sink.new) }
    {
        self.work(&mut book, most);
        book.write_journal(alloc, sink)
    }

    /// Takes at most so often, and answers how it ended.
    fn take_turns(&mut self, book: &mut Book, most: u64) -> WorkerEnd
        requires { (self.old.took ≡ 0) × (self.old.sent ≡ 0) }
        ensures { (setup : SwitchSetup) → Holds book.old setup []
            → (turns : List SwitchTurn) × Holds book.new setup turns × Ends result setup
            (record { took = self.old.took; sent = self.old.sent; came = L.coming self.old.link; posted = L.sent self.old.link; faults = L.faults self.old.link })
            (record { took = self.new.took; sent = self.new.sent; came = L.coming self.new.link; posted = L.sent self.new.link; faults = L.faults self.new.link })
            turns most }
    {
        link_calls_add_up();
        let mut buf = [0; MAX_LEN];
        let mut spelled = Buf::new();
        let mut count = 0;
        while count < most {
            match self.turn(book, &mut buf, &mut spelled) {
                Ok(()) => count += 1,
                Err(end) => return end,
            }
        }
        WorkerEnd::TurnsSpent
    }

    /// Takes what comes. A packet is a turn of the switch, and what the switch sends goes out.
    fn turn(
        &mut self,
        book: &mut Book,
        buf: &mut [u8],
        spelled: &mut Buf<MAX_LEN>,
    ) -> Result<(), WorkerEnd>
        requires { length buf.old ≡ max_datagram_len }
        ensures { (setup : SwitchSetup) (start : Work) (turns : List SwitchTurn) (count : ℕ)
            → Holds book.old setup turns → HasTurned setup start (record { took = self.old.took; sent = self.old.sent; came = L.coming self.old.link; posted = L.sent self.old.link; faults = L.faults self.old.link }) turns count
            → Goes result book.new setup start (record { took = self.new.took; sent = self.new.sent; came = L.coming self.new.link; posted = L.sent self.new.link; faults = L.faults self.new.link }) count }
    {
        link_calls_add_up();
        let len = match self.link.take(buf) {
            Taken::Datagram(len) => len,
            Taken::Quiet => return Ok(()),
            Taken::Ended => return Err(WorkerEnd::Ended),
            Taken::Failed => return Err(WorkerEnd::LinkFault),
        };
        let mut room = PageRoom::new();
        let mut packet = Packet::blank();
        match decode(&buf[..len], &mut room, &mut packet) {
            Ok(()) => {}
            Err(_) => return Ok(()),
        }
        let Turned { turn, place } = book.turn(0, &packet);
        if let Turn::Spent = turn {
            return Err(WorkerEnd::SwitchSpent);
        }
        // The book is this worker's alone, so that all its turns are.
        self.took = u64::from(place) + 1;
        if let Turn::Sent(packet) = turn {
            encode(&packet, spelled);
            match self.link.send(packet.dst, spelled.as_slice()) {
                Ok(()) => self.sent = sent_after(self.sent, place),
                Err(_) => return Err(WorkerEnd::LinkFault),
            }
        }
        Ok(())
    }
}

/// How many packets were sent after the turn at this place sent one, where each turn before it sent one at most.
fn sent_after(before: u64, place: u32) -> u64
    ensures { before ≤ place → result ≡ before + 1 }
{
    before.min(u64::from(place)) + 1
}
