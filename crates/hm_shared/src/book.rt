ghost use Rattle.std.specs.Prelude.{◌≡◌, ◌⊎◌, List, [], length, slice_get, Some, None, IfOk, OnOk, IfErr};
ghost use Rattle.hm_shared.specs.History.{SwitchSetup, SwitchTurn};
ghost use Rattle.hm_shared.specs.Books.{Holds, TakesTurn, book_fault};
ghost use Rattle.hm_shared.specs.JournalText.{journal_text};
ghost use Rattle.hm_shared.specs.Written.{PutsPieces};

use crate::journal::Record;
use crate::text::put_journal;
use hm_outside::device::{NotPut, Sink};
use hm_packet::packet::Packet;
use hm_packet::route::Route;
use hm_packet::turn::Turn;
use hm_switch::fault::SwitchFault;
use hm_switch::switch::Switch;
use std::alloc::Global;
use std::marker::Model;

/// The greatest number of turns of which a book keeps records.
pub const MAX_BOOK_LIFE: u32 = 1_048_576;

/// What a switch made of a packet, and the place of the turn in the journal, counted from 0.
#[derive(Drop)]
pub struct Turned {
    pub turn: Turn,
    pub place: u32,
}

/// A switch and the journal of its turns. All memory is taken at opening. Contracts see the switch and the records; clauses speak
/// of every history that the book holds.
#[derive(Drop)]
pub struct Book {
    switch: Switch,
    records: Vec<Record>,
    life: u32,
}

impl Model for Book {
    ghost use Rattle.std.specs.Prelude.{◌≤◌, length, vec_capacity};
    ghost use Rattle.hm_shared.specs.declared.book.TheConstants.{MAX_BOOK_LIFE};
    ghost use Rattle.hm_shared.specs.BookState.{BookState};

    ghost Value = { BookState };

    ghost view = { λ b. record { switch = b.switch; records = b.records.items; life = b.life } };

    ghost invariant = { λ b. (length b.records.items ≤ b.life) × (b.life ≤ vec_capacity b.records) × (b.life ≤ MAX_BOOK_LIFE) };
}

impl Book {
    /// A new switch with an empty journal. The faults come exactly where that argument is the first out of its range, and NoMemory
    /// where memory is wanting.
    pub fn open(
        alloc: Global,
        id: u32,
        stages: u8,
        bits: u8,
        life: u32,
        route: &Route,
    ) -> Result<Book, SwitchFault>
        ensures holds { IfOk result (λ book. Holds book (record { id = id; stages = stages; bits = bits; life = life; route = route.now }) []) }
        ensures lawful { OnOk result (book_fault id stages bits life ≡ None) }
        ensures fault { IfErr result (λ f. (f ≡ SwitchFault.NoMemory) ⊎ (book_fault id stages bits life ≡ Some f)) }
    {
        let switch = Switch::open(alloc, id, stages, bits, life, route)?;
        if life > MAX_BOOK_LIFE {
            return Err(SwitchFault::Life);
        }
        let Ok(records) = Vec::with_capacity(alloc, life as usize) else {
            return Err(SwitchFault::NoMemory);
        };
        Ok(Book {
            switch,
            records,
            life,
        })
    }

    /// One packet at the switch, handed in by this seat, with its record at the journal's end. Spent exactly once there are as many
    /// records as the switch's life; then nothing changes. It takes no memory.
    pub fn turn(&mut self, seat: u8, packet: &Packet) -> Turned
        ensures { (setup : SwitchSetup) (history : List SwitchTurn) → Holds self.old setup history → TakesTurn self.old self.new result seat packet.now setup history }
    {
        let place = self.len();
        if place >= self.life {
            return Turned {
                turn: Turn::Spent,
                place,
            };
        }
        let turn = self.switch.step(packet);
        if let Some(kept) = Record::of(seat, packet, &turn) {
            let pushed: Result<_, _> = self.records.push(kept);
            pushed.unwrap();
        }
        Turned { turn, place }
    }

    /// How many turns there were.
    pub fn len(&self) -> u32
        ensures { result ≡ length self.now.records }
    {
        self.records.len() as u32
    }

    /// The record of the turn at this place. None exactly from the count of turns on.
    pub fn kept(&self, i: u32) -> Option<Record>
        ensures { result ≡ slice_get self.now.records i }
    {
        match self.records.get(i as usize) {
            Some(kept) => Some(kept.copy()),
            None => None,
        }
    }

    /// The switch.
    pub fn switch(&self) -> &Switch
        ensures { result.now ≡ self.now.switch }
    {
        &self.switch
    }

    /// Writes the text of the journal to the sink, line by line.
    pub fn write_journal<K: Sink>(&self, alloc: Global, sink: &mut K) -> Result<(), NotPut>
        ensures { (setup : SwitchSetup) (history : List SwitchTurn) → Holds self.now setup history → PutsPieces result (journal_text history) (K.held sink.old) (K.held sink.new) (K.faults sink.old) (K.faults sink.new) }
    {
        put_journal(alloc, &self.records, sink)
    }
}
