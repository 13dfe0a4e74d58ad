ghost use Rattle.std.specs.Prelude.{◌≡◌, ◌<◌, ◌≤◌, List, IfOk, IfErr, OnOk, length};
ghost use Rattle.hm_base.specs.Lists.{IsPrefix};
ghost use Rattle.hm_worker.specs.Posts.{Says, posts_of};
ghost use Rattle.hm_daemon.specs.Serves.{Serves, Turns, starts};
ghost use Rattle.hm_worker.specs.Heard.{Heard};
ghost use Rattle.hm_daemon.specs.Serving.{hears};
ghost use Rattle.hm_frame.specs.Links.{Gets, Keeps, max_datagram_len};
ghost use Rattle.hm_outside.specs.Faults.{Counts};
ghost use Rattle.hm_packet.specs.Messages.{Message};
ghost use Rattle.hm_schedule.specs.Schedules.{IsLawfulGroup};
ghost use Rattle.hm_store.specs.Log.{max_log_len};

use crate::member::Member;
use crate::posts::send_all;
use crate::status::NodeStatus;
use crate::words::ReplicaWords;
use hm_base::entries::PageRoom;
use hm_base::memory::NoMemory;
use hm_codec::acted::Acted;
use hm_codec::buf::MAX_LEN;
use hm_codec::decode::decode;
use hm_codec::outs::Outs;
use hm_frame::datagram::Taken;
use hm_frame::link::Link;
use hm_frame::link_law::link_calls_add_up;
use hm_packet::acted::{Declared, Did};
use hm_packet::packet::Packet;
use std::alloc::Global;
use std::marker::Model;

/// A replica that serves: its patience is after how many waiting times in a row it gives its leader up, 0 for never, and `left` how
/// many of them are left. Contracts see the rules' replica beside these.
#[derive(Drop)]
pub(crate) struct Server {
    member: Member,
    patience: u64,
    left: u64,
}

impl Model for Server {
    ghost use Rattle.hm_daemon.specs.Serving.{Serving};
    ghost use Rattle.hm_daemon.specs.Member.{kind_in, replica_in};

    ghost Value = { Serving };

    ghost view = { λ s. record { kind = kind_in s.member; patience = s.patience; left = s.left; replica = replica_in s.member } };
}

impl Server {
    /// The replica of these words before its first packet.
    pub(crate) fn open(alloc: Global, words: &ReplicaWords) -> Result<Server, NoMemory>
        requires group { IsLawfulGroup words.now.kind words.now.size }
        requires me { words.now.me < words.now.size }
        requires bounded { words.now.cap ≤ max_log_len }
        ensures { IfOk result (λ s. s ≡ starts words.now) }
    {
        let member = Member::open(alloc, words.me, words.kind, words.size, words.cap)?;
        Ok(Server {
            member,
            patience: words.patience,
            left: words.patience,
        })
    }

    /// The replica makes a step of the packet that the bytes spell, and none where they spell none.
    fn on_datagram(&mut self, bytes: &[u8], acted: &mut Acted)
        ensures { (heard : Heard) × Says bytes.now heard × (hears self.old heard ≡ record { serving = self.new; outs = acted.new.outs }) }
    {
        self.left = self.patience;
        let mut room = PageRoom::new();
        let mut packet = Packet::blank();
        match decode(bytes, &mut room, &mut packet) {
            Ok(()) => self.member.step(&packet, acted),
            Err(_) => acted.outs.clear(),
        }
    }

    /// Nothing came in the link's waiting time.
    fn on_quiet(&mut self, acted: &mut Acted)
        ensures { hears self.old Heard.Quiet ≡ record { serving = self.new; outs = acted.new.outs } }
    {
        if self.left == 1 {
            self.left = self.patience;
            self.member.lose_patience(acted);
        } else {
            self.left = self.left.saturating_sub(1);
            self.member.tick(acted);
        }
    }

    /// Takes what comes, and sends what the replica makes of it.
    fn turn<L: Link>(
        &mut self,
        buf: &mut [u8],
        acted: &mut Acted,
        link: &mut L,
    ) -> Result<(), NodeStatus>
        requires { length buf.old ≡ max_datagram_len }
        ensures { Turns result self.old self.new (record { coming = L.coming link.old; came = L.coming link.new; sent = L.sent link.old; posted = L.sent link.new; before = L.faults link.old; after = L.faults link.new }) }
    {
        link_calls_add_up();
        match link.take(buf) {
            Taken::Datagram(len) => {
                self.on_datagram(&buf[..len], acted);
                send_outs(acted, link)
            }
            Taken::Quiet => {
                self.on_quiet(acted);
                send_outs(acted, link)
            }
            Taken::Ended => Err(NodeStatus::Done),
            Taken::Failed => Err(NodeStatus::LinkFault),
        }
    }

    /// Takes so often at most, and sends what the replica makes of all that comes.
    pub(crate) fn serve<L: Link>(&mut self, turns: u64, link: &mut L) -> NodeStatus
        ensures { Serves result self.old turns (record { coming = L.coming link.old; came = L.coming link.new; sent = L.sent link.old; posted = L.sent link.new; before = L.faults link.old; after = L.faults link.new }) }
    {
        link_calls_add_up();
        let mut buf = [0; MAX_LEN];
        let mut acted = Acted {
            outs: Outs::new(),
            declared: Declared { from: 0, to: 0 },
            did: Did::Done,
        };
        for _ in 0..turns {
            match self.turn(&mut buf, &mut acted, link) {
                Ok(()) => {}
                Err(status) => return status,
            }
        }
        NodeStatus::TurnsSpent
    }
}

/// Sends what a step gave.
fn send_outs<L: Link>(acted: &Acted, link: &mut L) -> Result<(), NodeStatus>
    ensures ok { OnOk result (Gets (L.sent link.old) (L.sent link.new) (posts_of acted.now.outs)) }
    ensures err { IfErr result (λ status. (status ≡ NodeStatus.LinkFault) × ((front : List Message) × IsPrefix front acted.now.outs × Gets (L.sent link.old) (L.sent link.new) (posts_of front))) }
    ensures untaken { Keeps (L.coming link.old) (L.coming link.new) }
    ensures counted { Counts (L.faults link.old) (L.faults link.new) result }
{
    match send_all(&acted.outs, link) {
        Ok(()) => Ok(()),
        Err(_) => Err(NodeStatus::LinkFault),
    }
}
