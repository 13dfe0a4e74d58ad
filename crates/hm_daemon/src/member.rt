ghost use Rattle.std.specs.Prelude.{◌≡◌, ◌<◌, ◌≤◌, IfOk};
ghost use Rattle.hm_daemon.specs.Member.{kind_in, replica_in};
ghost use Rattle.hm_daemon.specs.Serving.{replica_timeout};
ghost use Rattle.hm_replica.specs.Given.{Gives};
ghost use Rattle.hm_rules.specs.Deliveries.{replica_step, replica_tick};
ghost use Rattle.hm_rules.specs.Replica.{opened};
ghost use Rattle.hm_rules.specs.Service.{replicas_below};
ghost use Rattle.hm_schedule.specs.Schedules.{IsLawfulGroup};
ghost use Rattle.hm_store.specs.Log.{max_log_len};

use hm_base::memory::NoMemory;
use hm_base::node::GroupKind;
use hm_chain::chain::Chain;
use hm_codec::acted::Acted;
use hm_packet::packet::Packet;
use hm_primary_backup::primary::Primary;
use hm_reconfig::service::Service;
use hm_vr::vr::Vr;
use std::alloc::Global;

/// A replica, by its protocol.
#[derive(Drop)]
pub(crate) enum Member {
    Chain(Chain),
    Primary(Primary),
    Vr(Vr),
}

impl Member {
    /// The replica of this number before its first packet, in a group of this size. All its memory is taken here.
    pub(crate) fn open(
        alloc: Global,
        me: u8,
        kind: GroupKind,
        size: u8,
        cap: u32,
    ) -> Result<Member, NoMemory>
        requires group { IsLawfulGroup kind size }
        requires me { me < size }
        requires bounded { cap ≤ max_log_len }
        ensures kind { IfOk result (λ m. kind_in m ≡ kind) }
        ensures replica { IfOk result (λ m. replica_in m ≡ opened me (replicas_below size) cap) }
    {
        match kind {
            GroupKind::Chain => {
                let service = Service::open(kind, size);
                Ok(Member::Chain(Chain::open(alloc, me, service.members(), cap)?))
            }
            GroupKind::Primary => {
                let service = Service::open(kind, size);
                Ok(Member::Primary(Primary::open(alloc, me, service.members(), cap)?))
            }
            GroupKind::Vr => Ok(Member::Vr(Vr::open(alloc, me, size, cap)?)),
        }
    }

    /// What the replica makes of a packet.
    pub(crate) fn step(&mut self, packet: &Packet, acted: &mut Acted)
        ensures kind { kind_in self.new ≡ kind_in self.old }
        ensures step { Gives (replica_in self.new) acted.new (replica_step (kind_in self.old) (replica_in self.old) packet.now) }
    {
        match self {
            Member::Chain(chain) => chain.step(packet, acted),
            Member::Primary(primary) => primary.step(packet, acted),
            Member::Vr(vr) => vr.step(packet, acted),
        }
    }

    /// What the replica does from time to time.
    pub(crate) fn tick(&mut self, acted: &mut Acted)
        ensures kind { kind_in self.new ≡ kind_in self.old }
        ensures step { Gives (replica_in self.new) acted.new (replica_tick (kind_in self.old) (replica_in self.old)) }
    {
        match self {
            Member::Chain(chain) => chain.tick(acted),
            Member::Primary(primary) => primary.tick(acted),
            Member::Vr(vr) => vr.tick(acted),
        }
    }

    /// The replica has heard nothing for long: in Viewstamped Replication it times out, and else this is a tick as any other.
    pub(crate) fn lose_patience(&mut self, acted: &mut Acted)
        ensures kind { kind_in self.new ≡ kind_in self.old }
        ensures step { Gives (replica_in self.new) acted.new (replica_timeout (kind_in self.old) (replica_in self.old)) }
    {
        match self {
            Member::Chain(chain) => chain.tick(acted),
            Member::Primary(primary) => primary.tick(acted),
            Member::Vr(vr) => vr.timeout(acted),
        }
    }
}
