ghost use Rattle.std.specs.Prelude.{◌≡◌, ◌<◌, ◌≤◌, length, slice_get, true, false, Some, map, IfOk};
ghost use Rattle.hm_rules.specs.Deliveries.{replica_step, replica_tick};
ghost use Rattle.hm_rules.specs.Replica.{Replica, opened};
ghost use Rattle.hm_rules.specs.Service.{is_fixed};
ghost use Rattle.hm_rules.specs.Viewstamped.{vr_timeout};
ghost use Rattle.hm_store.specs.Log.{max_log_len};
ghost use Rattle.hm_world.specs.Grouped.{forms, AreFixed, GroupSteps, StepsAt};
ghost use Rattle.hm_world.specs.GroupFields.{kind_in, replicas_in};

use hm_base::memory::NoMemory;
use hm_base::node::GroupKind;
use hm_chain::chain::Chain;
use hm_codec::acted::Acted;
use hm_packet::packet::Packet;
use hm_primary_backup::primary::Primary;
use hm_step_laws::steps::every_step_keeps;
use hm_store::ledger::Ledger;
use hm_vr::vr::Vr;
use std::alloc::Global;
use std::marker::Model;

/// The members, by their protocol.
#[derive(Drop)]
pub(crate) enum Members {
    Chain(Vec<Chain>),
    Primary(Vec<Primary>),
    Vr(Vec<Vr>),
}

/// All replicas of a group, by number: each of the calls acts by their protocol. Contracts see which it is, how many entries a log
/// may have, and the rules' replicas.
#[derive(Drop)]
pub struct Group {
    members: Members,
    cap: u32,
}

impl Model for Group {
    ghost use Rattle.hm_world.specs.Grouped.{Grouped};

    ghost Value = { Grouped };

    ghost use Rattle.hm_world.specs.GroupFields.{grouped_of, IsKept};

    ghost view = { grouped_of };

    ghost invariant = { IsKept };
}

impl Group {
    /// The replicas of a group of these members before their first packets. All their memory is taken here.
    pub fn open(
        alloc: Global,
        kind: GroupKind,
        cap: u32,
        members: &hm_base::members::Members,
    ) -> Result<Group, NoMemory>
        requires fixed { is_fixed kind ≡ true → AreFixed members.now }
        requires few { length members.now ≤ 7 }
        requires bounded { cap ≤ max_log_len }
        ensures { IfOk result (λ g. g ≡ record { kind = kind; cap = cap; replicas = map (λ me. opened me members.now cap) members.now }) }
    {
        Ok(Group {
            members: open_members(alloc, kind, cap, members)?,
            cap,
        })
    }

    /// How many replicas there are, at most seven.
    pub fn len(&self) -> usize
        ensures count { result ≡ length self.now.replicas }
        ensures few { result ≤ 7 }
    {
        match &self.members {
            Members::Chain(list) => list.len(),
            Members::Primary(list) => list.len(),
            Members::Vr(list) => list.len(),
        }
    }

    /// Whether the members are fixed: then replicas time out, and none is removed.
    pub fn is_fixed(&self) -> bool
        ensures { result ≡ is_fixed self.now.kind }
    {
        match &self.members {
            Members::Chain(_) | Members::Primary(_) => false,
            Members::Vr(_) => true,
        }
    }

    /// How many entries a log may have.
    pub fn cap(&self) -> u32
        ensures value { result ≡ self.now.cap }
        ensures bounded { self.now.cap ≤ max_log_len }
    {
        self.cap
    }

    /// The log of the replica of a number.
    pub fn log(&self, number: u8) -> &Ledger
        requires { number < length self.now.replicas }
        ensures log { (r : Replica) → slice_get self.now.replicas number ≡ Some r → result.now.entries ≡ r.log }
        ensures few { length result.now.entries ≤ self.now.cap }
    {
        let log = log_in(&self.members, number);
        let _count = log.len();
        log
    }

    /// The replica of a number handles a packet.
    pub fn step(&mut self, number: u8, packet: &Packet, acted: &mut Acted)
        requires { number < length self.old.replicas }
        ensures { GroupSteps self.old self.new number acted.new (λ r. replica_step self.old.kind r packet.now) }
    {
        every_step_keeps();
        step_in(&mut self.members, number, packet, acted);
    }

    /// The replica of a number does what it does from time to time.
    pub fn tick(&mut self, number: u8, acted: &mut Acted)
        requires { number < length self.old.replicas }
        ensures { GroupSteps self.old self.new number acted.new (λ r. replica_tick self.old.kind r) }
    {
        every_step_keeps();
        tick_in(&mut self.members, number, acted);
    }

    /// The replica of a number has waited too long for its leader, in a group whose members are fixed; in any other group nothing
    /// happens.
    pub fn timeout(&mut self, number: u8, acted: &mut Acted)
        requires { number < length self.old.replicas }
        ensures step { is_fixed self.old.kind ≡ true → GroupSteps self.old self.new number acted.new vr_timeout }
        ensures idle { is_fixed self.old.kind ≡ false → self.new ≡ self.old }
    {
        every_step_keeps();
        timeout_in(&mut self.members, number, acted);
    }
}

/// Whether groups of this protocol may have this size.
pub(crate) fn forms(kind: GroupKind, size: u8) -> bool
    ensures { result ≡ forms kind size }
{
    match kind {
        GroupKind::Chain | GroupKind::Primary => 1 <= size && size <= 7,
        GroupKind::Vr => size <= 7 && size % 2 == 1,
    }
}

/// The members before their first packets.
fn open_members(
    alloc: Global,
    kind: GroupKind,
    cap: u32,
    members: &hm_base::members::Members,
) -> Result<Members, NoMemory>
    requires fixed { is_fixed kind ≡ true → AreFixed members.now }
    requires bounded { cap ≤ max_log_len }
    ensures kind { IfOk result (λ ms. kind_in ms ≡ kind) }
    ensures replicas { IfOk result (λ ms. replicas_in ms ≡ map (λ me. opened me members.now cap) members.now) }
{
    match kind {
        GroupKind::Chain => Ok(Members::Chain(open_chains(alloc, cap, members)?)),
        GroupKind::Primary => Ok(Members::Primary(open_primaries(alloc, cap, members)?)),
        GroupKind::Vr => Ok(Members::Vr(open_vrs(alloc, cap, members)?)),
    }
}

/// The members of a chain before their first packets.
fn open_chains(
    alloc: Global,
    cap: u32,
    members: &hm_base::members::Members,
) -> Result<Vec<Chain>, NoMemory>
    requires { cap ≤ max_log_len }
    ensures { IfOk result (λ rs. rs.items ≡ map (λ me. opened me members.now cap) members.now) }
{
    let mut replicas = Vec::with_capacity(alloc, members.len() as usize)?;
    for me in members.as_slice() {
        replicas.push(Chain::open(alloc, *me, members, cap)?)?;
    }
    Ok(replicas)
}

/// The members of a primary-backup group before their first packets.
fn open_primaries(
    alloc: Global,
    cap: u32,
    members: &hm_base::members::Members,
) -> Result<Vec<Primary>, NoMemory>
    requires { cap ≤ max_log_len }
    ensures { IfOk result (λ rs. rs.items ≡ map (λ me. opened me members.now cap) members.now) }
{
    let mut replicas = Vec::with_capacity(alloc, members.len() as usize)?;
    for me in members.as_slice() {
        replicas.push(Primary::open(alloc, *me, members, cap)?)?;
    }
    Ok(replicas)
}

/// The replicas of a group of Viewstamped Replication before their first packets.
fn open_vrs(
    alloc: Global,
    cap: u32,
    members: &hm_base::members::Members,
) -> Result<Vec<Vr>, NoMemory>
    requires fixed { AreFixed members.now }
    requires bounded { cap ≤ max_log_len }
    ensures { IfOk result (λ rs. rs.items ≡ map (λ me. opened me members.now cap) members.now) }
{
    let size = members.len();
    let mut replicas = Vec::with_capacity(alloc, size as usize)?;
    for me in members.as_slice() {
        replicas.push(Vr::open(alloc, *me, size as u8, cap)?)?;
    }
    Ok(replicas)
}

/// The log of one of these.
fn log_in(members: &Members, number: u8) -> &Ledger
    requires { number < length (replicas_in members.now) }
    ensures log { (r : Replica) → slice_get (replicas_in members.now) number ≡ Some r → result.now.entries ≡ r.log }
    ensures cap { (r : Replica) → slice_get (replicas_in members.now) number ≡ Some r → result.now.cap ≡ r.cap }
{
    match members {
        Members::Chain(list) => list[number as usize].shim().log(),
        Members::Primary(list) => list[number as usize].shim().log(),
        Members::Vr(list) => list[number as usize].shim().log(),
    }
}

/// One of these handles a packet.
fn step_in(members: &mut Members, number: u8, packet: &Packet, acted: &mut Acted)
    requires { number < length (replicas_in members.old) }
    ensures kind { kind_in members.new ≡ kind_in members.old }
    ensures step { StepsAt (replicas_in members.old) (replicas_in members.new) number acted.new (λ r. replica_step (kind_in members.old) r packet.now) }
{
    match members {
        Members::Chain(list) => list[number as usize].step(packet, acted),
        Members::Primary(list) => list[number as usize].step(packet, acted),
        Members::Vr(list) => list[number as usize].step(packet, acted),
    }
}

/// One of these does what it does from time to time.
fn tick_in(members: &mut Members, number: u8, acted: &mut Acted)
    requires { number < length (replicas_in members.old) }
    ensures kind { kind_in members.new ≡ kind_in members.old }
    ensures step { StepsAt (replicas_in members.old) (replicas_in members.new) number acted.new (λ r. replica_tick (kind_in members.old) r) }
{
    match members {
        Members::Chain(list) => list[number as usize].tick(acted),
        Members::Primary(list) => list[number as usize].tick(acted),
        Members::Vr(list) => list[number as usize].tick(acted),
    }
}

/// One of these has waited too long for its leader, where they are fixed.
fn timeout_in(members: &mut Members, number: u8, acted: &mut Acted)
    requires { number < length (replicas_in members.old) }
    ensures kind { kind_in members.new ≡ kind_in members.old }
    ensures step { is_fixed (kind_in members.old) ≡ true → StepsAt (replicas_in members.old) (replicas_in members.new) number acted.new vr_timeout }
    ensures idle { is_fixed (kind_in members.old) ≡ false → members.new ≡ members.old }
{
    match members {
        Members::Chain(_) | Members::Primary(_) => {}
        Members::Vr(list) => list[number as usize].timeout(acted),
    }
}
