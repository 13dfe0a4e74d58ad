ghost use Rattle.std.specs.Prelude.{◌≡◌, ◌<◌, ◌≤◌, ◌↔◌, ◌⊎◌, ◌+◌, ◌-◌, ◌^◌, ◌++◌, ◌==◌, ◌∷◌, [], ℕ, false, if◌then◌else◌, length, slice_get, Some, None, IsOk, IfOk, OnOk, OnErr, IfErr};
ghost use Rattle.hm_base.specs.Slots as rule;
ghost use Rattle.hm_base.specs.StepCounts.{TakesAtMost};
ghost use Rattle.hm_links.specs.Linked.{is_linked, others};
ghost use Rattle.hm_dirtyset.specs.Table.{kept_of, slots_of, live_number, number_above, open_fault, IsCrowd, CountsLive};

use crate::emptying::empty_reached;
use crate::find::{Found, find, target};
use crate::places::{slot_count, slot_of};
use crate::slot::Slot;
use hm_base::memory::NoMemory;
use hm_base::steps::{StepLedger, Steps};
use hm_links::links::Links;
use std::alloc::{AllocError, Global};
use std::marker::Model;
use thiserror::Error;

/// How many stages a dirty table may have.
pub const MAX_STAGES: u8 = 4;

/// How many bits a place in a stage may have.
pub const MAX_BITS: u8 = 12;

/// The dirty set: a number for each object, live while it is above the point. It is a hash table of 1 to 4 stages of
/// 2^0 to 2^12 slots; an object has one slot in each stage. All memory is taken at opening. Contracts see the slots,
/// the point and the greatest number put.
///
/// A slot holds a live number or nothing. `by_number` links the slots that hold one, by rising number, and `live` is how
/// many they are.
#[derive(Drop)]
pub struct DirtySet {
    slots: Vec<Slot>,
    stages: u8,
    bits: u8,
    point: u64,
    greatest: u64,
    by_number: Links,
    live: u32,
}

/// Why a dirty set can't be opened.
#[derive(Clone, Copy, Debug, PartialEq, Eq, Error)]
pub enum OpenFault {
    #[error("a dirty table has 1 to 4 stages")]
    Stages,
    #[error("a place in a stage has at most 12 bits")]
    Bits,
    #[error("memory is wanting")]
    NoMemory,
}

/// No slot is free for the object.
#[derive(Clone, Copy, Debug, PartialEq, Eq)]
pub struct Full;

impl From<NoMemory> for OpenFault {
    ghost use Rattle.std.specs.Prelude.{◌≡◌};
    ghost use Rattle.hm_dirtyset.specs.declared.dirty_set.OpenFault.TheVariants as fault;

    ghost from_gives = { λ _ e. e ≡ fault.NoMemory };

    fn from(_failed: NoMemory) -> OpenFault {
        OpenFault::NoMemory
    }
}

impl From<AllocError> for OpenFault {
    ghost use Rattle.std.specs.Prelude.{◌≡◌};
    ghost use Rattle.hm_dirtyset.specs.declared.dirty_set.OpenFault.TheVariants as fault;

    ghost from_gives = { λ _ e. e ≡ fault.NoMemory };

    fn from(_failed: AllocError) -> OpenFault {
        OpenFault::NoMemory
    }
}

impl Model for DirtySet {
    ghost use Rattle.hm_dirtyset.specs.Table.{Table};

    ghost Value = { Table };

    ghost use Rattle.hm_dirtyset.specs.Fields.{table_of, IsSound};

    ghost view = { table_of };

    ghost invariant = { IsSound };
}

impl DirtySet {
    /// The set in which no object has a number. The faults come exactly where that argument is the first out of its range,
    /// and NoMemory where memory is wanting.
    pub fn open(alloc: Global, stages: u8, bits: u8) -> Result<DirtySet, OpenFault>
        ensures slots { IfOk result (λ d. slots_of d ≡ rule.no_slots stages bits) }
        ensures numbers { IfOk result (λ d. (o : ℕ) → live_number d o ≡ None) }
        ensures point { IfOk result (λ d. d.point ≡ 0) }
        ensures greatest { IfOk result (λ d. d.greatest ≡ 0) }
        ensures lawful { OnOk result (open_fault stages bits ≡ None) }
        ensures fault { IfErr result (λ f. (f ≡ OpenFault.NoMemory) ⊎ (open_fault stages bits ≡ Some f)) }
    {
        if stages < 1 || stages > MAX_STAGES {
            return Err(OpenFault::Stages);
        }
        if bits > MAX_BITS {
            return Err(OpenFault::Bits);
        }
        let count = slot_count(bits, stages);
        Ok(DirtySet {
            slots: unused_slots(alloc, count)?,
            stages,
            bits,
            point: 0,
            greatest: 0,
            by_number: Links::open(alloc, count)?,
            live: 0,
        })
    }

    /// The object's live number, None exactly where it has none. It counts at most one step for each stage, and a step is
    /// counted at each look at a slot.
    pub fn get<L: StepLedger>(&self, object: u32, steps: &mut Steps<L>) -> Option<u64>
        ensures number { result ≡ live_number self.now object }
        ensures steps { TakesAtMost L.counts steps.old steps.new self.now.stages }
    {
        match find(
            &self.slots,
            self.stages,
            self.bits,
            self.point,
            object,
            steps,
        ) {
            Found::Live { number, .. } => Some(number),
            Found::Free { .. } | Found::Full => None,
        }
    }

    /// Gives the object a number. Full exactly where the object has no live number and its slots in all stages hold live
    /// numbers of others; then nothing changes.
    pub fn put(&mut self, object: u32, number: u64) -> Result<(), Full>
        requires above_point { self.old.point < number }
        requires above_greatest { self.old.greatest < number }
        ensures room { IsOk result ↔ (rule.is_full (slots_of self.old) self.old.point object ≡ false) }
        ensures err { OnErr result (self.new ≡ self.old) }
        ensures crowd { OnErr result (IsCrowd self.old object) }
        ensures slots { OnOk result (slots_of self.new ≡ rule.put (slots_of self.old) self.old.point object number) }
        ensures numbers { OnOk result ((o : ℕ) → live_number self.new o ≡ (if o == object then Some number else live_number self.old o)) }
        ensures stages { self.new.stages ≡ self.old.stages }
        ensures point { self.new.point ≡ self.old.point }
        ensures greatest { OnOk result (self.new.greatest ≡ number) }
    {
        let Some(stage) = target(&self.slots, self.stages, self.bits, self.point, object) else {
            return Err(Full);
        };
        let at = slot_of(self.bits, stage, object);
        self.slots[at as usize] = Slot { object, number };
        move_back(&mut self.by_number, &mut self.live, at);
        self.greatest = number;
        Ok(())
    }

    /// Raises the point: numbers at or below it are live no more. It counts at most one step for each number that goes, and
    /// one more; a step is counted at each look at a slot.
    pub fn clean_to<L: StepLedger>(&mut self, point: u64, steps: &mut Steps<L>)
        requires { self.old.point ≤ point }
        ensures numbers { (o : ℕ) → live_number self.new o ≡ number_above point (live_number self.old o) }
        ensures slots { slots_of self.new ≡ rule.slots_raised self.old.point point (slots_of self.old) }
        ensures stages { self.new.stages ≡ self.old.stages }
        ensures point { self.new.point ≡ point }
        ensures greatest { self.new.greatest ≡ self.old.greatest }
        ensures steps { (before after : ℕ) → CountsLive self.old before → CountsLive self.new after → TakesAtMost L.counts steps.old steps.new (before - after + 1) }
    {
        empty_reached(
            &mut self.slots,
            &mut self.by_number,
            &mut self.live,
            point,
            steps,
        );
        self.point = point;
    }

    /// How many objects have a live number.
    pub fn live(&self) -> u32
        ensures { CountsLive self.now result }
    {
        self.live
    }

    /// The number at and below which no number is live.
    pub fn point(&self) -> u64
        ensures { result ≡ self.now.point }
    {
        self.point
    }

    /// The greatest number put, 0 for none.
    pub fn greatest(&self) -> u64
        ensures { result ≡ self.now.greatest }
    {
        self.greatest
    }
}

/// Puts a slot behind the others, and counts it where it wasn't in the list.
fn move_back(links: &mut Links, live: &mut u32, i: u32)
    requires within { i < links.old.cells }
    requires room { live.old + 1 < 2 ^ 32 }
    ensures items { links.new.items ≡ others i links.old.items ++ i ∷ [] }
    ensures cells { links.new.cells ≡ links.old.cells }
    ensures live { live.new ≡ (if is_linked i links.old.items then live.old else live.old + 1) }
{
    if links.contains(i) {
        links.unlink(i);
    } else {
        *live += 1;
    }
    links.push_back(i);
}

/// Slots that hold nothing.
fn unused_slots(alloc: Global, count: u32) -> Result<Vec<Slot>, AllocError>
    ensures count { IfOk result (λ v. length v.items ≡ count) }
    ensures nothing { IfOk result (λ v. (i : ℕ) → kept_of (slice_get v.items i) ≡ None) }
{
    let slots = vec![in alloc; Slot::FREE; count as usize]?;
    Ok(slots)
}
