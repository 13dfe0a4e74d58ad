ghost use Rattle.std.specs.Prelude.{◌≡◌, Some, None, OnOk, IfOk, if◌then◌else◌, ◌++◌, ◌∷◌, [], length, slice_get, List, unwrap_or, ◌+◌, ◌<◌, ◌≤◌};
ghost use Rattle.std.specs.HashMap.{get};
ghost use Rattle.hm_order.specs.declared.mark.Mark.{Mark};
ghost use Rattle.hm_order.specs.declared.mark.Mark.TheVariants.{Invoke};
ghost use Rattle.hm_order.specs.declared.mark.Want.{Want};
ghost use Rattle.hm_base.specs.declared.operation.OpId.{OpId};
ghost use Rattle.hm_order.specs.Marks.{At, version_at, version_in, want_of};
ghost use Rattle.hm_order.specs.Order.{read_place, reads_after, commit_here, order};
ghost use Rattle.hm_order.specs.Places.{kept, nowhere, noted, after, StandsFor, ArePlaces, is_read, PutsInFront, AreBehind};

use crate::mark::{Mark, Want};
use hm_base::memory::NoMemory;
use hm_base::operation::OpId;
use hm_base::stamp::Stamp;
use std::alloc::Global;
use std::collections::HashMap;
use std::hash::Hash;

/// The position of an op's first mark of each kind, or the number of all marks where there is none.
#[derive(Clone, Copy, Debug, PartialEq, Eq)]
pub struct OpPlaces {
    pub invoked: usize,
    pub committed: usize,
    pub replied: usize,
}

/// What a mark tells of its op.
#[derive(Clone, Copy, Debug, PartialEq, Eq)]
pub enum Seen {
    Invoked,
    Committed,
    Replied,
}

/// The places of each op, and the position of each stamp's first Commit.
#[derive(Drop)]
pub struct Places {
    pub ops: HashMap<OpId, OpPlaces>,
    pub versions: HashMap<Stamp, usize>,
}

/// The reads behind each mark: the mark that invokes the first of them, and for each such mark the one that invokes the next.
/// The number of all marks stands for none.
#[derive(Drop)]
pub struct Behind {
    pub heads: Vec<usize>,
    pub nexts: Vec<usize>,
}

/// The places of an op without a mark.
fn nowhere(count: usize) -> OpPlaces
    ensures { result ≡ nowhere count }
{
    OpPlaces {
        invoked: count,
        committed: count,
        replied: count,
    }
}

/// Notes one more place in those of an op.
fn note_seen(noted: &mut OpPlaces, seen: Seen, place: usize)
    ensures { noted.new ≡ after seen noted.old place }
{
    match seen {
        Seen::Invoked => noted.invoked = noted.invoked.min(place),
        Seen::Committed => noted.committed = noted.committed.min(place),
        Seen::Replied => noted.replied = noted.replied.min(place),
    }
}

/// Notes a mark of the op.
fn note_op<K: Hash + Eq + Drop>(
    ops: &mut HashMap<K, OpPlaces>,
    op: K,
    seen: Seen,
    place: usize,
    count: usize,
) -> Result<(), NoMemory>
    ensures { OnOk result ((q : K) → get K.eq ops.new q
        ≡ (if K.eq q op then Some (after seen (noted count (get K.eq ops.old q)) place) else get K.eq ops.old q)) }
{
    let noted = ops.entry(op)?.or_insert(nowhere(count));
    note_seen(noted, seen, place);
    Ok(())
}

/// Notes a Commit with the stamp.
fn note_version<K: Hash + Eq + Drop>(
    versions: &mut HashMap<K, usize>,
    stamp: K,
    place: usize,
) -> Result<(), NoMemory>
    ensures { OnOk result ((q : K) → get K.eq versions.new q ≡ kept (get K.eq versions.old q) (if K.eq q stamp then Some place else None)) }
{
    versions.entry(stamp)?.or_insert(place);
    Ok(())
}

/// No places yet, with room for those of this many marks: as a rule an op has two of them or more, and one in four commits.
fn none_yet(alloc: Global, count: usize) -> Result<Places, NoMemory>
    ensures { IfOk result (λ places. StandsFor count places []) }
{
    Ok(Places {
        ops: HashMap::with_capacity(alloc, count / 2)?,
        versions: HashMap::with_capacity(alloc, count / 4)?,
    })
}

/// Notes one more mark.
fn note_mark(places: &mut Places, mark: &Mark, place: usize, count: usize) -> Result<(), NoMemory>
    requires { place < count }
    ensures { OnOk result ((marks : List Mark) → StandsFor count places.old marks → length marks ≡ place → StandsFor count places.new (marks ++ mark.now ∷ [])) }
{
    match mark {
        Mark::Invoke { op, .. } => note_op(&mut places.ops, *op, Seen::Invoked, place, count),
        Mark::Commit { op, stamp } => {
            note_op(&mut places.ops, *op, Seen::Committed, place, count)?;
            note_version(&mut places.versions, *stamp, place)
        }
        Mark::Reply { op, .. } => note_op(&mut places.ops, *op, Seen::Replied, place, count),
    }
}

fn places_of(alloc: Global, marks: &[Mark]) -> Result<Places, NoMemory>
    ensures { IfOk result (λ places. StandsFor (length marks.now) places marks.now) }
{
    let mut places = none_yet(alloc, marks.len())?;
    for (i, mark) in marks.iter().enumerate() {
        note_mark(&mut places, mark, i, marks.len())?;
    }
    Ok(places)
}

/// The version in the Reply at i.
fn version_there(marks: &[Mark], i: usize) -> Option<Stamp>
    ensures { result ≡ version_in (slice_get marks.now i) }
{
    match marks.get(i) {
        Some(Mark::Reply { version, .. }) => Some(*version),
        _ => None,
    }
}

fn place_in<K: Hash + Eq>(places: &HashMap<K, usize>, key: &K, none: usize) -> usize
    ensures { result ≡ unwrap_or (get K.eq places.now key.now) none }
{
    places.get(key).copied().unwrap_or(none)
}

/// Where the op's first marks stand.
fn op_places(marks: &[Mark], places: &Places, op: OpId) -> OpPlaces
    requires { StandsFor (length marks.now) places.now marks.now }
    ensures { ArePlaces result marks.now op }
{
    match places.ops.get(&op) {
        Some(found) => *found,
        None => nowhere(marks.len()),
    }
}

fn place_of_version(marks: &[Mark], places: &Places, version: Stamp) -> usize
    requires { StandsFor (length marks.now) places.now marks.now }
    ensures first { result ≡ version_at marks.now version }
    ensures within { result ≤ length marks.now }
{
    if version == Stamp::LEAST {
        return 0;
    }
    place_in(&places.versions, &version, marks.len())
}

/// After how many marks an op stands as a read, whose first marks stand there.
fn place_of_read(marks: &[Mark], places: &Places, found: OpPlaces, wants_read: bool) -> usize
    requires stands { StandsFor (length marks.now) places.now marks.now }
    requires within { found.invoked ≤ length marks.now }
    ensures place { (op : OpId) → ArePlaces found marks.now op → wants_read ≡ is_read (want_of marks.now op) → result ≡ read_place marks.now op }
    ensures some { 0 < result }
{
    let none = marks.len() + 1;
    if found.committed < marks.len() || !wants_read {
        return none;
    }
    match version_there(marks, found.replied) {
        None => none,
        Some(version) => found.invoked.max(place_of_version(marks, places, version)) + 1,
    }
}

/// Whether an op asks to read.
fn asks_to_read(want: &Want) -> bool
    ensures { result ≡ is_read (Some want.now) }
{
    matches!(want, Want::Read { .. })
}

/// Puts the mark at i in front of the reads that stand behind that many marks, if there are so many.
fn put_in_front(behind: &mut Behind, place: usize, i: usize)
    requires some { 0 < place }
    requires within { i < length behind.old.nexts.items }
    ensures { PutsInFront behind.old behind.new place i }
{
    if place <= behind.heads.len() {
        behind.nexts[i] = behind.heads[place - 1];
        behind.heads[place - 1] = i;
    }
}

/// Puts a read that the mark at i invokes behind its place.
fn note_read(behind: &mut Behind, marks: &[Mark], places: &Places, i: usize)
    requires stands { StandsFor (length marks.now) places.now marks.now }
    requires within { i < length marks.now }
    requires behind { AreBehind marks.now (i + 1) behind.old }
    ensures { AreBehind marks.now i behind.new }
{
    if let Mark::Invoke { op, want } = &marks[i] {
        let found = op_places(marks, places, *op);
        if found.invoked == i {
            let place = place_of_read(marks, places, found, asks_to_read(want));
            put_in_front(behind, place, i);
        }
    }
}

/// The reads that stand behind each mark.
fn reads_behind(alloc: Global, marks: &[Mark], places: &Places) -> Result<Behind, NoMemory>
    requires { StandsFor (length marks.now) places.now marks.now }
    ensures { IfOk result (λ behind. AreBehind marks.now 0 behind) }
{
    let count = marks.len();
    let mut behind = Behind {
        heads: vec![in alloc; count; count]?,
        nexts: vec![in alloc; count; count]?,
    };
    for done in 0..count {
        note_read(&mut behind, marks, places, count - 1 - done);
    }
    Ok(behind)
}

/// The op that the mark at i commits for the first time.
fn push_commit(
    ops: &mut Vec<OpId>,
    marks: &[Mark],
    places: &Places,
    mark: &Mark,
    i: usize,
) -> Result<(), NoMemory>
    requires { StandsFor (length marks.now) places.now marks.now }
    ensures { OnOk result (ops.new.items ≡ ops.old.items ++ commit_here marks.now i mark.now) }
{
    if let Mark::Commit { op, .. } = mark {
        if op_places(marks, places, *op).committed == i {
            ops.push(*op)?;
        }
    }
    Ok(())
}

/// The op that the mark at i invokes.
fn push_invoked(ops: &mut Vec<OpId>, marks: &[Mark], i: usize) -> Result<(), NoMemory>
    requires { i < length marks.now }
    ensures { (op : OpId) → (want : Want) → At marks.now i (Invoke op want) → OnOk result (ops.new.items ≡ ops.old.items ++ op ∷ []) }
{
    if let Mark::Invoke { op, .. } = &marks[i] {
        ops.push(*op)?;
    }
    Ok(())
}

/// The reads that stand behind the mark at i.
fn push_reads(
    ops: &mut Vec<OpId>,
    marks: &[Mark],
    behind: &Behind,
    i: usize,
) -> Result<(), NoMemory>
    requires within { i < length marks.now }
    requires behind { AreBehind marks.now 0 behind.now }
    ensures { OnOk result (ops.new.items ≡ ops.old.items ++ reads_after marks.now (i + 1)) }
{
    let mut read = behind.heads[i];
    for _ in read..marks.len() {
        if read >= marks.len() {
            break;
        }
        push_invoked(ops, marks, read)?;
        read = behind.nexts[read];
    }
    Ok(())
}

/// The order of a history.
pub fn order_of(alloc: Global, marks: &[Mark]) -> Result<Vec<OpId>, NoMemory>
    ensures { IfOk result (λ ops. ops.items ≡ order marks.now) }
{
    let places = places_of(alloc, marks)?;
    let behind = reads_behind(alloc, marks, &places)?;
    let mut ops = Vec::with_capacity(alloc, marks.len() / 2)?;
    for (i, mark) in marks.iter().enumerate() {
        push_commit(&mut ops, marks, &places, mark, i)?;
        push_reads(&mut ops, marks, &behind, i)?;
    }
    Ok(ops)
}
