ghost use Rattle.std.specs.Prelude.{◌≡◌, ◌<◌, ◌≤◌, ◌-◌, ◌%◌, [], ◌∷◌, ◌++◌, length, take, replicate, IfOk};
ghost use Rattle.hm_store.specs.Keys.{IsLastPlace};
ghost use Rattle.hm_store.specs.Log.{max_log_len};

use hm_base::memory::NoMemory;
use std::alloc::Global;
use std::marker::Model;

/// How many buckets the keys fall into.
const BUCKETS: u32 = 1_024;

/// A list of keys, with nothing at some places, that finds the last place of a key. All memory is taken at opening, and little
/// of it is touched before keys come.
///
/// The places whose keys fall into one bucket are chained, the last first, and a search walks along the chain of its key's
/// bucket. Whoever chooses the keys can have all of them fall into one bucket; then a search passes every place. A schedule of
/// 16,384 events stays well below a second all the same: each event brings a replica sixteen entries at most, each of which is
/// searched for once or twice, and a step along a chain is a few bytes on in an array.
#[derive(Drop)]
pub struct LastPlaces {
    /// The last place of each bucket: one more than its number, and 0 for none.
    heads: Vec<u32>,
    links: Vec<Link>,
    cap: u32,
}

/// What stands at a place, and the place before it in its key's bucket, as a head tells the last one.
#[derive(Clone, Copy)]
struct Link {
    key: Option<u32>,
    before: u32,
}

impl Model for LastPlaces {
    ghost use Rattle.hm_store.specs.Keys.{Keys};

    ghost Value = { Keys };

    ghost use Rattle.hm_store.specs.Chained.{keys_of, IsChained};

    ghost view = { keys_of };

    ghost invariant = { IsChained };
}

impl LastPlaces {
    /// The empty list, with room for `cap` keys.
    pub fn open(alloc: Global, cap: u32) -> Result<LastPlaces, NoMemory>
        requires { cap ≤ max_log_len }
        ensures items { IfOk result (λ l. l.items ≡ []) }
        ensures cap { IfOk result (λ l. l.cap ≡ cap) }
    {
        Ok(LastPlaces {
            heads: no_heads(alloc)?,
            links: Vec::with_capacity(alloc, cap as usize)?,
            cap,
        })
    }

    /// Puts a key, or nothing, behind the others.
    pub fn push(&mut self, key: Option<u32>)
        requires { length self.old.items < self.old.cap }
        ensures items { self.new.items ≡ self.old.items ++ key ∷ [] }
        ensures cap { self.new.cap ≡ self.old.cap }
    {
        let mut before = 0;
        if let Some(key) = key {
            let bucket = bucket_of(key);
            before = self.heads[bucket];
            self.heads[bucket] = self.links.len() as u32 + 1;
        }
        self.links.push_reserved(Link { key, before });
    }

    /// Keeps the first `len` places, and takes the others out.
    pub fn truncate(&mut self, len: u32)
        requires { len ≤ length self.old.items }
        ensures items { self.new.items ≡ take len self.old.items }
        ensures cap { self.new.cap ≡ self.old.cap }
    {
        while self.links.len() > len as usize {
            self.pop();
        }
    }

    /// Takes the last place out.
    fn pop(&mut self)
        requires { 0 < length self.old.items }
        ensures items { self.new.items ≡ take (length self.old.items - 1) self.old.items }
        ensures cap { self.new.cap ≡ self.old.cap }
    {
        let Some(link) = self.links.pop() else {
            unreachable!()
        };
        if let Some(key) = link.key {
            self.heads[bucket_of(key)] = link.before;
        }
    }

    /// The last place of a key among the first `end` places, counted from 0. None exactly where none of them has it.
    pub fn last_below(&self, key: u32, end: u32) -> Option<u32>
        requires { end ≤ length self.now.items }
        ensures { IsLastPlace self.now.items key end result }
    {
        let mut number = self.heads[bucket_of(key)];
        while number > 0 {
            let place = number - 1;
            let link = self.links[place as usize];
            if place < end && link.key == Some(key) {
                return Some(place);
            }
            number = link.before;
        }
        None
    }
}

/// The bucket of a key.
fn bucket_of(key: u32) -> usize
    ensures { result ≡ key % BUCKETS }
{
    (key % BUCKETS) as usize
}

/// Buckets with no place in them.
fn no_heads(alloc: Global) -> Result<Vec<u32>, NoMemory>
    ensures { IfOk result (λ heads. heads.items ≡ replicate BUCKETS 0) }
{
    Ok(vec![in alloc; 0; BUCKETS as usize]?)
}
