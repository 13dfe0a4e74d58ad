ghost use Rattle.std.specs.Prelude.{◌≡◌, map, string_bytes, IfSome, Some};
ghost use Rattle.hm_base.specs.declared.node.Node.{Node};
ghost use Rattle.hm_order.specs.declared.mark.Want.{Want};
ghost use Rattle.hm_daemon.specs.Words.{IsSwitchWords, IsReplicaWords, IsConfigWords, IsClientWords, IsWant, Starts, want_text, object_of};
ghost use Rattle.hm_daemon.specs.declared.words.ClientWords.{ClientWords};
ghost use Rattle.hm_daemon.specs.declared.words.ConfigWords.{ConfigWords};
ghost use Rattle.hm_daemon.specs.declared.words.ReplicaWords.{ReplicaWords};
ghost use Rattle.hm_daemon.specs.declared.words.SwitchWords.{SwitchWords};

use crate::address::MAX_NUMBER;
use crate::fields::{are_addresses, next_group, next_name, next_number, next_word};
use hm_base::node::{GroupKind, Node};
use hm_base::operation::OpId;
use hm_base::spelling::read_value;
use hm_order::mark::Want;

/// How many workers a switch has at most.
pub const MAX_WORKERS: u64 = 16;

/// How many packets a switch with a journal handles at most.
pub const MAX_JOURNAL: u64 = 1_048_576;

/// What the words of a switch say: its number, how many workers it has, its dirty table, how many packets it handles, how often
/// each worker takes, and the group.
#[derive(Clone, Copy, Debug, PartialEq, Eq)]
pub struct SwitchWords {
    pub id: u32,
    pub workers: u8,
    pub stages: u8,
    pub bits: u8,
    pub life: u32,
    pub turns: u64,
    pub kind: GroupKind,
    pub size: u8,
}

/// What the words of a replica say: its number, the group, how many entries its log has at most, how often it takes, and after how
/// many waiting times in a row it gives its leader up, where 0 is never.
#[derive(Clone, Copy, Debug, PartialEq, Eq)]
pub struct ReplicaWords {
    pub me: u8,
    pub kind: GroupKind,
    pub size: u8,
    pub cap: u32,
    pub turns: u64,
    pub patience: u64,
}

/// What the words of the configuration service say: the group, and how many orders it takes.
#[derive(Clone, Copy, Debug, PartialEq, Eq)]
pub struct ConfigWords {
    pub kind: GroupKind,
    pub size: u8,
    pub turns: u64,
}

/// What the words of a client say: its operation, the switch, how often it takes, and what it asks for.
#[derive(Clone, Copy, Debug, PartialEq, Eq)]
pub struct ClientWords {
    pub op: OpId,
    pub switch: u32,
    pub turns: u64,
    pub want: Want,
}

/// Reads `switch ID WORKERS STAGES BITS LIFE TURNS KIND SIZE ADDR ..`. None exactly for other words.
pub fn switch_words(words: &[String]) -> Option<SwitchWords>
    ensures some { IfSome result (λ w. IsSwitchWords (map string_bytes words.now) w) }
    ensures only { (w : SwitchWords) → IsSwitchWords (map string_bytes words.now) w → result ≡ Some w }
{
    let words = next_name(words, "switch")?;
    let (id, words) = next_number(words, 1, MAX_NUMBER)?;
    let (workers, words) = next_number(words, 1, MAX_WORKERS)?;
    let (stages, words) = next_number(words, 1, 4)?;
    let (bits, words) = next_number(words, 0, 12)?;
    let (life, words) = next_number(words, 1, MAX_JOURNAL)?;
    let (turns, words) = next_number(words, 1, u64::MAX)?;
    let (kind, size, words) = next_group(words)?;
    if !are_addresses(words) {
        return None;
    }
    Some(SwitchWords {
        id: id as u32,
        workers: workers as u8,
        stages: stages as u8,
        bits: bits as u8,
        life: life as u32,
        turns,
        kind,
        size,
    })
}

/// Reads `replica R KIND SIZE CAP TURNS PATIENCE ADDR ..`. None exactly for other words.
pub fn replica_words(words: &[String]) -> Option<ReplicaWords>
    ensures some { IfSome result (λ w. IsReplicaWords (map string_bytes words.now) w) }
    ensures only { (w : ReplicaWords) → IsReplicaWords (map string_bytes words.now) w → result ≡ Some w }
{
    let words = next_name(words, "replica")?;
    let (me, words) = next_number(words, 0, 6)?;
    let (kind, size, words) = next_group(words)?;
    let (cap, words) = next_number(words, 1, 16_384)?;
    let (turns, words) = next_number(words, 1, u64::MAX)?;
    let (patience, words) = next_number(words, 0, u64::MAX)?;
    let me = me as u8;
    if me >= size {
        return None;
    }
    if !are_addresses(words) {
        return None;
    }
    Some(ReplicaWords {
        me,
        kind,
        size,
        cap: cap as u32,
        turns,
        patience,
    })
}

/// Reads `config KIND SIZE TURNS ADDR ..`. None exactly for other words.
pub fn config_words(words: &[String]) -> Option<ConfigWords>
    ensures some { IfSome result (λ w. IsConfigWords (map string_bytes words.now) w) }
    ensures only { (w : ConfigWords) → IsConfigWords (map string_bytes words.now) w → result ≡ Some w }
{
    let words = next_name(words, "config")?;
    let (kind, size, words) = next_group(words)?;
    let (turns, words) = next_number(words, 1, u64::MAX)?;
    if !are_addresses(words) {
        return None;
    }
    Some(ConfigWords { kind, size, turns })
}

/// What a client's word asks for of an object: `read`, or the value to write. None exactly for any other word.
fn want_of(object: u32, word: &[u8]) -> Option<Want>
    ensures some { IfSome result (λ w. (word.now ≡ want_text w) × IsWant w × (object_of w ≡ object)) }
    ensures only { (w : Want) → IsWant w → object_of w ≡ object → word.now ≡ want_text w → result ≡ Some w }
{
    if word == b"read".as_slice() {
        return Some(Want::Read { object });
    }
    let value = read_value(word)?;
    Some(Want::Write { object, value })
}

/// Reads `client C REQUEST SWITCH TURNS OBJECT WHAT ADDR ..`. None exactly for other words.
pub fn client_words(words: &[String]) -> Option<ClientWords>
    ensures some { IfSome result (λ w. IsClientWords (map string_bytes words.now) w) }
    ensures only { (w : ClientWords) → IsClientWords (map string_bytes words.now) w → result ≡ Some w }
{
    let words = next_name(words, "client")?;
    let (client, words) = next_number(words, 0, MAX_NUMBER)?;
    let (request, words) = next_number(words, 1, u64::MAX)?;
    let (switch, words) = next_number(words, 1, MAX_NUMBER)?;
    let (turns, words) = next_number(words, 1, u64::MAX)?;
    let (object, words) = next_number(words, 0, MAX_NUMBER)?;
    let (word, words) = next_word(words)?;
    let want = want_of(object as u32, word)?;
    if !are_addresses(words) {
        return None;
    }
    Some(ClientWords {
        op: OpId {
            client: client as u32,
            request,
        },
        switch: switch as u32,
        turns,
        want,
    })
}

/// The node that the words start. None exactly for words that start none.
pub fn node_of(words: &[String]) -> Option<Node>
    ensures some { IfSome result (λ n. Starts (map string_bytes words.now) n) }
    ensures only { (n : Node) → Starts (map string_bytes words.now) n → result ≡ Some n }
{
    if let Some(words) = switch_words(words) {
        Some(Node::Switch(words.id))
    } else if let Some(words) = replica_words(words) {
        Some(Node::Replica(words.me))
    } else if config_words(words).is_some() {
        Some(Node::Config)
    } else if let Some(words) = client_words(words) {
        Some(Node::Client(words.op.client))
    } else {
        None
    }
}
