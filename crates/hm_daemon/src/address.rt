ghost use Rattle.std.specs.Prelude.{◌≡◌, ◌≢◌, ◌↔◌, ℕ, ◌<◌, ◌≤◌, List, ◌∷◌, ◌++◌, length, All, Some, IfSome, IfNone, IsSomeAnd, IsTrue, decimal};
ghost use Rattle.hm_base.specs.Spellings.{node_text};
ghost use Rattle.hm_base.specs.declared.node.Node.{Node};
ghost use Rattle.hm_daemon.specs.Addresses.{IsAddress, IsNode};

use hm_base::node::Node;
use hm_base::spelling::read_number;
use memchr::memchr;

/// The greatest number of a client, a switch or an object.
pub(crate) const MAX_NUMBER: u64 = u32::MAX as u64;

/// The greatest number of a replica.
const MAX_REPLICA: u64 = 6;

/// The number that a text spells, within these limits. None exactly where it spells none.
pub(crate) fn number_within(text: &[u8], least: u64, most: u64) -> Option<u64>
    ensures some { IfSome result (λ n. (text.now ≡ decimal n) × (least ≤ n) × (n ≤ most)) }
    ensures only { (n : ℕ) → least ≤ n → n ≤ most → text.now ≡ decimal n → result ≡ Some n }
{
    let number = read_number(text)?;
    if number < least {
        return None;
    }
    if number > most {
        return None;
    }
    Some(number)
}

/// The node that a text names, as `c7`, `s1`, `r0` or `cfg`. None exactly for any other text.
pub fn read_node(text: &[u8]) -> Option<Node>
    ensures some { IfSome result (λ n. (text.now ≡ node_text n) × IsNode n) }
    ensures only { (n : Node) → IsNode n → text.now ≡ node_text n → result ≡ Some n }
{
    if text == b"cfg".as_slice() {
        return Some(Node::Config);
    }
    match text {
        [b'c', digits @ ..] => Some(Node::Client(number_within(digits, 0, MAX_NUMBER)? as u32)),
        [b's', digits @ ..] => Some(Node::Switch(number_within(digits, 0, MAX_NUMBER)? as u32)),
        [b'r', digits @ ..] => Some(Node::Replica(number_within(digits, 0, MAX_REPLICA)? as u8)),
        _ => None,
    }
}

/// What stands before and behind a word's first `=`. None exactly where it has none.
fn split_sign(word: &[u8]) -> Option<(&[u8], &[u8])>
    ensures some { IfSome result (λ f. (word.now ≡ f.0.now ++ 61 ∷ f.1.now) × All (λ byte. byte ≢ 61) f.0.now) }
    ensures none { IfNone result (All (λ byte. byte ≢ 61) word.now) }
{
    match memchr(b'=', word) {
        Some(at) => Some((&word[..at], &word[at + 1..])),
        None => None,
    }
}

/// The node and the address in a word, as `r0=127.0.0.1:7000`. None exactly for a word of another form.
pub fn read_address(word: &[u8]) -> Option<(Node, &[u8])>
    ensures some { IfSome result (λ a. (word.now ≡ node_text a.0 ++ 61 ∷ a.1.now) × IsNode a.0 × (0 < length a.1.now)) }
    ensures only { (n : Node) (address : List ℕ) → IsNode n → 0 < length address → word.now ≡ node_text n ++ 61 ∷ address
        → IsSomeAnd result (λ a. (a.0 ≡ n) × (a.1.now ≡ address)) }
{
    let (node, address) = split_sign(word)?;
    let node = read_node(node)?;
    if address.is_empty() {
        None
    } else {
        Some((node, address))
    }
}

/// Whether a word tells where a node is.
pub(crate) fn is_address(word: &[u8]) -> bool
    ensures { IsTrue result ↔ IsAddress word.now }
{
    read_address(word).is_some()
}
