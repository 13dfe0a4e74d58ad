ghost use Rattle.std.specs.Prelude.{◌≡◌, ◌≢◌, ◌^◌, ◌<◌, ◌↔◌, ℕ, List, [], ◌∷◌, ◌++◌, All, Ok, Err, IsTrue, IfOk, IfErr, IfSome, IfNone, decimal};
ghost use Rattle.hm_base.specs.Rising.{CanFollow};
ghost use Rattle.hm_schedule.specs.FirstReasons.{FieldNeeds, IsNumber, IsPrintable, replica_field};
ghost use Rattle.hm_schedule.specs.LineWords.{IsWord, IsWordEnd, SplitsWord};
ghost use Rattle.hm_operator.specs.Orders.{BehindNeeded, FollowerNeeded, IsFirstReason, IsLawful, NothingNeeded, order_text, replicas_in, verb_in, verb_named};
ghost use Rattle.hm_operator.specs.Orders.{IsSpelledBy};
ghost use Rattle.hm_operator.specs.declared.order.Order.{Order};

use crate::live::Live;
use crate::order::{Order, Verb};
use hm_base::spelling::read_number;
use hm_schedule::line::LineReason;
use memchr::memchr;

/// The greatest number of a replica.
const MAX_REPLICA: u8 = 6;

/// The order that a line spells, without its end. A refusal says the first reason why it spells none.
pub fn read_order(line: &[u8]) -> Result<Order, LineReason>
    ensures ok { IfOk result (λ o. IsLawful o × (line.now ≡ order_text o)) }
    ensures only { (o : Order) → IsLawful o → line.now ≡ order_text o → result ≡ Ok o }
    ensures reason { (reason : LineReason) → (result ≡ Err reason) ↔ IsFirstReason line.now reason }
{
    if !are_printable(line) {
        return Err(LineReason::Byte);
    }
    let (word, fields) = split_word(line);
    match verb_of(word) {
        Some(verb) => read_fields(verb, fields),
        None => Err(LineReason::Word),
    }
}

/// Whether all bytes are printable characters or spaces.
fn are_printable(bytes: &[u8]) -> bool
    ensures { IsTrue result ↔ All IsPrintable bytes.now }
{
    bytes.iter().all(|byte| is_printable(*byte))
}

/// Whether a byte is a printable character or a space.
fn is_printable(byte: u8) -> bool
    ensures { IsTrue result ↔ IsPrintable byte }
{
    byte >= b' ' && byte <= b'~'
}

/// A text's first word, up to a space or the end, and the rest from that space on.
fn split_word(text: &[u8]) -> (&[u8], &[u8])
    ensures { SplitsWord text.now result.0.now result.1.now }
{
    match memchr(b' ', text) {
        Some(len) => text.split_at(len),
        None => text.split_at(text.len()),
    }
}

/// The word behind a space, and the rest. None exactly where the text doesn't begin with a space.
fn next_word(text: &[u8]) -> Option<(&[u8], &[u8])>
    ensures some { IfSome result (λ found. (text.now ≡ 32 ∷ (found.0.now ++ found.1.now)) × IsWord found.0.now × IsWordEnd found.1.now) }
    ensures none { IfNone result ((rest : List ℕ) → text.now ≢ 32 ∷ rest) }
{
    match text {
        [b' ', rest @ ..] => Some(split_word(rest)),
        _ => None,
    }
}

/// The verb that a word is. None exactly for any other word.
fn verb_of(word: &[u8]) -> Option<Verb>
    ensures { result ≡ verb_named word.now }
{
    if word == b"remove".as_slice() {
        Some(Verb::Remove)
    } else if word == b"retire".as_slice() {
        Some(Verb::Retire)
    } else if word == b"take".as_slice() {
        Some(Verb::Take)
    } else if word == b"start".as_slice() {
        Some(Verb::Start)
    } else {
        None
    }
}

/// The order with this verb whose fields a text spells. A refusal says what is needed first.
fn read_fields(verb: Verb, fields: &[u8]) -> Result<Order, LineReason>
    requires { IsWordEnd fields.now }
    ensures ok { IfOk result (λ o. IsSpelledBy verb fields.now o) }
    ensures reason { IfErr result (λ r. BehindNeeded verb fields.now r) }
{
    match verb {
        Verb::Remove => read_remove(fields),
        Verb::Retire => read_alone(Order::Retire, fields),
        Verb::Take => read_alone(Order::Take, fields),
        Verb::Start => read_start(fields),
    }
}

/// An order that has no fields.
fn read_alone(order: Order, fields: &[u8]) -> Result<Order, LineReason>
    requires lawful { IsLawful order }
    requires alone { replicas_in order ≡ [] }
    ensures ok { IfOk result (λ o. IsSpelledBy (verb_in order) fields.now o) }
    ensures reason { IfErr result (λ r. NothingNeeded fields.now r) }
{
    if fields.is_empty() {
        Ok(order)
    } else {
        Err(LineReason::Count)
    }
}

/// The replica to remove.
fn read_remove(fields: &[u8]) -> Result<Order, LineReason>
    requires { IsWordEnd fields.now }
    ensures ok { IfOk result (λ o. IsSpelledBy Verb.Remove fields.now o) }
    ensures reason { IfErr result (λ r. BehindNeeded Verb.Remove fields.now r) }
{
    let Some((word, rest)) = next_word(fields) else {
        return Err(LineReason::Count);
    };
    if !rest.is_empty() {
        return Err(LineReason::Count);
    }
    match replica_of(word) {
        Ok(replica) => Ok(Order::Remove(replica)),
        Err(reason) => Err(reason),
    }
}

/// The replicas that may still answer.
fn read_start(fields: &[u8]) -> Result<Order, LineReason>
    requires { IsWordEnd fields.now }
    ensures ok { IfOk result (λ o. IsSpelledBy Verb.Start fields.now o) }
    ensures reason { IfErr result (λ r. BehindNeeded Verb.Start fields.now r) }
{
    let mut live = Live::none();
    let mut rest = fields;
    while let Some((word, more)) = next_word(rest) {
        match with_word(live, word) {
            Ok(longer) => live = longer,
            Err(reason) => return Err(reason),
        }
        rest = more;
    }
    Ok(Order::Start(live))
}

/// These replicas and the one behind them that a word spells. A refusal says what is needed first.
fn with_word(live: Live, word: &[u8]) -> Result<Live, LineReason>
    ensures ok { IfOk result (λ longer. (replica : ℕ) × CanFollow live replica × (word.now ≡ decimal replica) × (longer ≡ live ++ replica ∷ [])) }
    ensures reason { IfErr result (λ r. FollowerNeeded live word.now r) }
{
    let Some(replica) = byte_of(word) else {
        return Err(LineReason::Number);
    };
    match live.with(replica) {
        Some(longer) => Ok(longer),
        None => Err(LineReason::Range),
    }
}

/// The number of a replica that a word spells. A refusal says what is needed first.
fn replica_of(word: &[u8]) -> Result<u8, LineReason>
    ensures ok { IfOk result (λ replica. (word.now ≡ decimal replica) × (replica < 7)) }
    ensures reason { IfErr result (λ r. FieldNeeds replica_field word.now (λ later. ⊥) r) }
{
    let Some(replica) = byte_of(word) else {
        return Err(LineReason::Number);
    };
    if replica > MAX_REPLICA {
        return Err(LineReason::Range);
    }
    Ok(replica)
}

/// The number of eight bits that a word spells. None exactly where it spells none.
fn byte_of(word: &[u8]) -> Option<u8>
    ensures some { IfSome result (λ n. word.now ≡ decimal n) }
    ensures none { IfNone result (IsNumber (2 ^ 8) word.now → ⊥) }
{
    let number = read_number(word)?;
    if number > 255 {
        return None;
    }
    Some(number as u8)
}
