ghost use Rattle.std.specs.Prelude.{◌≡◌, ◌∷◌, ◌++◌, [], OnOk, OnErr, decimal};
ghost use Rattle.hm_base.specs.Lists.{IsPrefix};
ghost use Rattle.hm_base.specs.Spellings.{spaced, stamp_text, value_text, answer_text, act_text, entry_words, entries_words, members_words};

use hm_base::buffer::Text;
use hm_base::entry::{Act, Entry};
use hm_base::memory::NoMemory;
use hm_base::operation::Answer;
use hm_base::stamp::Stamp;
use hm_base::text::{write_act, write_answer, write_bytes, write_number, write_stamp, write_value};
use hm_base::value::Value;

/// Appends a word with a space before it. Here and below, after want of memory `out` begins with what it held.
pub fn push_word(word: &[u8], out: &mut Text) -> Result<(), NoMemory>
    ensures ok { OnOk result (out.new.items ≡ out.old.items ++ spaced (word.now ∷ [])) }
    ensures err { OnErr result (IsPrefix out.old.items out.new.items) }
{
    out.push(b' ')?;
    write_bytes(word, out)
}

/// Appends a number with a space before it.
pub fn push_number(number: u64, out: &mut Text) -> Result<(), NoMemory>
    ensures ok { OnOk result (out.new.items ≡ out.old.items ++ spaced (decimal number ∷ [])) }
    ensures err { OnErr result (IsPrefix out.old.items out.new.items) }
{
    out.push(b' ')?;
    write_number(number, out)
}

/// Appends the name of a kind and its first field, a number, each with a space before it.
pub(crate) fn push_kind(name: &[u8], first: u64, out: &mut Text) -> Result<(), NoMemory>
    ensures ok { OnOk result (out.new.items ≡ out.old.items ++ spaced (name.now ∷ decimal first ∷ [])) }
    ensures err { OnErr result (IsPrefix out.old.items out.new.items) }
{
    push_word(name, out)?;
    push_number(first, out)
}

/// Appends a client, its request's number and the object, each with a space before it.
pub(crate) fn push_request(
    client: u32,
    request: u64,
    object: u32,
    out: &mut Text,
) -> Result<(), NoMemory>
    ensures ok { OnOk result (out.new.items ≡ out.old.items ++ spaced (decimal client ∷ decimal request ∷ decimal object ∷ [])) }
    ensures err { OnErr result (IsPrefix out.old.items out.new.items) }
{
    push_number(u64::from(client), out)?;
    push_number(request, out)?;
    push_number(u64::from(object), out)
}

/// Appends a stamp with a space before it.
pub fn push_stamp(stamp: Stamp, out: &mut Text) -> Result<(), NoMemory>
    ensures ok { OnOk result (out.new.items ≡ out.old.items ++ spaced (stamp_text stamp ∷ [])) }
    ensures err { OnErr result (IsPrefix out.old.items out.new.items) }
{
    out.push(b' ')?;
    write_stamp(stamp, out)
}

/// Appends a value with a space before it.
pub(crate) fn push_value(value: &Value, out: &mut Text) -> Result<(), NoMemory>
    ensures ok { OnOk result (out.new.items ≡ out.old.items ++ spaced (value_text value.now ∷ [])) }
    ensures err { OnErr result (IsPrefix out.old.items out.new.items) }
{
    out.push(b' ')?;
    write_value(value, out)
}

/// Appends an answer with a space before it.
pub(crate) fn push_answer(answer: &Answer, out: &mut Text) -> Result<(), NoMemory>
    ensures ok { OnOk result (out.new.items ≡ out.old.items ++ spaced (answer_text answer.now ∷ [])) }
    ensures err { OnErr result (IsPrefix out.old.items out.new.items) }
{
    out.push(b' ')?;
    write_answer(answer, out)
}

/// Appends an act with a space before it.
fn push_act(act: &Act, out: &mut Text) -> Result<(), NoMemory>
    ensures ok { OnOk result (out.new.items ≡ out.old.items ++ spaced (act_text act.now ∷ [])) }
    ensures err { OnErr result (IsPrefix out.old.items out.new.items) }
{
    out.push(b' ')?;
    write_act(act, out)
}

/// Appends an entry's words.
fn push_entry(entry: &Entry, out: &mut Text) -> Result<(), NoMemory>
    ensures ok { OnOk result (out.new.items ≡ out.old.items ++ spaced (entry_words entry.now)) }
    ensures err { OnErr result (IsPrefix out.old.items out.new.items) }
{
    push_stamp(entry.stamp, out)?;
    push_request(entry.client, entry.request, entry.object, out)?;
    push_act(&entry.act, out)
}

/// Appends the number of entries and the entries' words.
#[tactic(auto, using(hm_base::proofs::ListLaws::spaced_append, hm_base::proofs::ListLaws::begins_sooner, std::proofs::lemmas::Grind::common_steps))]
pub(crate) fn push_entries(entries: &[Entry], out: &mut Text) -> Result<(), NoMemory>
    ensures ok { OnOk result (out.new.items ≡ out.old.items ++ spaced (entries_words entries.now)) }
    ensures err { OnErr result (IsPrefix out.old.items out.new.items) }
{
    push_number(entries.len() as u64, out)?;
    for entry in entries {
        push_entry(entry, out)?;
    }
    Ok(())
}

/// Appends the number of members and the members.
#[tactic(auto, using(hm_base::proofs::ListLaws::spaced_append, hm_base::proofs::ListLaws::begins_sooner, std::proofs::lemmas::Grind::common_steps))]
pub(crate) fn push_members(members: &[u8], out: &mut Text) -> Result<(), NoMemory>
    ensures ok { OnOk result (out.new.items ≡ out.old.items ++ spaced (members_words members.now)) }
    ensures err { OnErr result (IsPrefix out.old.items out.new.items) }
{
    push_number(members.len() as u64, out)?;
    for member in members {
        push_number(u64::from(*member), out)?;
    }
    Ok(())
}
