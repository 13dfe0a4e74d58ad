ghost use Rattle.std.specs.Prelude.{◌≡◌, ◌++◌, OnOk, decimal};
ghost use Rattle.hm_desk.specs.Deeds.{noted, outcome_line, outcome_text};

use hm_base::buffer::Text;
use hm_base::memory::NoMemory;
use hm_base::text::{write_bytes, write_number};
use hm_base::why::Why;
use hm_packet::acted::Did;
use hm_reconfig::fault::{RemoveFault, StartFault};

/// What an order came to.
#[derive(Clone, Copy, Debug, PartialEq, Eq)]
pub(crate) enum Outcome {
    /// The member was removed.
    Removed,
    /// The replica wasn't removed.
    NotRemoved(RemoveFault),
    /// The members were asked to take nothing more of the newest switch.
    Retired,
    /// A packet was taken, and the service noted it.
    Noted,
    /// A packet was taken, and the service took no notice of it.
    Ignored(Why),
    /// Nothing came in the link's waiting time.
    Quiet,
    /// A datagram was taken that is no packet.
    Malformed,
    /// Nothing will come any more.
    Ended,
    /// The switch of this number starts.
    Started(u32),
    /// The next switch doesn't start.
    NotStarted(StartFault),
}

/// What a packet came to of which the service says this.
pub(crate) fn noted(did: Did) -> Outcome
    ensures { result ≡ noted did }
{
    match did {
        Did::Ignored(why) => Outcome::Ignored(why),
        Did::Done | Did::LogFull => Outcome::Noted,
    }
}

/// Appends a word and a number.
fn write_numbered(word: &str, number: u64, out: &mut Text) -> Result<(), NoMemory>
    ensures { OnOk result (out.new.items ≡ out.old.items ++ (word.now ++ decimal number)) }
{
    write_bytes(word.as_bytes(), out)?;
    write_number(number, out)
}

/// Appends that the next switch doesn't start, and why.
fn write_start_fault(fault: StartFault, out: &mut Text) -> Result<(), NoMemory>
    ensures { OnOk result (out.new.items ≡ out.old.items ++ outcome_text (Outcome.NotStarted fault)) }
{
    match fault {
        StartFault::NotRetired => write_bytes(b"start NotRetired", out),
        StartFault::NotRefused { replica } => {
            write_numbered("start NotRefused ", u64::from(replica), out)
        }
        StartFault::NoNumber => write_bytes(b"start NoNumber", out),
    }
}

/// Appends what an order came to.
fn write_outcome(outcome: Outcome, out: &mut Text) -> Result<(), NoMemory>
    ensures { OnOk result (out.new.items ≡ out.old.items ++ outcome_text outcome) }
{
    match outcome {
        Outcome::Removed => write_bytes(b"remove ok", out),
        Outcome::NotRemoved(RemoveFault::Fixed) => write_bytes(b"remove Fixed", out),
        Outcome::NotRemoved(RemoveFault::NotMember) => write_bytes(b"remove NotMember", out),
        Outcome::NotRemoved(RemoveFault::Last) => write_bytes(b"remove Last", out),
        Outcome::Retired => write_bytes(b"retire ok", out),
        Outcome::Noted => write_bytes(b"take ok", out),
        Outcome::Ignored(why) => {
            write_bytes(b"take ignored ", out)?;
            write_bytes(why.name().as_bytes(), out)
        }
        Outcome::Quiet => write_bytes(b"take quiet", out),
        Outcome::Malformed => write_bytes(b"take malformed", out),
        Outcome::Ended => write_bytes(b"take ended", out),
        Outcome::Started(number) => write_numbered("start ", u64::from(number), out),
        Outcome::NotStarted(fault) => write_start_fault(fault, out),
    }
}

/// Appends the line of what an order came to.
pub(crate) fn write_line(outcome: Outcome, out: &mut Text) -> Result<(), NoMemory>
    ensures { OnOk result (out.new.items ≡ out.old.items ++ outcome_line outcome) }
{
    write_outcome(outcome, out)?;
    write_bytes(b"\n", out)
}
