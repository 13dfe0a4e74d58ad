ghost use Rattle.std.specs.Prelude.{◌≡◌};
ghost use Rattle.hm_base.specs.Logs as logs;

use crate::operation::Answer;
use crate::stamp::Stamp;
use crate::value::Value;

/// The version and answer of a read whose object was written last by this write: 0.0 and Nothing for none.
pub fn reply_of(latest: Option<(Stamp, Value)>) -> (Stamp, Answer)
    ensures { result ≡ logs.reply_of latest }
{
    match latest {
        None => (Stamp::LEAST, Answer::Nothing),
        Some((stamp, value)) => (stamp, Answer::Found(value)),
    }
}
