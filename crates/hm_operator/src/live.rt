ghost use Rattle.std.specs.Prelude.{◌≡◌, ◌↔◌, [], ◌∷◌, ◌++◌, IsSome, IfSome};
ghost use Rattle.hm_base.specs.Rising.{CanFollow};

use hm_base::members::Members;
use std::marker::Model;

/// Replicas that may still answer, with rising numbers of at most 6, or none. Contracts see a list.
#[derive(Drop)]
pub struct Live {
    members: Option<Members>,
}

impl Model for Live {
    ghost use Rattle.std.specs.Prelude.{List, ℕ};
    ghost use Rattle.hm_operator.specs.Lives.{listed};

    ghost Value = { List ℕ };

    ghost view = { λ l. listed l.members };
}

impl Live {
    /// No replicas.
    pub fn none() -> Live
        ensures { result ≡ [] }
    {
        Live { members: None }
    }

    /// The replicas.
    pub fn as_slice(&self) -> &[u8]
        ensures { result.now ≡ self.now }
    {
        match &self.members {
            Some(members) => members.as_slice(),
            None => &[],
        }
    }

    /// These and one more behind them. None exactly where that is above 6, or not above the last one.
    pub fn with(self, replica: u8) -> Option<Live>
        ensures some { IfSome result (λ live. live ≡ self ++ replica ∷ []) }
        ensures fits { IsSome result ↔ CanFollow self replica }
    {
        match self.members {
            Some(mut members) => match members.try_push(replica) {
                Ok(()) => Some(Live {
                    members: Some(members),
                }),
                Err(_) => None,
            },
            None => match Members::first(replica) {
                Some(first) => Some(Live {
                    members: Some(first),
                }),
                None => None,
            },
        }
    }
}
