ghost use Rattle.std.specs.Prelude.{◌≡◌, ◌<◌, ◌⊎◌, length, fold, max, count_by, slice_get, Some, IfSome};
ghost use Rattle.hm_rules.specs.Votes as rules;
ghost use Rattle.hm_viewchange.specs.Ballots.{ballot_of, ballot_in, ballot_at, commit_in};

use hm_base::members::MAX_REPLICAS;
use hm_packet::body::Vote;

/// A vote and the number of the replica that gave it.
#[derive(Clone, Copy, Debug, PartialEq, Eq)]
pub struct Ballot {
    pub voter: u8,
    pub vote: Vote,
}

/// The first of these votes, which stand at their replicas' numbers, that has the greatest last normal view and, among those, the
/// greatest length. None exactly where nobody voted.
pub fn best(votes: &[Option<Vote>; MAX_REPLICAS]) -> Option<Ballot>
    ensures value { ballot_in result ≡ rules.best (rules.ballots_from 0 votes.now) }
    ensures stands { IfSome result (λ b. (b.voter < MAX_REPLICAS) × (slice_get votes.now b.voter ≡ Some (Some b.vote))) }
{
    let mut found: Option<Ballot> = None;
    for voter in 0..MAX_REPLICAS {
        found = better(found, voter as u8, votes[voter]);
    }
    found
}

/// The better of a ballot and a further vote, the ballot where they are alike.
fn better(found: Option<Ballot>, voter: u8, vote: Option<Vote>) -> Option<Ballot>
    ensures value { ballot_in result ≡ fold rules.better (ballot_in found) (ballot_at voter vote) }
    ensures stands { IfSome result (λ b. (Some b ≡ found) ⊎ ((b.voter ≡ voter) × (Some b.vote ≡ vote))) }
{
    match (found, vote) {
        (Some(old), Some(new)) => Some(better_of(old, Ballot { voter, vote: new })),
        (None, Some(new)) => Some(Ballot { voter, vote: new }),
        (old, None) => old,
    }
}

/// The better of two ballots, the older one where they are alike.
fn better_of(old: Ballot, new: Ballot) -> Ballot
    ensures value { Some (ballot_of result) ≡ rules.better (Some (ballot_of old)) (ballot_of new) }
    ensures either { (result ≡ old) ⊎ (result ≡ new) }
{
    if is_better(&old.vote, &new.vote) {
        new
    } else {
        old
    }
}

/// Whether a vote has a greater last normal view, or the same and a greater length.
fn is_better(old: &Vote, new: &Vote) -> bool
    ensures { result ≡ rules.is_better old.now new.now }
{
    old.normal < new.normal || (old.normal == new.normal && old.len < new.len)
}

/// How many replicas voted.
pub(crate) fn count_votes(votes: &[Option<Vote>; MAX_REPLICAS]) -> u8
    ensures { result ≡ length (rules.ballots_from 0 votes.now) }
{
    let mut count = 0u8;
    for vote in votes {
        if vote.is_some() {
            count += 1;
        }
    }
    count
}

/// The greatest length that one of the votes tells to be committed, 0 where nobody voted.
pub(crate) fn greatest_commit(votes: &[Option<Vote>; MAX_REPLICAS]) -> u32
    ensures { result ≡ fold (λ m b. max m b.vote.commit) 0 (rules.ballots_from 0 votes.now) }
{
    let mut greatest = 0u32;
    for vote in votes {
        greatest = greatest.max(commit_of(*vote));
    }
    greatest
}

/// The length that a vote tells to be committed, 0 where there is none.
fn commit_of(vote: Option<Vote>) -> u32
    ensures { result ≡ commit_in vote }
{
    match vote {
        Some(vote) => vote.commit,
        None => 0,
    }
}

/// How many replicas were heard.
pub(crate) fn count_heard(heard: &[bool; MAX_REPLICAS]) -> u8
    ensures { result ≡ count_by (λ h. h) heard.now }
{
    let mut count = 0u8;
    for was_heard in heard {
        if *was_heard {
            count += 1;
        }
    }
    count
}
