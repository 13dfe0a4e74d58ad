use crate::route::Route;
use hm_base::entries::Entries;
use hm_base::members::Members;
use hm_base::operation::Answer;
use hm_base::stamp::Stamp;
use hm_base::value::Value;

/// A client asks for an object's value.
#[derive(Clone, Copy, Debug, PartialEq, Eq)]
pub struct Read {
    pub request: u64,
    pub object: u32,
}

/// A client sets an object's value.
#[derive(Clone, Copy, Debug, PartialEq, Eq)]
pub struct Write {
    pub request: u64,
    pub object: u32,
    pub value: Value,
}

/// A write that the switch gave a number.
#[derive(Clone, Copy, Debug, PartialEq, Eq)]
pub struct Put {
    pub stamp: Stamp,
    pub client: u32,
    pub request: u64,
    pub object: u32,
    pub value: Value,
}

/// A read that the switch stamped with its last committed point: any one replica may answer it.
#[derive(Clone, Copy, Debug, PartialEq, Eq)]
pub struct FastRead {
    pub stamp: Stamp,
    pub client: u32,
    pub request: u64,
    pub object: u32,
}

/// A read that goes the protocol's normal way.
#[derive(Clone, Copy, Debug, PartialEq, Eq)]
pub struct NormalRead {
    pub client: u32,
    pub request: u64,
    pub object: u32,
}

/// The completion of a write.
#[derive(Clone, Copy, Debug, PartialEq, Eq)]
pub struct Done {
    pub stamp: Stamp,
    pub client: u32,
    pub request: u64,
}

/// The answer to a client.
#[derive(Clone, Copy, Debug, PartialEq, Eq)]
pub struct Reply {
    pub request: u64,
    pub version: Stamp,
    pub answer: Answer,
}

/// A page of a log, from a replica to those that follow it.
#[derive(Drop)]
pub struct Feed<'a> {
    pub view: u32,
    pub start: u32,
    pub first: u32,
    pub commit: u32,
    pub entries: Entries<'a>,
}

/// How long a list its sender holds.
#[derive(Clone, Copy, Debug, PartialEq, Eq)]
pub struct FeedAck {
    pub view: u32,
    pub len: u32,
}

/// The head of a chain asks the tail to complete a write again.
#[derive(Clone, Copy, Debug, PartialEq, Eq)]
pub struct Ask {
    pub view: u32,
    pub client: u32,
    pub request: u64,
}

/// How many entries are committed.
#[derive(Clone, Copy, Debug, PartialEq, Eq)]
pub struct Known {
    pub view: u32,
    pub len: u32,
}

/// A replica enters a view.
#[derive(Clone, Copy, Debug, PartialEq, Eq)]
pub struct StartViewChange {
    pub view: u32,
}

/// A replica's vote for the primary of a view: its last normal view, and the lengths of its log and of its applied prefix.
#[derive(Clone, Copy, Debug, PartialEq, Eq)]
pub struct Vote {
    pub view: u32,
    pub normal: u32,
    pub len: u32,
    pub commit: u32,
}

/// The primary of a view asks the chosen replica for its log.
#[derive(Clone, Copy, Debug, PartialEq, Eq)]
pub struct Pull {
    pub view: u32,
    pub first: u32,
}

/// A page of the chosen log.
#[derive(Drop)]
pub struct Page<'a> {
    pub view: u32,
    pub first: u32,
    pub entries: Entries<'a>,
}

/// The members of an epoch.
#[derive(Drop)]
pub struct Config {
    pub view: u32,
    pub members: Members,
}

/// The service asks a replica to take nothing more of this switch and of those before it.
#[derive(Clone, Copy, Debug, PartialEq, Eq)]
pub struct Refuse {
    pub switch: u32,
}

/// A replica takes nothing more of this switch.
#[derive(Clone, Copy, Debug, PartialEq, Eq)]
pub struct Refused {
    pub switch: u32,
}

/// What a packet says.
#[derive(Drop)]
pub enum Body<'a> {
    Read(Read),
    Write(Write),
    Put(Put),
    FastRead(FastRead),
    NormalRead(NormalRead),
    Done(Done),
    Reply(Reply),
    Feed(Feed<'a>),
    FeedAck(FeedAck),
    Ask(Ask),
    Known(Known),
    StartViewChange(StartViewChange),
    Vote(Vote),
    Pull(Pull),
    Page(Page<'a>),
    Config(Config),
    Route(Route),
    Refuse(Refuse),
    Refused(Refused),
}

impl<'a> Body<'a> {
    ghost use Rattle.std.specs.Prelude.{◌≡◌};

    /// An equal body.
    pub fn copy(&self) -> Body<'a>
        ensures { result ≡ self.now }
    {
        match self {
            Body::Read(read) => Body::Read(*read),
            Body::Write(write) => Body::Write(*write),
            Body::Put(put) => Body::Put(*put),
            Body::FastRead(read) => Body::FastRead(*read),
            Body::NormalRead(read) => Body::NormalRead(*read),
            Body::Done(done) => Body::Done(*done),
            Body::Reply(reply) => Body::Reply(*reply),
            Body::Feed(feed) => Body::Feed(Feed {
                view: feed.view,
                start: feed.start,
                first: feed.first,
                commit: feed.commit,
                entries: feed.entries.copy(),
            }),
            Body::FeedAck(ack) => Body::FeedAck(*ack),
            Body::Ask(ask) => Body::Ask(*ask),
            Body::Known(known) => Body::Known(*known),
            Body::StartViewChange(start) => Body::StartViewChange(*start),
            Body::Vote(vote) => Body::Vote(*vote),
            Body::Pull(pull) => Body::Pull(*pull),
            Body::Page(page) => Body::Page(Page {
                view: page.view,
                first: page.first,
                entries: page.entries.copy(),
            }),
            Body::Config(config) => Body::Config(Config {
                view: config.view,
                members: config.members.copy(),
            }),
            Body::Route(route) => Body::Route(route.copy()),
            Body::Refuse(refuse) => Body::Refuse(*refuse),
            Body::Refused(refused) => Body::Refused(*refused),
        }
    }
}
