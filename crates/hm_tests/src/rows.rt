//! Schedules and the whole texts of their runs.

use hm_replay::status::Status;

/// A schedule, how its run ends, and the text of its run.
#[derive(Clone, Copy)]
pub struct Row {
    pub schedule: &'static [u8],
    pub status: Status,
    pub text: &'static [u8],
}

/// A write, its completion and its reply, and a stamped read.
pub const WRITE_THEN_READ: Row = Row {
    schedule: b"group chain 1
write 7 5 61 1
next
next
next
next
read 8 5 1
next
next
next
",
    status: Status::Done,
    text: b"event 1 ok
invoke 7.1
packet 1 c7 s1 write 1 5 61
event 2 ok
packet 2 s1 r0 put 1.1 7 1 5 61
event 3 ok
commit 7.1 1.1
packet 3 r0 s1 done 1.1 7 1
event 4 ok
packet 4 s1 c7 reply 1 1.1 wrote
event 5 ok
reply 7.1 1.1 wrote
event 6 ok
invoke 8.1
packet 5 c8 s1 read 1 5
event 7 ok
packet 6 s1 r0 fastread 1.1 8 1 5
event 8 ok
packet 7 r0 c8 reply 1 1.1 61
event 9 ok
reply 8.1 1.1 61
order 2
place 7.1
place 8.1
end
",
};

/// A read before the first completion.
const READ_BEFORE_A_COMPLETION: Row = Row {
    schedule: b"group chain 1
read 8 5 1
next
next
next
",
    status: Status::Done,
    text: b"event 1 ok
invoke 8.1
packet 1 c8 s1 read 1 5
event 2 ok
packet 2 s1 r0 normalread 8 1 5
event 3 ok
packet 3 r0 c8 reply 1 0.0 none
event 4 ok
reply 8.1 0.0 none
order 1
place 8.1
end
",
};

/// A write that reaches the replica once more.
const CHAIN_PUT_REPEATED: Row = Row {
    schedule: b"group chain 1
write 7 5 61 1
next
deliver 2
deliver 2
deliver 2
",
    status: Status::Done,
    text: b"event 1 ok
invoke 7.1
packet 1 c7 s1 write 1 5 61
event 2 ok
packet 2 s1 r0 put 1.1 7 1 5 61
event 3 ok
commit 7.1 1.1
packet 3 r0 s1 done 1.1 7 1
event 4 ignored Order
event 5 ignored Order
order 1
place 7.1
end
",
};

/// One write under two numbers.
const CHAIN_WRITE_UNDER_TWO_NUMBERS: Row = Row {
    schedule: b"group chain 1
write 7 5 61 1
resend 7 1
deliver 1
deliver 2
deliver 3
deliver 5
deliver 6
deliver 4
read 8 5 1
deliver 8
write 9 6 62 1
deliver 10
deliver 11
deliver 12
read 10 5 1
deliver 14
deliver 15
",
    status: Status::Done,
    text: b"event 1 ok
invoke 7.1
packet 1 c7 s1 write 1 5 61
event 2 ok
packet 2 c7 s1 write 1 5 61
event 3 ok
packet 3 s1 r0 put 1.1 7 1 5 61
event 4 ok
packet 4 s1 r0 put 1.2 7 1 5 61
event 5 ok
commit 7.1 1.1
packet 5 r0 s1 done 1.1 7 1
event 6 ok
packet 6 s1 c7 reply 1 1.1 wrote
event 7 ok
reply 7.1 1.1 wrote
event 8 ok
packet 7 r0 s1 done 1.1 7 1
event 9 ok
invoke 8.1
packet 8 c8 s1 read 1 5
event 10 ok
packet 9 s1 r0 normalread 8 1 5
event 11 ok
invoke 9.1
packet 10 c9 s1 write 1 6 62
event 12 ok
packet 11 s1 r0 put 1.3 9 1 6 62
event 13 ok
commit 9.1 1.3
packet 12 r0 s1 done 1.3 9 1
event 14 ok
packet 13 s1 c9 reply 1 1.3 wrote
event 15 ok
invoke 10.1
packet 14 c10 s1 read 1 5
event 16 ok
packet 15 s1 r0 fastread 1.3 10 1 5
event 17 ok
packet 16 r0 c10 reply 1 1.1 61
order 2
place 7.1
place 9.1
end
",
};

/// A read of an object with a write under way.
const CHAIN_OBJECT_STILL_DIRTY: Row = Row {
    schedule: b"group chain 1
write 7 5 61 1
write 8 5 62 1
deliver 1
deliver 2
deliver 3
deliver 5
read 9 5 1
deliver 7
",
    status: Status::Done,
    text: b"event 1 ok
invoke 7.1
packet 1 c7 s1 write 1 5 61
event 2 ok
invoke 8.1
packet 2 c8 s1 write 1 5 62
event 3 ok
packet 3 s1 r0 put 1.1 7 1 5 61
event 4 ok
packet 4 s1 r0 put 1.2 8 1 5 62
event 5 ok
commit 7.1 1.1
packet 5 r0 s1 done 1.1 7 1
event 6 ok
packet 6 s1 c7 reply 1 1.1 wrote
event 7 ok
invoke 9.1
packet 7 c9 s1 read 1 5
event 8 ok
packet 8 s1 r0 normalread 9 1 5
order 1
place 7.1
end
",
};

/// A switch that handles as many packets as it may.
const SWITCH_LIFE: Row = Row {
    schedule: b"group chain 1
life 4
read 7 1 1
deliver 1
deliver 1
deliver 1
deliver 1
deliver 1
",
    status: Status::Done,
    text: b"event 1 ok
invoke 7.1
packet 1 c7 s1 read 1 1
event 2 ok
packet 2 s1 r0 normalread 7 1 1
event 3 ok
packet 3 s1 r0 normalread 7 1 1
event 4 ok
packet 4 s1 r0 normalread 7 1 1
event 5 ok
packet 5 s1 r0 normalread 7 1 1
event 6 spent
order 0
end
",
};

/// A switch that handles one packet.
const SWITCH_LIFE_OF_ONE: Row = Row {
    schedule: b"group chain 1
life 1
read 7 1 1
read 8 1 1
next
next
",
    status: Status::Done,
    text: b"event 1 ok
invoke 7.1
packet 1 c7 s1 read 1 1
event 2 ok
invoke 8.1
packet 2 c8 s1 read 1 1
event 3 ok
packet 3 s1 r0 normalread 7 1 1
event 4 spent
order 0
end
",
};

/// A write that finds the dirty table full, and is taken when it's sent again.
const CHAIN_TABLE_FULL: Row = Row {
    schedule: b"group chain 1
table 1 0
write 7 5 61 1
write 8 6 62 1
deliver 1
deliver 2
deliver 3
deliver 4
resend 8 1
deliver 6
",
    status: Status::Done,
    text: b"event 1 ok
invoke 7.1
packet 1 c7 s1 write 1 5 61
event 2 ok
invoke 8.1
packet 2 c8 s1 write 1 6 62
event 3 ok
packet 3 s1 r0 put 1.1 7 1 5 61
event 4 full
event 5 ok
commit 7.1 1.1
packet 4 r0 s1 done 1.1 7 1
event 6 ok
packet 5 s1 c7 reply 1 1.1 wrote
event 7 ok
packet 6 c8 s1 write 1 6 62
event 8 ok
packet 7 s1 r0 put 1.2 8 1 6 62
order 1
place 7.1
end
",
};

/// A slot that a completed write leaves to another object.
const CHAIN_TABLE_FREED: Row = Row {
    schedule: b"group chain 1
table 1 0
write 7 5 61 1
write 8 6 62 1
next
next
next
next
write 9 6 62 1
next
next
",
    status: Status::Done,
    text: b"event 1 ok
invoke 7.1
packet 1 c7 s1 write 1 5 61
event 2 ok
invoke 8.1
packet 2 c8 s1 write 1 6 62
event 3 ok
packet 3 s1 r0 put 1.1 7 1 5 61
event 4 full
event 5 ok
commit 7.1 1.1
packet 4 r0 s1 done 1.1 7 1
event 6 ok
packet 5 s1 c7 reply 1 1.1 wrote
event 7 ok
invoke 9.1
packet 6 c9 s1 write 1 6 62
event 8 ok
reply 7.1 1.1 wrote
event 9 ok
packet 7 s1 r0 put 1.2 9 1 6 62
order 1
place 7.1
end
",
};

/// A write that finds the log full.
const CHAIN_LOG_FULL: Row = Row {
    schedule: b"group chain 1
log 1
write 7 5 61 1
write 8 6 62 1
deliver 1
deliver 2
deliver 3
deliver 4
",
    status: Status::Done,
    text: b"event 1 ok
invoke 7.1
packet 1 c7 s1 write 1 5 61
event 2 ok
invoke 8.1
packet 2 c8 s1 write 1 6 62
event 3 ok
packet 3 s1 r0 put 1.1 7 1 5 61
event 4 ok
packet 4 s1 r0 put 1.2 8 1 6 62
event 5 ok
commit 7.1 1.1
packet 5 r0 s1 done 1.1 7 1
event 6 logfull
order 1
place 7.1
end
",
};

/// A stamped read behind a write that it may not show.
const CHAIN_STAMPED_READ_BEHIND_A_WRITE: Row = Row {
    schedule: b"group chain 3
write 7 5 61 1
next
next
next
next
next
next
next
next
read 8 5 1
read 9 5 1
next
next
write 7 5 62 1
deliver 13
deliver 14
deliver 15
deliver 12
deliver 18
",
    status: Status::Done,
    text: b"event 1 ok
invoke 7.1
packet 1 c7 s1 write 1 5 61
event 2 ok
packet 2 s1 r0 put 1.1 7 1 5 61
event 3 ok
packet 3 r0 r1 feed 0 0 0 0 1 1.1 7 1 5 61
event 4 ok
packet 4 r1 r0 feedack 0 1
packet 5 r1 r2 feed 0 0 0 0 1 1.1 7 1 5 61
event 5 ok
event 6 ok
commit 7.1 1.1
packet 6 r2 r1 feedack 0 1
packet 7 r2 s1 done 1.1 7 1
event 7 ok
event 8 ok
packet 8 s1 c7 reply 1 1.1 wrote
event 9 ok
reply 7.1 1.1 wrote
event 10 ok
invoke 8.1
packet 9 c8 s1 read 1 5
event 11 ok
invoke 9.1
packet 10 c9 s1 read 1 5
event 12 ok
packet 11 s1 r0 fastread 1.1 8 1 5
event 13 ok
packet 12 s1 r1 fastread 1.1 9 1 5
event 14 ok
invoke 7.2
packet 13 c7 s1 write 2 5 62
event 15 ok
packet 14 s1 r0 put 1.2 7 2 5 62
event 16 ok
packet 15 r0 r1 feed 0 0 1 0 1 1.2 7 2 5 62
event 17 ok
packet 16 r1 r0 feedack 0 2
packet 17 r1 r2 feed 0 0 1 0 1 1.2 7 2 5 62
event 18 ok
packet 18 r1 r2 normalread 9 1 5
event 19 ok
packet 19 r2 c9 reply 1 1.1 61
order 1
place 7.1
end
",
};

/// A tail that stops and is removed.
const CHAIN_REMOVE_TAIL: Row = Row {
    schedule: b"group chain 3
write 7 5 61 1
next
next
next
stop 2
remove 2
deliver 7
deliver 9
",
    status: Status::Done,
    text: b"event 1 ok
invoke 7.1
packet 1 c7 s1 write 1 5 61
event 2 ok
packet 2 s1 r0 put 1.1 7 1 5 61
event 3 ok
packet 3 r0 r1 feed 0 0 0 0 1 1.1 7 1 5 61
event 4 ok
packet 4 r1 r0 feedack 0 1
packet 5 r1 r2 feed 0 0 0 0 1 1.1 7 1 5 61
event 5 ok
event 6 ok
packet 6 cfg r0 config 1 2 0 1
packet 7 cfg r1 config 1 2 0 1
packet 8 cfg s1 route 1 0 1 2 0 1
event 7 ok
commit 7.1 1.1
packet 9 r1 s1 done 1.1 7 1
event 8 ok
packet 10 s1 c7 reply 1 1.1 wrote
order 1
place 7.1
end
",
};

/// A page that comes from an old epoch.
const CHAIN_PAGE_OF_AN_OLD_EPOCH: Row = Row {
    schedule: b"group chain 3
write 7 5 61 1
next
next
stop 0
remove 0
deliver 4
deliver 3
",
    status: Status::Done,
    text: b"event 1 ok
invoke 7.1
packet 1 c7 s1 write 1 5 61
event 2 ok
packet 2 s1 r0 put 1.1 7 1 5 61
event 3 ok
packet 3 r0 r1 feed 0 0 0 0 1 1.1 7 1 5 61
event 4 ok
event 5 ok
packet 4 cfg r1 config 1 2 1 2
packet 5 cfg r2 config 1 2 1 2
packet 6 cfg s1 route 1 1 2 2 1 2
event 6 ok
event 7 ignored Epoch
order 0
end
",
};

/// A request that is sent again, a packet that is lost and one that comes again, and a replica that ticks and stops.
const CHAIN_LOST_AND_REPEATED: Row = Row {
    schedule: b"group chain 1
write 7 5 61 1
resend 7 1
deliver 1
deliver 2
deliver 3
drop
tick 0
deliver 3
read 8 5 1
stop 0
deliver 3
deliver 7
tick 0
",
    status: Status::Done,
    text: b"event 1 ok
invoke 7.1
packet 1 c7 s1 write 1 5 61
event 2 ok
packet 2 c7 s1 write 1 5 61
event 3 ok
packet 3 s1 r0 put 1.1 7 1 5 61
event 4 ok
packet 4 s1 r0 put 1.2 7 1 5 61
event 5 ok
commit 7.1 1.1
packet 5 r0 s1 done 1.1 7 1
event 6 ok
event 7 ok
packet 6 r0 s1 done 1.1 7 1
event 8 ignored Order
event 9 ok
invoke 8.1
packet 7 c8 s1 read 1 5
event 10 ok
event 11 ignored Gone
event 12 ok
packet 8 s1 r0 normalread 8 1 5
event 13 barred Stopped
order 1
place 7.1
end
",
};

/// Most of the reasons for which an event isn't allowed.
const BARS: Row = Row {
    schedule: b"group chain 1
remove 0
stop 0
remove 0
timeout 0
tick 0
deliver 1
stop 6
resend 7 1
read 7 1 2
write 7 1 61 1
write 7 1 61 1
",
    status: Status::Done,
    text: b"event 1 barred Live
event 2 ok
event 3 barred Last
event 4 barred NotVr
event 5 barred Stopped
event 6 barred NoPacket
event 7 barred Member
event 8 barred Idle
event 9 barred NoSwitch
event 10 ok
invoke 7.1
packet 1 c7 s1 write 1 1 61
event 11 barred Busy
order 0
end
",
};

/// A group alone.
const NO_EVENT: Row = Row {
    schedule: b"group chain 1\n",
    status: Status::Done,
    text: b"order 0\nend\n",
};

/// All of them.
pub const ROWS: [Row; 16] = [
    WRITE_THEN_READ,
    READ_BEFORE_A_COMPLETION,
    CHAIN_PUT_REPEATED,
    CHAIN_WRITE_UNDER_TWO_NUMBERS,
    CHAIN_OBJECT_STILL_DIRTY,
    SWITCH_LIFE,
    SWITCH_LIFE_OF_ONE,
    CHAIN_TABLE_FULL,
    CHAIN_TABLE_FREED,
    CHAIN_LOG_FULL,
    CHAIN_STAMPED_READ_BEHIND_A_WRITE,
    CHAIN_REMOVE_TAIL,
    CHAIN_PAGE_OF_AN_OLD_EPOCH,
    CHAIN_LOST_AND_REPEATED,
    BARS,
    NO_EVENT,
];
