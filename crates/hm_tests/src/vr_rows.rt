//! Schedules of groups of Viewstamped Replication, and the whole texts of their runs.

use crate::rows::Row;
use hm_replay::status::Status;

/// A replica answers a stamped read only once it has applied up to the stamp.
const LAGGING_REPLICA: Row = Row {
    schedule: b"group vr 3
write 7 5 61 1
next
next
next
next
next
next
next
next
tick 0
deliver 9
read 8 5 1
read 9 5 1
deliver 13
deliver 14
write 7 5 62 1
deliver 17
deliver 18
deliver 20
deliver 21
deliver 16
deliver 23
",
    status: Status::Done,
    text: b"event 1 ok
invoke 7.1
packet 1 c7 s1 write 1 5 61
event 2 ok
packet 2 s1 r0 put 1.1 7 1 5 61
event 3 ok
packet 3 r0 r1 feed 0 0 0 0 1 1.1 7 1 5 61
packet 4 r0 r2 feed 0 0 0 0 1 1.1 7 1 5 61
event 4 ok
packet 5 r1 r0 feedack 0 1
event 5 ok
packet 6 r2 r0 feedack 0 1
event 6 ok
commit 7.1 1.1
packet 7 r0 s1 done 1.1 7 1
event 7 ok
event 8 ok
packet 8 s1 c7 reply 1 1.1 wrote
event 9 ok
reply 7.1 1.1 wrote
event 10 ok
packet 9 r0 r1 known 0 1
packet 10 r0 r2 known 0 1
packet 11 r0 s1 route 0 0 0 3 0 1 2
packet 12 r0 s1 done 1.1 7 1
event 11 ok
event 12 ok
invoke 8.1
packet 13 c8 s1 read 1 5
event 13 ok
invoke 9.1
packet 14 c9 s1 read 1 5
event 14 ok
packet 15 s1 r0 fastread 1.1 8 1 5
event 15 ok
packet 16 s1 r1 fastread 1.1 9 1 5
event 16 ok
invoke 7.2
packet 17 c7 s1 write 2 5 62
event 17 ok
packet 18 s1 r0 put 1.2 7 2 5 62
event 18 ok
packet 19 r0 r1 feed 0 0 1 1 1 1.2 7 2 5 62
packet 20 r0 r2 feed 0 0 1 1 1 1.2 7 2 5 62
event 19 ok
packet 21 r2 r0 feedack 0 2
event 20 ok
commit 7.2 1.2
packet 22 r0 s1 done 1.2 7 2
event 21 ok
packet 23 r1 c9 reply 1 1.1 61
event 22 ok
reply 9.1 1.1 61
order 3
place 7.1
place 9.1
place 7.2
end
",
};

/// A replica hears nothing of the primary, and the next view begins.
const VIEW_CHANGE: Row = Row {
    schedule: b"group vr 3
write 7 5 61 1
next
next
next
deliver 5
stop 0
timeout 2
deliver 8
deliver 10
deliver 11
deliver 13
deliver 15
",
    status: Status::Done,
    text: b"event 1 ok
invoke 7.1
packet 1 c7 s1 write 1 5 61
event 2 ok
packet 2 s1 r0 put 1.1 7 1 5 61
event 3 ok
packet 3 r0 r1 feed 0 0 0 0 1 1.1 7 1 5 61
packet 4 r0 r2 feed 0 0 0 0 1 1.1 7 1 5 61
event 4 ok
packet 5 r1 r0 feedack 0 1
event 5 ok
commit 7.1 1.1
packet 6 r0 s1 done 1.1 7 1
event 6 ok
event 7 ok
packet 7 r2 r0 startviewchange 1
packet 8 r2 r1 startviewchange 1
event 8 ok
packet 9 r1 r0 startviewchange 1
packet 10 r1 r2 startviewchange 1
event 9 ok
packet 11 r2 r1 vote 1 0 0 0
event 10 ok
packet 12 r1 r0 feed 1 1 0 0 1 1.1 7 1 5 61
packet 13 r1 r2 feed 1 1 0 0 1 1.1 7 1 5 61
packet 14 r1 s1 route 1 1 1 3 0 1 2
event 11 ok
packet 15 r2 r1 feedack 1 1
event 12 ok
packet 16 r1 s1 done 1.1 7 1
order 1
place 7.1
end
",
};

/// No replica is removed.
const GROUP_IS_FIXED: Row = Row {
    schedule: b"group vr 3
remove 0
",
    status: Status::Done,
    text: b"event 1 barred Fixed
order 0
end
",
};

/// All of them.
pub const VR_ROWS: [Row; 3] = [LAGGING_REPLICA, VIEW_CHANGE, GROUP_IS_FIXED];
