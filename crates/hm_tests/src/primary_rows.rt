//! Schedules of primary-backup groups, and the whole texts of their runs.

use crate::rows::Row;
use hm_replay::status::Status;

/// A new primary takes a write that the old one had alone.
const PRIMARY_RESEND_TO_THE_NEW_PRIMARY: Row = Row {
    schedule: b"group primary 3
write 7 5 61 1
next
next
deliver 4
stop 0
remove 0
deliver 6
deliver 7
deliver 9
deliver 8
resend 7 1
deliver 11
deliver 12
deliver 13
deliver 14
",
    status: Status::Done,
    text: b"event 1 ok
invoke 7.1
packet 1 c7 s1 write 1 5 61
event 2 ok
packet 2 s1 r0 put 1.1 7 1 5 61
event 3 ok
packet 3 r0 r1 feed 0 0 0 0 1 1.1 7 1 5 61
packet 4 r0 r2 feed 0 0 0 0 1 1.1 7 1 5 61
event 4 ok
packet 5 r2 r0 feedack 0 1
event 5 ok
event 6 ok
packet 6 cfg r1 config 1 2 1 2
packet 7 cfg r2 config 1 2 1 2
packet 8 cfg s1 route 1 1 1 2 1 2
event 7 ok
packet 9 r1 r2 feed 1 0 0 0 0
event 8 ok
event 9 ok
packet 10 r2 r1 feedack 1 0
event 10 ok
event 11 ok
packet 11 c7 s1 write 1 5 61
event 12 ok
packet 12 s1 r1 put 1.2 7 1 5 61
event 13 ok
packet 13 r1 r2 feed 1 0 0 0 1 1.2 7 1 5 61
event 14 ok
packet 14 r2 r1 feedack 1 1
event 15 ok
commit 7.1 1.2
packet 15 r1 s1 done 1.2 7 1
order 1
place 7.1
end
",
};

/// A new primary answers no read before it is settled.
const PRIMARY_UNSETTLED: Row = Row {
    schedule: b"group primary 3
write 7 5 61 1
next
next
next
next
next
next
stop 0
remove 0
deliver 8
deliver 10
read 8 5 1
deliver 12
deliver 13
deliver 9
deliver 11
deliver 14
deliver 13
",
    status: Status::Done,
    text: b"event 1 ok
invoke 7.1
packet 1 c7 s1 write 1 5 61
event 2 ok
packet 2 s1 r0 put 1.1 7 1 5 61
event 3 ok
packet 3 r0 r1 feed 0 0 0 0 1 1.1 7 1 5 61
packet 4 r0 r2 feed 0 0 0 0 1 1.1 7 1 5 61
event 4 ok
packet 5 r1 r0 feedack 0 1
event 5 ok
packet 6 r2 r0 feedack 0 1
event 6 ok
event 7 ok
commit 7.1 1.1
packet 7 r0 s1 done 1.1 7 1
event 8 ok
event 9 ok
packet 8 cfg r1 config 1 2 1 2
packet 9 cfg r2 config 1 2 1 2
packet 10 cfg s1 route 1 1 1 2 1 2
event 10 ok
packet 11 r1 r2 feed 1 1 0 0 1 1.1 7 1 5 61
event 11 ok
event 12 ok
invoke 8.1
packet 12 c8 s1 read 1 5
event 13 ok
packet 13 s1 r1 normalread 8 1 5
event 14 ignored Unsettled
event 15 ok
event 16 ok
packet 14 r2 r1 feedack 1 1
event 17 ok
packet 15 r1 s1 done 1.1 7 1
event 18 ok
packet 16 r1 c8 reply 1 1.1 61
order 1
place 7.1
end
",
};

/// All of them.
pub const PRIMARY_ROWS: [Row; 2] = [PRIMARY_RESEND_TO_THE_NEW_PRIMARY, PRIMARY_UNSETTLED];
