//! Schedules with a line that is refused, and the texts of their runs.

use crate::rows::Row;
use hm_replay::status::Status;
use hm_schedule::line::LineReason;

/// No line at all.
const NO_GROUP: Row = Row {
    schedule: b"",
    status: Status::BadLine {
        line: 1,
        reason: LineReason::Header,
    },
    text: b"bad 1 Header\n",
};

/// A setup line behind one that it stands before.
const TABLE_BEHIND_A_LOG: Row = Row {
    schedule: b"group chain 2\nlife 9\nlog 3\ntable 1 1\nread 8 5 1\n",
    status: Status::BadLine {
        line: 4,
        reason: LineReason::Header,
    },
    text: b"bad 4 Header\n",
};

/// A line outside the grammar behind an event.
const UNKNOWN_WORD: Row = Row {
    schedule: b"group chain 1\nread 8 5 1\nfoo\nnext\n",
    status: Status::BadLine {
        line: 3,
        reason: LineReason::Word,
    },
    text: b"event 1 ok\ninvoke 8.1\npacket 1 c8 s1 read 1 5\nbad 3 Word\n",
};

/// A second group, which is no whole line either.
const SECOND_GROUP: Row = Row {
    schedule: b"group chain 1\ngroup\n",
    status: Status::BadLine {
        line: 2,
        reason: LineReason::Header,
    },
    text: b"bad 2 Header\n",
};

/// An event before the group.
const EVENT_FIRST: Row = Row {
    schedule: b"next\ngroup chain 1\n",
    status: Status::BadLine {
        line: 1,
        reason: LineReason::Header,
    },
    text: b"bad 1 Header\n",
};

/// A line without its end, and a byte in it that is no character.
const NOT_ENDED: Row = Row {
    schedule: b"group chain 1\nnext\xff",
    status: Status::BadLine {
        line: 2,
        reason: LineReason::End,
    },
    text: b"bad 2 End\n",
};

/// A number that is too great for its field, behind an event.
const TOO_GREAT: Row = Row {
    schedule: b"group chain 1\nread 8 5 1\ntick 256\n",
    status: Status::BadLine {
        line: 3,
        reason: LineReason::Number,
    },
    text: b"event 1 ok\ninvoke 8.1\npacket 1 c8 s1 read 1 5\nbad 3 Number\n",
};

/// All of them.
pub const REFUSED_ROWS: [Row; 7] = [
    NO_GROUP,
    TABLE_BEHIND_A_LOG,
    UNKNOWN_WORD,
    SECOND_GROUP,
    EVENT_FIRST,
    NOT_ENDED,
    TOO_GREAT,
];
