use hm_base::entries::PageRoom;
use hm_codec::buf::{Buf, MAX_LEN};
use hm_codec::decode::decode;
use hm_codec::encode::encode;
use hm_packet::packet::Packet;
use hm_wire::malformed::{Malformed, Reason};
use std::process::Abort;
use std::test::Fail;

/// A packet's bytes, and where and why they are at fault with one byte set to 255: the byte, the fault's place, and the
/// reason. With any other byte set to 255 they are another packet's.
#[derive(Drop)]
struct Case {
    bytes: &'static [u8],
    faults: &'static [(usize, u32, Reason)],
}

/// `c7 s1 read 1 5`
const READ: Case = Case {
    bytes: &[
        1, 1, 1, 0, 0, 0, 7, 2, 0, 0, 0, 1, 0, 0, 0, 0, 0, 0, 0, 1, 0, 0, 0, 5,
    ],
    faults: &[
        (0, 0, Reason::Version),
        (1, 1, Reason::Kind),
        (2, 2, Reason::Node),
        (7, 7, Reason::Node),
    ],
};

/// `c7 s1 write 1 5 61`
const WRITE: Case = Case {
    bytes: &[
        1, 2, 1, 0, 0, 0, 7, 2, 0, 0, 0, 1, 0, 0, 0, 0, 0, 0, 0, 1, 0, 0, 0, 5, 1, 97,
    ],
    faults: &[
        (0, 0, Reason::Version),
        (1, 1, Reason::Kind),
        (2, 2, Reason::Node),
        (7, 7, Reason::Node),
        (24, 24, Reason::Length),
    ],
};

/// `s1 r0 put 1.1 7 1 5 61`
const PUT: Case = Case {
    bytes: &[
        1, 3, 2, 0, 0, 0, 1, 3, 0, 0, 0, 0, 0, 0, 0, 1, 0, 0, 0, 0, 0, 0, 0, 1, 0, 0, 0, 7, 0, 0,
        0, 0, 0, 0, 0, 1, 0, 0, 0, 5, 1, 97,
    ],
    faults: &[
        (0, 0, Reason::Version),
        (1, 1, Reason::Kind),
        (2, 2, Reason::Node),
        (7, 7, Reason::Node),
        (8, 8, Reason::Range),
        (9, 8, Reason::Range),
        (10, 8, Reason::Range),
        (11, 8, Reason::Range),
        (40, 40, Reason::Length),
    ],
};

/// `s1 r1 fastread 1.1 9 1 5`
const FASTREAD: Case = Case {
    bytes: &[
        1, 4, 2, 0, 0, 0, 1, 3, 0, 0, 0, 1, 0, 0, 0, 1, 0, 0, 0, 0, 0, 0, 0, 1, 0, 0, 0, 9, 0, 0,
        0, 0, 0, 0, 0, 1, 0, 0, 0, 5,
    ],
    faults: &[
        (0, 0, Reason::Version),
        (1, 1, Reason::Kind),
        (2, 2, Reason::Node),
        (7, 7, Reason::Node),
        (8, 8, Reason::Range),
        (9, 8, Reason::Range),
        (10, 8, Reason::Range),
        (11, 8, Reason::Range),
    ],
};

/// `r1 r2 normalread 9 1 5`
const NORMALREAD: Case = Case {
    bytes: &[
        1, 5, 3, 0, 0, 0, 1, 3, 0, 0, 0, 2, 0, 0, 0, 9, 0, 0, 0, 0, 0, 0, 0, 1, 0, 0, 0, 5,
    ],
    faults: &[
        (0, 0, Reason::Version),
        (1, 1, Reason::Kind),
        (2, 2, Reason::Node),
        (3, 3, Reason::Range),
        (4, 3, Reason::Range),
        (5, 3, Reason::Range),
        (6, 3, Reason::Range),
        (7, 7, Reason::Node),
        (8, 8, Reason::Range),
        (9, 8, Reason::Range),
        (10, 8, Reason::Range),
        (11, 8, Reason::Range),
    ],
};

/// `r0 s1 done 1.1 7 1`
const DONE: Case = Case {
    bytes: &[
        1, 6, 3, 0, 0, 0, 0, 2, 0, 0, 0, 1, 0, 0, 0, 1, 0, 0, 0, 0, 0, 0, 0, 1, 0, 0, 0, 7, 0, 0,
        0, 0, 0, 0, 0, 1,
    ],
    faults: &[
        (0, 0, Reason::Version),
        (1, 1, Reason::Kind),
        (2, 2, Reason::Node),
        (3, 3, Reason::Range),
        (4, 3, Reason::Range),
        (5, 3, Reason::Range),
        (6, 3, Reason::Range),
        (7, 7, Reason::Node),
    ],
};

/// `r0 c8 reply 1 1.1 61`
const REPLY: Case = Case {
    bytes: &[
        1, 7, 3, 0, 0, 0, 0, 1, 0, 0, 0, 8, 0, 0, 0, 0, 0, 0, 0, 1, 0, 0, 0, 1, 0, 0, 0, 0, 0, 0,
        0, 1, 2, 1, 97,
    ],
    faults: &[
        (0, 0, Reason::Version),
        (1, 1, Reason::Kind),
        (2, 2, Reason::Node),
        (3, 3, Reason::Range),
        (4, 3, Reason::Range),
        (5, 3, Reason::Range),
        (6, 3, Reason::Range),
        (7, 7, Reason::Node),
        (32, 32, Reason::Range),
        (33, 33, Reason::Length),
    ],
};

/// `r0 r1 feed 0 0 1 0 2 1.2 7 2 5 62 1.2 8 1 6 look`
const FEED: Case = Case {
    bytes: &[
        1, 8, 3, 0, 0, 0, 0, 3, 0, 0, 0, 1, 0, 0, 0, 0, 0, 0, 0, 0, 0, 0, 0, 1, 0, 0, 0, 0, 2, 0,
        0, 0, 1, 0, 0, 0, 0, 0, 0, 0, 2, 0, 0, 0, 7, 0, 0, 0, 0, 0, 0, 0, 2, 0, 0, 0, 5, 0, 1, 98,
        0, 0, 0, 1, 0, 0, 0, 0, 0, 0, 0, 2, 0, 0, 0, 8, 0, 0, 0, 0, 0, 0, 0, 1, 0, 0, 0, 6, 1,
    ],
    faults: &[
        (0, 0, Reason::Version),
        (1, 1, Reason::Kind),
        (2, 2, Reason::Node),
        (3, 3, Reason::Range),
        (4, 3, Reason::Range),
        (5, 3, Reason::Range),
        (6, 3, Reason::Range),
        (7, 7, Reason::Node),
        (8, 8, Reason::Range),
        (9, 8, Reason::Range),
        (10, 8, Reason::Range),
        (11, 8, Reason::Range),
        (28, 28, Reason::Length),
        (57, 57, Reason::Range),
        (58, 58, Reason::Length),
        (88, 88, Reason::Range),
    ],
};

/// `r1 r0 feedack 3 4`
const FEEDACK: Case = Case {
    bytes: &[1, 9, 3, 0, 0, 0, 1, 3, 0, 0, 0, 0, 0, 0, 0, 3, 0, 0, 0, 4],
    faults: &[
        (0, 0, Reason::Version),
        (1, 1, Reason::Kind),
        (2, 2, Reason::Node),
        (3, 3, Reason::Range),
        (4, 3, Reason::Range),
        (5, 3, Reason::Range),
        (6, 3, Reason::Range),
        (7, 7, Reason::Node),
        (8, 8, Reason::Range),
        (9, 8, Reason::Range),
        (10, 8, Reason::Range),
        (11, 8, Reason::Range),
    ],
};

/// `r0 r2 ask 3 7 1`
const ASK: Case = Case {
    bytes: &[
        1, 10, 3, 0, 0, 0, 0, 3, 0, 0, 0, 2, 0, 0, 0, 3, 0, 0, 0, 7, 0, 0, 0, 0, 0, 0, 0, 1,
    ],
    faults: &[
        (0, 0, Reason::Version),
        (1, 1, Reason::Kind),
        (2, 2, Reason::Node),
        (3, 3, Reason::Range),
        (4, 3, Reason::Range),
        (5, 3, Reason::Range),
        (6, 3, Reason::Range),
        (7, 7, Reason::Node),
        (8, 8, Reason::Range),
        (9, 8, Reason::Range),
        (10, 8, Reason::Range),
        (11, 8, Reason::Range),
    ],
};

/// `r0 r1 known 0 1`
const KNOWN: Case = Case {
    bytes: &[1, 11, 3, 0, 0, 0, 0, 3, 0, 0, 0, 1, 0, 0, 0, 0, 0, 0, 0, 1],
    faults: &[
        (0, 0, Reason::Version),
        (1, 1, Reason::Kind),
        (2, 2, Reason::Node),
        (3, 3, Reason::Range),
        (4, 3, Reason::Range),
        (5, 3, Reason::Range),
        (6, 3, Reason::Range),
        (7, 7, Reason::Node),
        (8, 8, Reason::Range),
        (9, 8, Reason::Range),
        (10, 8, Reason::Range),
        (11, 8, Reason::Range),
    ],
};

/// `r2 r0 startviewchange 1`
const STARTVIEWCHANGE: Case = Case {
    bytes: &[1, 12, 3, 0, 0, 0, 2, 3, 0, 0, 0, 0, 0, 0, 0, 1],
    faults: &[
        (0, 0, Reason::Version),
        (1, 1, Reason::Kind),
        (2, 2, Reason::Node),
        (3, 3, Reason::Range),
        (4, 3, Reason::Range),
        (5, 3, Reason::Range),
        (6, 3, Reason::Range),
        (7, 7, Reason::Node),
        (8, 8, Reason::Range),
        (9, 8, Reason::Range),
        (10, 8, Reason::Range),
        (11, 8, Reason::Range),
    ],
};

/// `r2 r1 vote 1 0 2 1`
const VOTE: Case = Case {
    bytes: &[
        1, 13, 3, 0, 0, 0, 2, 3, 0, 0, 0, 1, 0, 0, 0, 1, 0, 0, 0, 0, 0, 0, 0, 2, 0, 0, 0, 1,
    ],
    faults: &[
        (0, 0, Reason::Version),
        (1, 1, Reason::Kind),
        (2, 2, Reason::Node),
        (3, 3, Reason::Range),
        (4, 3, Reason::Range),
        (5, 3, Reason::Range),
        (6, 3, Reason::Range),
        (7, 7, Reason::Node),
        (8, 8, Reason::Range),
        (9, 8, Reason::Range),
        (10, 8, Reason::Range),
        (11, 8, Reason::Range),
    ],
};

/// `r1 r2 pull 1 16`
const PULL: Case = Case {
    bytes: &[1, 14, 3, 0, 0, 0, 1, 3, 0, 0, 0, 2, 0, 0, 0, 1, 0, 0, 0, 16],
    faults: &[
        (0, 0, Reason::Version),
        (1, 1, Reason::Kind),
        (2, 2, Reason::Node),
        (3, 3, Reason::Range),
        (4, 3, Reason::Range),
        (5, 3, Reason::Range),
        (6, 3, Reason::Range),
        (7, 7, Reason::Node),
        (8, 8, Reason::Range),
        (9, 8, Reason::Range),
        (10, 8, Reason::Range),
        (11, 8, Reason::Range),
    ],
};

/// `r2 r1 page 1 16 1 1.2 8 1 6 look`
const PAGE: Case = Case {
    bytes: &[
        1, 15, 3, 0, 0, 0, 2, 3, 0, 0, 0, 1, 0, 0, 0, 1, 0, 0, 0, 16, 1, 0, 0, 0, 1, 0, 0, 0, 0, 0,
        0, 0, 2, 0, 0, 0, 8, 0, 0, 0, 0, 0, 0, 0, 1, 0, 0, 0, 6, 1,
    ],
    faults: &[
        (0, 0, Reason::Version),
        (1, 1, Reason::Kind),
        (2, 2, Reason::Node),
        (3, 3, Reason::Range),
        (4, 3, Reason::Range),
        (5, 3, Reason::Range),
        (6, 3, Reason::Range),
        (7, 7, Reason::Node),
        (8, 8, Reason::Range),
        (9, 8, Reason::Range),
        (10, 8, Reason::Range),
        (11, 8, Reason::Range),
        (20, 20, Reason::Length),
        (49, 49, Reason::Range),
    ],
};

/// `cfg r0 config 1 2 0 1`
const CONFIG: Case = Case {
    bytes: &[1, 16, 4, 0, 0, 0, 0, 3, 0, 0, 0, 0, 0, 0, 0, 1, 2, 0, 1],
    faults: &[
        (0, 0, Reason::Version),
        (1, 1, Reason::Kind),
        (2, 2, Reason::Node),
        (3, 3, Reason::Range),
        (4, 3, Reason::Range),
        (5, 3, Reason::Range),
        (6, 3, Reason::Range),
        (7, 7, Reason::Node),
        (8, 8, Reason::Range),
        (9, 8, Reason::Range),
        (10, 8, Reason::Range),
        (11, 8, Reason::Range),
        (16, 16, Reason::Length),
        (17, 17, Reason::Range),
        (18, 18, Reason::Range),
    ],
};

/// `cfg s1 route 1 0 6 3 0 2 6`
const ROUTE: Case = Case {
    bytes: &[
        1, 17, 4, 0, 0, 0, 0, 2, 0, 0, 0, 1, 0, 0, 0, 1, 0, 6, 3, 0, 2, 6,
    ],
    faults: &[
        (0, 0, Reason::Version),
        (1, 1, Reason::Kind),
        (2, 2, Reason::Node),
        (3, 3, Reason::Range),
        (4, 3, Reason::Range),
        (5, 3, Reason::Range),
        (6, 3, Reason::Range),
        (7, 7, Reason::Node),
        (16, 16, Reason::Range),
        (17, 17, Reason::Range),
        (18, 18, Reason::Length),
        (19, 19, Reason::Range),
        (20, 20, Reason::Range),
        (21, 21, Reason::Range),
    ],
};

/// `cfg r0 refuse 1`
const REFUSE: Case = Case {
    bytes: &[1, 18, 4, 0, 0, 0, 0, 3, 0, 0, 0, 0, 0, 0, 0, 1],
    faults: &[
        (0, 0, Reason::Version),
        (1, 1, Reason::Kind),
        (2, 2, Reason::Node),
        (3, 3, Reason::Range),
        (4, 3, Reason::Range),
        (5, 3, Reason::Range),
        (6, 3, Reason::Range),
        (7, 7, Reason::Node),
        (8, 8, Reason::Range),
        (9, 8, Reason::Range),
        (10, 8, Reason::Range),
        (11, 8, Reason::Range),
    ],
};

/// `r0 cfg refused 1`
const REFUSED: Case = Case {
    bytes: &[1, 19, 3, 0, 0, 0, 0, 4, 0, 0, 0, 0, 0, 0, 0, 1],
    faults: &[
        (0, 0, Reason::Version),
        (1, 1, Reason::Kind),
        (2, 2, Reason::Node),
        (3, 3, Reason::Range),
        (4, 3, Reason::Range),
        (5, 3, Reason::Range),
        (6, 3, Reason::Range),
        (7, 7, Reason::Node),
        (8, 8, Reason::Range),
        (9, 8, Reason::Range),
        (10, 8, Reason::Range),
        (11, 8, Reason::Range),
    ],
};

/// The bytes with one of them set to 255.
fn spoiled(bytes: &[u8], place: usize) -> Option<Buf<MAX_LEN>> {
    let mut room = [0; 128];
    if bytes.len() > 128 || place >= bytes.len() {
        return None;
    }
    let copy = &mut room[..bytes.len()];
    copy.copy_from_slice(bytes);
    copy[place] = 255;
    Buf::from_slice(copy)
}

/// Asserts that the bytes are a packet's, and are its spelling again.
fn assert_spelled(rt: &impl Abort, bytes: &[u8]) -> Result<(), Fail> {
    let mut room = PageRoom::new();
    let mut packet = Packet::blank();
    assert_eq!(rt; decode(bytes, &mut room, &mut packet), Ok(()));
    let mut buf = Buf::new();
    encode(&packet, &mut buf);
    assert_eq!(rt; buf.as_slice(), bytes);
    Ok(())
}

/// Asserts the fault of bytes.
fn assert_fault(rt: &impl Abort, bytes: &[u8], at: u32, reason: Reason) -> Result<(), Fail> {
    let mut room = PageRoom::new();
    let mut packet = Packet::blank();
    let fault = Malformed { at, reason };
    assert_eq!(rt; decode(bytes, &mut room, &mut packet), Err(fault));
    Ok(())
}

/// Asserts a packet's spelling, its fault when cut after each byte, and its faults with each byte set to 255 in turn.
fn assert_case(rt: &impl Abort, case: &Case) -> Result<(), Fail> {
    assert_spelled(rt, case.bytes)?;
    let whole = u32::try_from(case.bytes.len()).ok().ok_or("few bytes")?;
    for at in 0..whole {
        assert_fault(rt, &case.bytes[..at as usize], at, Reason::Short)?;
    }
    for place in 0..case.bytes.len() {
        let buf = spoiled(case.bytes, place).ok_or("bytes")?;
        match case.faults.iter().find(|fault| fault.0 == place) {
            Some((_, at, reason)) => assert_fault(rt, buf.as_slice(), *at, *reason)?,
            None => assert_spelled(rt, buf.as_slice())?,
        }
    }
    Ok(())
}

#[test]
fn spells_what_clients_and_switches_send(rt: HostRuntime) -> Result<(), Fail> {
    for case in [READ, WRITE, PUT, FASTREAD, NORMALREAD, DONE, REPLY] {
        assert_case(&rt, &case)?;
    }
    Ok(())
}

#[test]
fn spells_what_replicas_send(rt: HostRuntime) -> Result<(), Fail> {
    for case in [FEED, FEEDACK, ASK, KNOWN, STARTVIEWCHANGE, VOTE, PULL, PAGE] {
        assert_case(&rt, &case)?;
    }
    Ok(())
}

#[test]
fn spells_what_the_service_sends(rt: HostRuntime) -> Result<(), Fail> {
    for case in [CONFIG, ROUTE, REFUSE, REFUSED] {
        assert_case(&rt, &case)?;
    }
    Ok(())
}

#[test]
fn refuses_what_follows_a_packet(rt: HostRuntime) -> Result<(), Fail> {
    let mut bytes = [0; 27];
    bytes[..26].copy_from_slice(WRITE.bytes);
    assert_fault(&rt, &bytes, 26, Reason::Rest)
}
