//! What rigctld may do, and what must come of it.

use super::script::Case;
use super::script::Step::{AfterTry, CommandFailed, Release, Ticks, Turn, WriteFault};
use keying::{End, Try, Words};

/// The tail of a small buffer, and none.
const SHORT: Words = Words {
    tail: 7,
    data: false,
};

const NONE: Words = Words {
    tail: 0,
    data: false,
};

const DATA: Words = Words {
    tail: 70,
    data: true,
};

pub(super) const CASES: &[Case] = &[
    Case {
        name: "a transmission has its key and its tail",
        words: SHORT,
        ready: true,
        rows: &[
            (Ticks(1, true), b"T 1\n"),
            (Ticks(20, true), b""),
            (Turn(55, b"RPRT 0\n", None), b""),
            (Ticks(7, false), b""),
            (Ticks(1, true), b""),
            (Ticks(7, false), b""),
            (Ticks(1, false), b"T 0\n"),
            (Ticks(9, false), b""),
            (Turn(400, b"", None), b""),
            (Ticks(1, true), b""),
            (Turn(410, b"RPRT 0\n", None), b""),
            (Ticks(1, true), b"T 1\n"),
        ],
    },
    Case {
        name: "no tail, and answers after both commands",
        words: NONE,
        ready: true,
        rows: &[
            (Ticks(1, true), b"T 1\n"),
            (Ticks(1, false), b"T 0\n"),
            (Ticks(1, true), b""),
            (Turn(60, b"RPRT 0\n", None), b""),
            (Ticks(1, true), b""),
            (Turn(70, b"RPRT 0\n", None), b""),
            (Ticks(1, true), b"T 1\n"),
        ],
    },
    Case {
        name: "the data socket",
        words: DATA,
        ready: true,
        rows: &[
            (Ticks(1, true), b"T 3\n"),
            (Ticks(70, false), b""),
            (Ticks(1, false), b"T 0\n"),
        ],
    },
    Case {
        name: "rigctld is started late",
        words: SHORT,
        ready: false,
        rows: &[
            (Turn(0, b"", None), b"connect\n"),
            (AfterTry(Try::Refused), b"ptt lost connect\n"),
            (Ticks(1, true), b""),
            (Turn(999, b"", None), b""),
            (Turn(1000, b"", None), b"connect\n"),
            (AfterTry(Try::Refused), b""),
            (Turn(2000, b"", None), b"connect\n"),
            (AfterTry(Try::NotYet), b""),
            (Turn(2010, b"", None), b"open\n"),
            (AfterTry(Try::Written), b""),
            (Turn(2020, b"RPR", None), b""),
            (Turn(2030, b"T 0", None), b""),
            (Ticks(1, true), b""),
            (Turn(2040, b"\n", None), b"ptt ready\n"),
            (Ticks(1, true), b"T 1\n"),
        ],
    },
    Case {
        name: "a refused connection is found when its release is written",
        words: SHORT,
        ready: false,
        rows: &[
            (Turn(0, b"", None), b"connect\n"),
            (AfterTry(Try::NotYet), b""),
            (Turn(10, b"", None), b"open\n"),
            (AfterTry(Try::Refused), b"ptt lost connect\n"),
            (Turn(20, b"", None), b""),
        ],
    },
    Case {
        name: "rigctld is killed while the key is on, and started again",
        words: SHORT,
        ready: true,
        rows: &[
            (Ticks(1, true), b"T 1\n"),
            (
                Turn(60, b"RPRT 0\n", Some(End::Closed)),
                b"drop\nptt lost ended\nconnect\n",
            ),
            (AfterTry(Try::Refused), b"ptt lost connect\n"),
            (Ticks(1, true), b""),
            (Turn(1059, b"", None), b""),
            (Turn(1060, b"", None), b"connect\n"),
            (AfterTry(Try::Written), b""),
            (Turn(1070, b"RPRT 0\n", None), b"ptt ready\n"),
        ],
    },
    Case {
        name: "rigctld is stopped",
        words: NONE,
        ready: true,
        rows: &[
            (Ticks(1, true), b"T 1\n"),
            (Turn(60, b"RPRT 0\n", None), b""),
            (Ticks(1, false), b"T 0\n"),
            (Turn(2059, b"", None), b""),
            (Turn(2060, b"", None), b"drop\nptt lost silent\nconnect\n"),
            (AfterTry(Try::Written), b""),
            (Turn(4059, b"", None), b""),
            (Turn(4060, b"", None), b"drop\nconnect\n"),
            (AfterTry(Try::NotYet), b""),
            (Turn(6059, b"", None), b"open\n"),
            (Turn(6060, b"", None), b"drop\nconnect\n"),
        ],
    },
    Case {
        name: "the radio cannot be keyed by rigctld",
        words: SHORT,
        ready: false,
        rows: &[
            (Turn(0, b"", None), b"connect\n"),
            (AfterTry(Try::Written), b""),
            (Turn(10, b"RPRT -1\n", None), b"drop\nptt lost refused 1\n"),
            (Ticks(1, true), b""),
            (Turn(1000, b"", None), b"connect\n"),
            (AfterTry(Try::Written), b""),
            (Turn(1010, b"RPRT -1\n", None), b"drop\n"),
            (Turn(2000, b"", None), b"connect\n"),
            (AfterTry(Try::Written), b""),
            (
                Turn(2010, b"RPRT -19\n", None),
                b"drop\nptt lost refused 19\n",
            ),
        ],
    },
    Case {
        name: "a keying command is refused",
        words: SHORT,
        ready: true,
        rows: &[
            (Ticks(1, true), b"T 1\n"),
            (
                Turn(60, b"RPRT -9\n", None),
                b"drop\nptt lost refused 9\nconnect\n",
            ),
            (Ticks(1, true), b""),
        ],
    },
    Case {
        name: "an answer comes twice, and others are none",
        words: SHORT,
        ready: false,
        rows: &[
            (Turn(0, b"", None), b"connect\n"),
            (AfterTry(Try::Written), b""),
            (
                Turn(10, b"RPRT 0\nRPRT 0\n", None),
                b"ptt ready\ndrop\nptt lost answer\nconnect\n",
            ),
            (AfterTry(Try::Written), b""),
            (Turn(20, b"RPRT 0\r\n", None), b"drop\n"),
            (Turn(1010, b"", None), b"connect\n"),
            (AfterTry(Try::Written), b""),
            (Turn(1020, b"RPRT -\n", None), b"drop\n"),
            (Turn(2010, b"", None), b"connect\n"),
            (AfterTry(Try::NotYet), b""),
            (Turn(2020, b"R", None), b"drop\n"),
        ],
    },
    Case {
        name: "no line feed comes",
        words: SHORT,
        ready: false,
        rows: &[
            (Turn(0, b"", None), b"connect\n"),
            (AfterTry(Try::Written), b""),
            (
                Turn(
                    10,
                    b"0123456789012345678901234567890123456789012345678901234567890RP",
                    None,
                ),
                b"",
            ),
            (Turn(20, b"R", None), b"drop\nptt lost answer\n"),
        ],
    },
    Case {
        name: "each connection ends at once",
        words: SHORT,
        ready: false,
        rows: &[
            (Turn(0, b"", None), b"connect\n"),
            (AfterTry(Try::Written), b""),
            (Turn(10, b"", Some(End::Closed)), b"drop\nptt lost ended\n"),
            (Turn(1000, b"", None), b"connect\n"),
            (AfterTry(Try::Written), b""),
            (Turn(1010, b"", Some(End::Closed)), b"drop\n"),
            (Turn(2000, b"", None), b"connect\n"),
            (AfterTry(Try::Written), b""),
            (
                Turn(2010, b"", Some(End::Fault)),
                b"drop\nptt lost failed\n",
            ),
        ],
    },
    Case {
        name: "the sound stops coming while the key is on",
        words: NONE,
        ready: true,
        rows: &[
            (Ticks(1, true), b"T 1\n"),
            (Turn(60, b"RPRT 0\n", None), b""),
            (Turn(2049, b"", None), b""),
            (Turn(2050, b"", None), b"stop\n"),
            (Turn(2060, b"RPRT 0\n", None), b""),
            (Ticks(1, true), b""),
            (Ticks(1, false), b""),
            (Ticks(1, true), b"T 1\n"),
        ],
    },
    Case {
        name: "a station that sends without end",
        words: NONE,
        ready: true,
        rows: &[
            (Ticks(1, true), b"T 1\n"),
            (Turn(60, b"RPRT 0\n", None), b""),
            (Ticks(8999, true), b""),
            (Ticks(1, true), b"T 0\nptt off limit\n"),
            (Turn(70, b"RPRT 0\n", None), b""),
            (Ticks(1, true), b""),
            (Ticks(1, false), b""),
            (Ticks(1, true), b"T 1\n"),
        ],
    },
    Case {
        name: "the output is closed",
        words: SHORT,
        ready: true,
        rows: &[
            (Ticks(1, true), b"T 1\n"),
            (WriteFault, b"T 0\n"),
            (Turn(60, b"RPRT 0\nRPRT 0\n", None), b""),
            (Ticks(20, false), b""),
            (Ticks(1, true), b""),
        ],
    },
    Case {
        name: "the run ends while the key is on",
        words: SHORT,
        ready: true,
        rows: &[
            (Ticks(1, true), b"T 1\n"),
            (Release(60, b""), b"T 0\n"),
            (Release(61, b"RPRT 0\n"), b"wait\n"),
            (Release(1059, b""), b"wait\n"),
            (Release(1060, b""), b"over\n"),
        ],
    },
    Case {
        name: "the run ends without a line while a release is owed",
        words: SHORT,
        ready: true,
        rows: &[
            (Ticks(1, true), b"T 1\n"),
            (CommandFailed, b"ptt lost failed\n"),
            (Release(60, b""), b"connect\n"),
            (AfterTry(Try::NotYet), b""),
            (Release(61, b""), b"open\n"),
            (AfterTry(Try::Written), b""),
            (Release(62, b""), b"wait\n"),
            (Release(63, b"RPRT 0\n"), b"over\n"),
        ],
    },
];
