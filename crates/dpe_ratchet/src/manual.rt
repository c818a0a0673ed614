//! What the program says where it ends with another status than 0.
use dpe_unix::{Cause, Manual};

/// The forms of the words, and for each status what went wrong and what to do.
pub const MANUAL: Manual = Manual {
    name: "dpe_ratchet",
    usage: "usage: dpe_ratchet seal CDI W V LABEL SALT < DATA > BOX\n       dpe_ratchet open CDI W LABEL LOCALITY MODE < BOX > DATA\nexample: dpe_ratchet seal \"$(printf '%064d' 0)\" 5 3 \"\" \"$(printf '%032d' 0)\" < data > box\nversion: 0.9.0\n",
    causes: &[
        Cause {
            status: 2,
            sentence: "the words are of neither form below; nothing was read: mend them",
        },
        Cause {
            status: 3,
            sentence: "there is no memory, and nothing was read: try with more",
        },
        Cause {
            status: 4,
            sentence: "standard input couldn't be read, and nothing was written: look at the input",
        },
        Cause {
            status: 7,
            sentence: "the output couldn't be written, and a part of it may be missing: look at its disk or its reader",
        },
        Cause {
            status: 30,
            sentence: "the input is no box of a version, and nothing was written: give the whole file that seal wrote",
        },
        Cause {
            status: 31,
            sentence: "the box was sealed under another CDI or label, or was changed; nothing was written: give the right ones",
        },
        Cause {
            status: 32,
            sentence: "the box doesn't admit this locality or mode, and nothing was written: ask from one that it admits",
        },
        Cause {
            status: 33,
            sentence: "the box names a later version than W, and nothing was written: open it with firmware of that version",
        },
        Cause {
            status: 34,
            sentence: "the input has more than 2,048 bytes, and nothing was written: seal less",
        },
    ],
};
