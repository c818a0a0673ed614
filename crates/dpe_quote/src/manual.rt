//! What the program says where it ends with another status than 0.
use dpe_unix::{Cause, Manual};

/// The forms of the words, and for each status what went wrong and what to do.
pub const MANUAL: Manual = Manual {
    name: "dpe_quote",
    usage: "usage: dpe_quote make NONCE TAG < PATH > QUOTE\n       dpe_quote verify SEED NONCE < QUOTE\nexample: dpe_quote make 0000000000000000 \"$(printf '%0128d' 0)\" < /dev/null > quote\nversion: 0.9.0\n",
    causes: &[
        Cause {
            status: 2,
            sentence: "the words are of neither form below; nothing was read: mend them",
        },
        Cause {
            status: 3,
            sentence: "there is no memory, and nothing was read: try with more",
        },
        Cause {
            status: 4,
            sentence: "standard input couldn't be read, and nothing was written: look at the input",
        },
        Cause {
            status: 7,
            sentence: "the output couldn't be written, and a part of it may be missing: look at its disk or its reader",
        },
        Cause {
            status: 9,
            sentence: "the input isn't at most 32 inputs of 257 bytes with modes 0 to 3, and nothing was written: mend it",
        },
        Cause {
            status: 20,
            sentence: "the input is no quote; the line has the place of its first fault: give the whole quote",
        },
        Cause {
            status: 21,
            sentence: "the quote was made for another nonce: ask for one with this nonce",
        },
        Cause {
            status: 22,
            sentence: "the tag isn't the one that this seed and path give: trust no part of the quote",
        },
    ],
};
