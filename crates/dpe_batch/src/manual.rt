//! What the program says where it ends with another status than 0.
use dpe_unix::{Cause, Manual};

/// The forms of the words, and for each status what went wrong and what to do.
pub const MANUAL: Manual = Manual {
    name: "dpe_batch",
    usage: "usage: dpe_batch run SEED FIRST < TAPE > REPLIES\n       dpe_batch load NUMBER COMMANDS\n       SEED is 64 hexadecimal digits, FIRST and NUMBER are below 2^64, COMMANDS is 1 to 65536\nexample: dpe_batch load 7 100\nversion: 0.9.0\n",
    causes: &[
        Cause {
            status: 2,
            sentence: "the words are of neither form below; nothing was read: mend them",
        },
        Cause {
            status: 3,
            sentence: "there is no memory, and nothing was read: try with more",
        },
        Cause {
            status: 4,
            sentence: "standard input couldn't be read; the replies of the whole items before it stand in the output: look at the input",
        },
        Cause {
            status: 7,
            sentence: "the output couldn't be written, and a part of it may be missing: look at its disk or its reader",
        },
        Cause {
            status: 9,
            sentence: "the tape has bytes that are no item; the replies of the items before them stand in the output: mend it there",
        },
        Cause {
            status: 10,
            sentence: "the tape has bytes behind its 65,536th item; the replies of the items stand in the output: cut it there",
        },
    ],
};
