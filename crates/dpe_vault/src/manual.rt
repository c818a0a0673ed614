//! What the program says where it ends with another status than 0.
use dpe_unix::{Cause, Manual};

/// The form of the words, and for each status what went wrong and what to do.
pub const MANUAL: Manual = Manual {
    name: "dpe_vault",
    usage: "usage: dpe_vault ENTRIES < ITEMS > REPLIES\nexample: printf '\\000\\003\\000\\000\\000' | dpe_vault 1 | od -An -tx1\nversion: 0.9.0\n",
    causes: &[
        Cause {
            status: 2,
            sentence: "the words aren't of the form below; nothing was read: mend them",
        },
        Cause {
            status: 3,
            sentence: "there is no memory for so many entries, and nothing was read: try with fewer",
        },
        Cause {
            status: 4,
            sentence: "standard input couldn't be read; the replies to the items before that are written: look at the input",
        },
        Cause {
            status: 7,
            sentence: "the output couldn't be written, and a part of it may be missing: look at its disk or its reader",
        },
        Cause {
            status: 9,
            sentence: "bytes in the place of an item are none; the replies to the items before are written: mend the input",
        },
        Cause {
            status: 10,
            sentence: "the input has more than ENTRIES items; the replies to the first are written: give a greater number",
        },
    ],
};
