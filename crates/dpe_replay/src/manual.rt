//! What the program says where it ends with another status than 0.
use dpe_unix::{Cause, Manual};

/// The forms of the words, and for each status what went wrong and what to do.
pub const MANUAL: Manual = Manual {
    name: "dpe_replay",
    usage: "usage: dpe_replay check SEED JOURNAL\n       dpe_replay live SEED JOURNAL\n       dpe_replay list JOURNAL\n       dpe_replay connection JOURNAL CALLER CONNECTION\n       CALLER and CONNECTION are below 2^32\nexample: dpe_replay check seed journal\nversion: 0.9.0\n",
    causes: &[
        Cause {
            status: 2,
            sentence: "the words are of none of the forms below, or a path begins with -; nothing was opened: mend them",
        },
        Cause {
            status: 3,
            sentence: "there is no memory, and nothing was judged: try with more",
        },
        Cause {
            status: 4,
            sentence: "a file couldn't be opened or read: look at the paths and their rights",
        },
        Cause {
            status: 7,
            sentence: "the output couldn't be written, and a part of it may be missing: look at its disk or its reader",
        },
        Cause {
            status: 8,
            sentence: "the seed's file hasn't 32 bytes, and the journal wasn't opened: give the right one",
        },
        Cause {
            status: 11,
            sentence: "the bytes are no journal: it was cut, changed, or not yet written, at the place that is printed",
        },
        Cause {
            status: 12,
            sentence: "an entry isn't what the DPE would have answered, as printed: the journal was changed, or the seed is another one",
        },
    ],
};
