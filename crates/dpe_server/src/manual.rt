//! What the program says where it ends with another status than 0.
use dpe_unix::{Cause, Manual};

/// The forms of the words, and for each status what went wrong and what to do.
pub const MANUAL: Manual = Manual {
    name: "dpe_server",
    usage: "usage: dpe_server SEED JOURNAL EACH ENTRIES FIRST DOOR [DOOR ..]\n       EACH is 1 to 65535, ENTRIES 1 to 65536, FIRST below 2^64, a DOOR is LOCALITY:PATH with a locality 0 to 7\nexample: dpe_server seed journal 1 8192 1 0:rom 3:kernel\nversion: 0.9.0\n",
    causes: &[
        Cause {
            status: 2,
            sentence: "the words aren't of the form below, with 1 to 16 doors and every word UTF-8; nothing was opened: mend them",
        },
        Cause {
            status: 3,
            sentence: "there is no memory, and no door was opened: give fewer ENTRIES, of about 8,260 bytes each, or more memory",
        },
        Cause {
            status: 4,
            sentence: "the seed couldn't be opened or read, and no door was opened: look at its path and its rights",
        },
        Cause {
            status: 5,
            sentence: "a door or /dev/urandom couldn't be opened, or a door failed; the journal of what was answered is written: see that no file stands at a door's path, that the path has at most 107 bytes, and remove what this run made before the next",
        },
        Cause {
            status: 6,
            sentence: "the journal couldn't be made, and nothing was answered, or it couldn't be written, and has a prefix of what was answered: see that no file stands at its path and that the disk has room, and remove this run's sockets before the next",
        },
        Cause {
            status: 7,
            sentence: "the summary couldn't be written; the journal is whole: look at the output's disk or its reader",
        },
        Cause {
            status: 8,
            sentence: "the seed's file hasn't 32 bytes, and no door was opened: make one of 32 bytes",
        },
    ],
};
