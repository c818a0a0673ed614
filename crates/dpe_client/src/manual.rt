//! What the program says where it ends with another status than 0.
use dpe_unix::{Cause, Manual};

/// The forms of the words, and for each status what went wrong and what to do.
pub const MANUAL: Manual = Manual {
    name: "dpe_client",
    usage: "usage: dpe_client SCRIPT SOCKET [SOCKET ..]\nexample: dpe_client boot.script rom tee loader kernel\nversion: 0.9.0\n",
    causes: &[
        Cause {
            status: 2,
            sentence: "the words aren't of the form below, with 1 to 8 sockets and every word UTF-8; nothing was opened: mend them",
        },
        Cause {
            status: 3,
            sentence: "there is no memory, and nothing was sent: try with more, or with a shorter script",
        },
        Cause {
            status: 4,
            sentence: "the script couldn't be opened or read, and nothing was sent: look at its path and its rights",
        },
        Cause {
            status: 7,
            sentence: "the output couldn't be written, and a part of it may be missing: look at its disk or its reader",
        },
        Cause {
            status: 13,
            sentence: "the script has a bad line, as printed, and nothing was sent: mend it, or where line 0 is printed cut the script, which is over 1,048,576 bytes",
        },
        Cause {
            status: 14,
            sentence: "a socket failed, as printed (line 0: it couldn't be opened; else the line's command may have been executed): see that the server runs and has room for more commands, that the path is right, and that you may write to it",
        },
        Cause {
            status: 15,
            sentence: "the server ended the connection, or sent what is no reply to the line printed: see what its doors still serve, and whether its journal is full",
        },
    ],
};
