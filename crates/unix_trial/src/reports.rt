use dpe_io::{Sink, WriteSink};
use dpe_unix::{Cause, Manual, tell};
use std::io::Write;

pub(crate) const MANUAL: Manual = Manual {
    name: "dpe_trial",
    usage: "usage: dpe_trial SEED\nexample: dpe_trial seed\n",
    causes: &[
        Cause {
            status: 2,
            sentence: "the words are faulty: give them in this form",
        },
        Cause {
            status: 7,
            sentence: "standard output took no bytes: see that it's open",
        },
        Cause {
            status: 7,
            sentence: "a second sentence of a status is never told",
        },
    ],
};

/// What is told of faulty words, of a status with a sentence, and of one that has none.
pub(crate) fn try_reports<W: Write + Drop>(output: W) {
    let mut output = WriteSink::new(output);
    for status in [2, 7, 255] {
        let _ = tell(&mut output, &MANUAL, status);
    }
    let _ = output.flush();
}
