//! The program's name, and what there is to ask.

/// The name by which the program tells its faults.
pub const NAME: &str = "capwhy";

/// What `capwhy` prints without words.
pub(crate) const USAGE: &str =
    "capwhy list TASK [CERT]      the programs of a task by point and line, with bounds and remarks
capwhy no TASK CERT          all rules that a certificate breaks, with where and why
capwhy none TASK             what the search for a certificate came to
capwhy breach TASK [STATES]  a run that breaks the sandbox, if one is found
capwhy propose TASK          a certificate that is accepted, of untrusted programs too
capwhy propose TASK CERT     the certificate of an older text, with its points where they are now
capwhy page TASK [CERT]      an HTML page to look at: the answer, who reaches what, the programs by line
capwhy sarif TASK [CERT]     the same as a log of SARIF, for code scanning and editors
capwhy text TASK             where the faults of a task's text are
capwhy calls RECORD          the calls of a record of strace -f
capwhy follow TASK CALLS [REAL=MODEL ..]
                             whether recorded calls follow a task, whose places lie at MODEL where the record has REAL
capwhy learn CALLS [CALLS ..]
                             a task of which these calls are runs, as a draft
capwhy plan LINE CALLS [CALLS ..]
                             the same with the mode behind a line of the first file, and whether check says yes
capwhy plan CALLS            behind which lines fewer names are left that the mode refuses
capwhy --help                this text, of version 1.22
";
