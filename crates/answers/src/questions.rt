//! What `capwhy` is asked, by its words.

ghost use Rattle.std.specs.Prelude.{◌≡◌, map, option_map, string_bytes};
ghost use Rattle.command_line.specs.Orders.{is_dashed};
ghost use Rattle.answers.specs.Questions.{among, are_files, followed, learnt, most_states, of_command, of_files, of_pair, of_task, planned, question_in};
ghost use Rattle.answers.specs.QuestionViews.{question_of};
ghost use Rattle.texts.specs.Numbers.{at_most, number_of};

use crate::placing_words::are_placings;
use texts::number_up_to;

/// What is asked. It borrows the names of files from the words.
#[derive(Clone, Copy)]
pub enum Question<'a> {
    /// What there is to ask: no words, or `--help`.
    Usage,
    /// `list TASK` or `list TASK CERT`: the programs of a task, with remarks.
    Listing {
        task: &'a str,
        cert: Option<&'a str>,
    },
    /// `no TASK CERT`: all rules that a certificate breaks.
    Broken {
        task: &'a str,
        cert: &'a str,
    },
    /// `none TASK`: what the search comes to.
    Unfound {
        task: &'a str,
    },
    /// `breach TASK` or `breach TASK STATES`: a run that breaks the sandbox, among so many states at most.
    Breach {
        task: &'a str,
        states: Option<u32>,
    },
    /// `propose TASK`: a certificate of a task, untrusted programs or not. `propose TASK CERT`: one of an older text, with its points
    /// where the programs have them now.
    Proposed {
        task: &'a str,
        cert: Option<&'a str>,
    },
    /// `page TASK` or `page TASK CERT`: an HTML page for review.
    Page {
        task: &'a str,
        cert: Option<&'a str>,
    },
    /// `sarif TASK` or `sarif TASK CERT`: a log for code scanning and editors.
    Log {
        task: &'a str,
        cert: Option<&'a str>,
    },
    /// `text TASK`: the faults of a task's text.
    Faulty {
        task: &'a str,
    },
    /// `calls RECORD`: the calls of a record of strace or truss.
    Calls {
        file: &'a str,
    },
    /// `follow TASK CALLS` with any number of words REAL=MODEL: whether recorded calls follow a task.
    Followed {
        task: &'a str,
        calls: &'a str,
        places: &'a [String],
    },
    /// `learn CALLS` with any number of files of recorded calls: a task that they show.
    Learnt {
        calls: &'a [String],
    },
    /// `plan LINE CALLS` with any number of files of recorded calls: their task with the mode behind a line of the first one.
    Planned {
        line: u32,
        calls: &'a [String],
    },
    /// `plan CALLS`: the lines of the first file behind which fewer names are left that the mode refuses.
    NamesLeft {
        calls: &'a [String],
    },
}

/// Whether a word begins with `-`.
fn is_dashed(word: &str) -> bool
    ensures { result ≡ is_dashed word.now }
{
    word.as_bytes().first() == Some(&b'-')
}

/// What a command asks of one file.
fn of_task<'a>(command: &str, task: &'a str) -> Option<Question<'a>>
    ensures { option_map question_of result ≡ of_task command.now task.now }
{
    if is_dashed(task) {
        return None;
    }
    match command {
        "list" => Some(Question::Listing { task, cert: None }),
        "none" => Some(Question::Unfound { task }),
        "breach" => Some(Question::Breach { task, states: None }),
        "propose" => Some(Question::Proposed { task, cert: None }),
        "page" => Some(Question::Page { task, cert: None }),
        "sarif" => Some(Question::Log { task, cert: None }),
        "text" => Some(Question::Faulty { task }),
        "calls" => Some(Question::Calls { file: task }),
        _ => None,
    }
}

/// The search for a run that breaks a task's sandbox, among as many states as a word says.
fn among<'a>(task: &'a str, states: &str) -> Option<Question<'a>>
    ensures { option_map question_of result ≡ among task.now (at_most most_states (number_of states.now)) }
{
    let states = Some(number_up_to(states.as_bytes(), u32::MAX).ok()?);
    Some(Question::Breach { task, states })
}

/// What it asks of two.
fn of_pair<'a>(command: &str, task: &'a str, cert: &'a str) -> Option<Question<'a>>
    ensures { option_map question_of result ≡ of_pair command.now task.now cert.now }
{
    if is_dashed(task) || is_dashed(cert) {
        return None;
    }
    match command {
        "list" => Some(Question::Listing {
            task,
            cert: Some(cert),
        }),
        "breach" => among(task, cert),
        "propose" => Some(Question::Proposed {
            task,
            cert: Some(cert),
        }),
        "page" => Some(Question::Page {
            task,
            cert: Some(cert),
        }),
        "sarif" => Some(Question::Log {
            task,
            cert: Some(cert),
        }),
        "no" => Some(Question::Broken { task, cert }),
        _ => None,
    }
}

/// Whether recorded calls follow a task, with so many words REAL=MODEL.
fn followed<'a>(task: &'a str, calls: &'a str, places: &'a [String]) -> Option<Question<'a>>
    ensures { option_map question_of result ≡ followed task.now calls.now (map string_bytes places.now) }
{
    if is_dashed(task) || is_dashed(calls) || !are_placings(places) {
        return None;
    }
    Some(Question::Followed {
        task,
        calls,
        places,
    })
}

/// Whether no word begins with `-`.
fn are_files(words: &[String]) -> bool
    ensures { result ≡ are_files (map string_bytes words.now) }
{
    for word in words {
        if is_dashed(word.as_str()) {
            return false;
        }
    }
    true
}

/// The task that recorded calls show.
fn learnt(calls: &[String]) -> Option<Question<'_>>
    ensures { option_map question_of result ≡ learnt (map string_bytes calls.now) }
{
    if are_files(calls) {
        Some(Question::Learnt { calls })
    } else {
        None
    }
}

/// A plan of recorded calls, with the mode behind the line of this number; without one, where it could be.
fn planned<'a>(line: Option<u32>, words: &'a [String]) -> Option<Question<'a>>
    ensures { option_map question_of result ≡ planned line (map string_bytes words.now) }
{
    match (line, words) {
        (Some(_), [_]) => None,
        (Some(line), [_, calls @ ..]) if are_files(calls) => Some(Question::Planned {
            line,
            calls,
        }),
        (None, calls) if are_files(calls) => Some(Question::NamesLeft { calls }),
        _ => None,
    }
}

/// What a command asks of a file and others behind it.
fn of_files<'a>(command: &str, task: &'a str, others: &'a [String]) -> Option<Question<'a>>
    ensures { option_map question_of result ≡ of_files command.now task.now (map string_bytes others.now) }
{
    match others {
        [] => of_task(command, task),
        [calls, places @ ..] if command == "follow" => followed(task, calls.as_str(), places),
        [cert] => of_pair(command, task, cert.as_str()),
        _ => None,
    }
}

/// What a command asks of the words behind it.
fn of_command<'a>(command: &str, words: &'a [String]) -> Option<Question<'a>>
    ensures { option_map question_of result ≡ of_command command.now (map string_bytes words.now) }
{
    match words {
        [] if command == "--help" => Some(Question::Usage),
        [] => None,
        [_, ..] if command == "learn" => learnt(words),
        [line, ..] if command == "plan" => {
            planned(number_up_to(line.as_bytes(), u32::MAX).ok(), words)
        }
        [task, others @ ..] => of_files(command, task.as_str(), others),
    }
}

/// What the words ask, if they ask anything. A name of a file may be empty, and have any bytes but a leading `-`. (own)
pub fn read_question<'a>(words: &'a [String]) -> Option<Question<'a>>
    ensures { option_map question_of result ≡ question_in (map string_bytes words.now) }
{
    match words {
        [] => Some(Question::Usage),
        [command, names @ ..] => of_command(command.as_str(), names),
    }
}
