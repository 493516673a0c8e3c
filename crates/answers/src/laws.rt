//! What is no answer. Each law is the contract of a function that does nothing.

ghost use Rattle.answers.specs.NoAnswers.{LearntIsFollowed, ListingSaysPrograms, LogSaysWhether, NoSaysWhether, NoneSaysWhether, PlannedIsAccepted, RecordsAreHeard};

/// The status of `no` says whether the certificate is accepted: 0 isn't the answer to one that is refused, nor 1 to one that is
/// accepted; and an empty text is the answer to neither. (own)
pub fn no_says_whether_it_is_accepted()
    ensures { NoSaysWhether }
{}

/// Nothing written is no answer to `list` of a task that has a program, nor is any status but 0. (own)
pub fn a_listing_says_programs()
    ensures { ListingSaysPrograms }
{}

/// The status of `none` says something: 0 isn't the answer to a task that no certificate fits, nor 1 to one whose flat certificate is
/// accepted. (own)
pub fn none_says_something()
    ensures { NoneSaysWhether }
{}

/// The status of `sarif` says something: 0 isn't the answer to a text that is no task's, nor 1 to a task whose flat certificate is
/// accepted. (own)
pub fn a_log_says_something()
    ensures { LogSaysWhether }
{}

/// Nothing written is no answer to `calls`, nor is one of two calls with 0; nothing written is none to `follow` with 0; and 0 is none to calls that no run of the
/// task shows. (own)
pub fn records_are_heard()
    ensures { RecordsAreHeard }
{}

/// 0 is no answer to `learn` of calls that no run of any task shows, and nothing is one of a file that isn't there. (own)
pub fn what_is_learnt_is_followed()
    ensures { LearntIsFollowed }
{}

/// 0 is no answer to `plan` where the text of a task that no certificate fits is written, or nothing, nor where the process of the line makes a call
/// behind it that the mode refuses; no plan says that a certificate of the marked task is accepted where none is, or where the program isn't marked; and
/// nothing is an answer of a file that isn't there. (own)
pub fn what_is_planned_is_accepted()
    ensures { PlannedIsAccepted }
{}
