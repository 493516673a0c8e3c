//! The head of a page: the verdict, and what it doesn't say.

use crate::columns::{breach_of, left_column};
use crate::room::{Room, short};
use crate::runs::end_of;
use crate::views::{Outcome, Reviewed, Side, Viewed};
use explain::finding_words;
use explore::Breach;
use page::{Column, Header, Piece, Place, Verdict};
use texts::{Page, parts_of, say};

/// What a page says at its head.
#[derive(Clone, Copy)]
enum Case {
    Yes,
    /// A yes, and some program is untrusted.
    YesMarked,
    /// A yes, and no process enters the mode.
    YesEmpty,
    No,
    Broken,
    Undecided,
}

/// What is proved of a task that is accepted.
const PROVED: &str =
    "Proved: in every run, whatever the inputs, the schedule and the kernel’s refusals, no process in capability mode looks at, reads, writes, \
    creates or removes anything that no grant allows, and no call is refused for a missing right or by the mode.";

/// The same where programs are untrusted.
const PROVED_MARKED: &str =
    "Proved: whatever untrusted programs execute in capability mode, no process in the mode looks at, reads, writes, creates or removes anything \
    that no grant allows, and no call of another program is refused for a missing right or by the mode.";

/// What is left of a yes where no process enters the mode.
const PROVED_EMPTY: &str =
    "A yes speaks of what processes do in the mode. Here none is ever in it, so it says only that no call is refused for a missing right, \
    and that no descriptor’s rights exceed those of its source.";

/// Of what a yes speaks.
const OF_THE_TASK: &str =
    "Anything of the C text, or of another kernel than Capcheck’s model: it speaks of this task.";

/// What a yes doesn't say of untrusted programs.
const OF_THE_UNTRUSTED: &str =
    "That an untrusted program is never refused: it may be, as often as it likes.";

/// What a no doesn't say of the task.
const OTHER_CERTIFICATES: &str = "That the task is unsafe: another certificate may be accepted.";

/// What a no doesn't say of the certificate.
const CLAIMED: &str = "That its bounds are so: they are what the certificate claims.";

/// What a breach doesn't say.
const OTHER_RUNS: &str = "That this is the only run, or the shortest, that breaks it.";

/// What no verdict doesn't say.
const NOT_DECIDED: &str = "That the program is unsafe, or that it is safe.";

/// That the bounds were not accepted.
const NOT_ACCEPTED: &str =
    "The picture and the rights below are bounds that a search reached. They weren’t accepted.";

/// Whether some program is untrusted.
fn is_marked(views: &[Viewed<'_>]) -> bool {
    for viewed in views {
        if viewed.named.untrusted {
            return true;
        }
    }
    false
}

/// Whether some process may be in the mode, or attackers.
fn is_entered(views: &[Viewed<'_>]) -> bool {
    for viewed in views {
        if viewed.is_ever_inside() {
            return true;
        }
    }
    false
}

/// What the page says at its head.
fn case_of(reviewed: &Reviewed<'_>, views: &[Viewed<'_>]) -> Case {
    match reviewed.outcome {
        Outcome::Accepted => {
            if is_marked(views) {
                Case::YesMarked
            } else if is_entered(views) {
                Case::Yes
            } else {
                Case::YesEmpty
            }
        }
        Outcome::Refused => Case::No,
        Outcome::Broken(_) | Outcome::Attacked { .. } => Case::Broken,
        Outcome::Undecided => Case::Undecided,
    }
}

impl Case {
    /// The answer in a word for the page's title, how it is coloured, and the coloured words.
    fn words(self) -> (&'static str, Verdict, &'static str) {
        match self {
            Case::Yes | Case::YesMarked => ("yes", Verdict::Yes, "Yes."),
            Case::YesEmpty => ("yes", Verdict::Open, "Yes, but empty."),
            Case::No => ("no", Verdict::No, "No."),
            Case::Broken => ("breach", Verdict::No, "Broken."),
            Case::Undecided => ("undecided", Verdict::Open, "Not decided."),
        }
    }
}

/// The names of the untrusted programs, and that they may be taken over.
fn marked_heading(room: &mut Room, views: &[Viewed<'_>]) -> Vec<u8> {
    let mut page = Page::new(room.alloc());
    let mut separator = "It stays inside, even where ";
    let mut count: u32 = 0;
    for viewed in views {
        if viewed.named.untrusted {
            say!(&mut page; separator, viewed.named.name.as_bytes());
            separator = ", ";
            count = count.saturating_add(1);
        }
    }
    say!(&mut page; if count == 1 { " is taken over." } else { " are taken over." });
    room.bytes(page)
}

/// How a run ends that breaks something.
fn breach_words(breach: &Breach) -> &'static str {
    match breach {
        Breach::Outside(..) => "A run leaves the sandbox.",
        Breach::MissingRight => "A run ends with a right that is missing.",
        Breach::CapMode => "A run ends where the mode refuses a call.",
    }
}

/// The sentence behind the coloured word.
fn heading(room: &mut Room, reviewed: &Reviewed<'_>, views: &[Viewed<'_>], case: Case) -> Vec<u8> {
    match case {
        Case::Yes => room.text("It stays inside its sandbox."),
        Case::YesMarked => marked_heading(room, views),
        Case::YesEmpty => room.text("No process enters capability mode."),
        Case::No => match reviewed.findings.len() {
            1 => room.text("The certificate breaks a rule."),
            count => room.text(parts_of!("The certificate breaks rules at ", count, " places.")),
        },
        Case::Broken => match breach_of(&reviewed.outcome) {
            Some(breach) => room.text(breach_words(breach)),
            None => room.list(),
        },
        Case::Undecided => room.text(
            "No certificate was found, and no run that breaks the sandbox.",
        ),
    }
}

/// The first rule that is broken, with its point.
fn first_finding(room: &mut Room, reviewed: &Reviewed<'_>) -> Vec<Piece> {
    let mut lead = room.list();
    let Some(found) = reviewed.findings.first() else {
        return lead;
    };
    let scene = &reviewed.scene;
    if let Some(named) = scene.task.programs().get(usize::from(found.program)) {
        let place = Place {
            program: named.name,
            point: found.point,
        };
        room.link(&mut lead, place, scene.place(found.program, found.point));
        let words = finding_words(room.alloc(), scene, *found);
        room.plain(&mut lead, parts_of!(": ", &words, " ("));
        room.push(&mut lead, Piece::Rule(found.rule.number()));
        room.plain(&mut lead, ").");
    }
    lead
}

/// What a run breaks at its last step.
fn breach_lead(room: &mut Room, reviewed: &Reviewed<'_>) -> Vec<Piece> {
    match reviewed.outcome {
        Outcome::Broken(found) => end_of(room, "Its last step: ", &found.breach, &found.detail),
        Outcome::Attacked { breach, detail, .. } => {
            let words = "An untrusted program does what it likes there. The last step: ";
            end_of(room, words, breach, detail)
        }
        Outcome::Accepted | Outcome::Refused | Outcome::Undecided => room.sentence(""),
    }
}

/// What is proved, or what is broken.
fn lead(room: &mut Room, reviewed: &Reviewed<'_>, case: Case) -> Vec<Piece> {
    match case {
        Case::Yes => room.sentence(PROVED),
        Case::YesMarked => room.sentence(PROVED_MARKED),
        Case::YesEmpty => room.sentence(PROVED_EMPTY),
        Case::No | Case::Undecided => first_finding(room, reviewed),
        Case::Broken => breach_lead(room, reviewed),
    }
}

/// Adds the lines at which a program may be outside the mode.
fn add_outside(
    room: &mut Room,
    words: &mut Vec<Piece>,
    reviewed: &Reviewed<'_>,
    viewed: &Viewed<'_>,
) {
    let points = viewed.points_in(room, Side::Outside);
    let (Some(first), Some(last)) = (points.first(), points.last()) else {
        return;
    };
    let place = Place {
        program: viewed.named.name,
        point: short(*first),
    };
    let scene = &reviewed.scene;
    let from = scene.written(viewed.number, short(*first)).line;
    let to = scene.written(viewed.number, short(*last)).line;
    room.plain(words, parts_of!(" ", viewed.named.name.as_bytes(), " at "));
    if from == to {
        room.link(words, place, parts_of!("line ", from))
    } else {
        room.link(words, place, parts_of!("lines ", from, " to ", to))
    }
    room.plain(words, ";")
}

/// What happens outside the mode, with its lines.
fn outside_words(room: &mut Room, reviewed: &Reviewed<'_>, views: &[Viewed<'_>]) -> Vec<Piece> {
    let mut words = room.sentence("What happens outside the mode:");
    for viewed in views {
        add_outside(room, &mut words, reviewed, viewed);
    }
    room.plain(
        &mut words,
        " a yes does not bound what it does to the tree.",
    );
    words
}

/// What the answer doesn't say, whatever the task is.
fn unsaid(case: Case, has_bounds: bool) -> &'static [&'static str] {
    match (case, has_bounds) {
        (Case::Yes | Case::YesEmpty, _) => &[OF_THE_TASK],
        (Case::YesMarked, _) => &[OF_THE_UNTRUSTED, OF_THE_TASK],
        (Case::No, _) => &[OTHER_CERTIFICATES, CLAIMED],
        (Case::Broken, false) => &[OTHER_RUNS],
        (Case::Broken, true) => &[OTHER_RUNS, NOT_ACCEPTED],
        (Case::Undecided, false) => &[NOT_DECIDED],
        (Case::Undecided, true) => &[NOT_DECIDED, NOT_ACCEPTED],
    }
}

/// The heading above what the answer doesn't say.
fn right_heading(case: Case) -> &'static str {
    match case {
        Case::Yes | Case::YesMarked | Case::YesEmpty => "What a yes doesn’t say",
        Case::No => "What a no doesn’t say",
        Case::Broken | Case::Undecided => "What this doesn’t say",
    }
}

/// What the answer doesn't say.
fn right_column(
    room: &mut Room,
    reviewed: &Reviewed<'_>,
    views: &[Viewed<'_>],
    case: Case,
) -> Column {
    let mut items = room.list();
    if let Case::Yes | Case::YesMarked | Case::YesEmpty = case {
        let words = outside_words(room, reviewed, views);
        room.item(&mut items, words);
    }
    for words in unsaid(case, reviewed.has_bounds) {
        let words = room.sentence(*words);
        room.item(&mut items, words);
    }
    Column {
        heading: room.text(right_heading(case)),
        items,
    }
}

/// The head of the page.
pub(crate) fn header_of(room: &mut Room, reviewed: &Reviewed<'_>, views: &[Viewed<'_>]) -> Header {
    let case = case_of(reviewed, views);
    let (title, verdict, word) = case.words();
    Header {
        task: room.text(reviewed.task_file),
        certificate: match reviewed.cert_file {
            None => None,
            Some(name) => Some(room.text(name)),
        },
        title: room.text(title),
        verdict,
        word: room.text(word),
        heading: heading(room, reviewed, views, case),
        lead: lead(room, reviewed, case),
        left: left_column(room, reviewed, views),
        right: right_column(room, reviewed, views, case),
    }
}
