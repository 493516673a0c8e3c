//! What every run of small tasks shows. Each law is the contract of a function that does nothing.

ghost use Rattle.std.specs.Prelude.{◌≡◌, ◌∷◌, ◌++◌, [], codes};
ghost use Rattle.commands.specs.Accepted.{ActsAccepted, forking_certificate, forking_plan, passing_certificate, passing_plan, renaming_certificate, renaming_plan};
ghost use Rattle.commands.specs.Attacked.{ActsConfined, entering_certificate, entering_plan, entering_run, handing_certificate, handing_plan, handing_run};
ghost use Rattle.commands.specs.Examples.{AlwaysShows, absent_event, bare_plan, events_of_first, example_events, first_plan, loop_plan};
ghost use Rattle.commands.specs.ReportRows.{halting_certificate, halting_plan, marked_certificate, marked_plan};
ghost use Rattle.commands.specs.Reports.{report_text};

/// What every run of three small tasks shows, event for event: one event is of a process that was not made.
pub fn small_tasks_show_these_traces()
    ensures example { AlwaysShows first_plan example_events
        (codes "0 main:0 = 0\n0 main:1 = 65 read /work/in\n") }
    ensures first { AlwaysShows first_plan (events_of_first 5)
        (codes "0 main:0 = 0\n0 main:1 = 65 read /work/in\n0 main:2 halt\n0 main:2 ended\n0 main:2 ended\n") }
    ensures bare { AlwaysShows bare_plan (events_of_first 3)
        (codes "0 main:0 = 0\n0 main:1 ! ENOTCAPABLE MissingRight\n0 main:2 halt\n") }
    ensures reads_on { AlwaysShows loop_plan (events_of_first 10)
        (codes "0 main:0 = 65 read /work/in\n0 main:1 ok\n0 main:2 ok\n0 main:0 = 66 read /work/in\n0 main:1 ok\n0 main:2 ok\n0 main:3 ok\n" ++
        codes "0 main:0 = 256 read /work/in\n0 main:1 ok\n0 main:4 halt\n") }
    ensures absent { AlwaysShows first_plan (absent_event ∷ events_of_first 1)
        (codes "5 - none\n0 main:0 = 0\n") }
{}

/// Soundness says something: three certificates meet the rules, and each task has a run in which a process in capability mode
/// acts: it receives a directory and opens a file beneath it, it forks, it renames a file inside its grant.
pub fn accepted_tasks_act_in_the_mode()
    ensures passing { ActsAccepted passing_plan passing_certificate (0 ∷ 0 ∷ 1 ∷ 1 ∷ [])
        (codes "0 main:0 = 0\n0 main:1 = 1\n1 child:0 = 1\n1 child:1 = 2\n") }
    ensures forking { ActsAccepted forking_plan forking_certificate (0 ∷ 0 ∷ 1 ∷ 1 ∷ [])
        (codes "0 main:0 = 0\n0 main:1 = 1\n1 main:2 ok\n1 main:4 = 2\n") }
    ensures renaming { ActsAccepted renaming_plan renaming_certificate (0 ∷ 0 ∷ 0 ∷ [])
        (codes "0 main:0 = 0\n0 main:1 walk\n0 main:1 = 0 remove /work/in create /work/out/in\n") }
{}

/// To be confined says something: two certificates meet the rules, and each task has a run in which a process of an untrusted program
/// does its worst in the mode. It opens a file that it may read, and is refused what it isn't allowed.
pub fn untrusted_tasks_are_confined()
    ensures handing { ActsConfined handing_plan handing_certificate handing_run
        (codes "1 child:0 ! ECAPMODE CapMode\n0 main:0 = 0\n0 main:1 = 1\n1 child:0 = 1\n1 child:0 ! ENOTCAPABLE MissingRight\n" ++
        codes "1 child:0 ! ENOTCAPABLE Escape\n1 child:0 = 1\n1 child:0 = 2\n") }
    ensures entering { ActsConfined entering_plan entering_certificate entering_run
        (codes "0 main:0 = 0\n0 main:1 = 0\n0 main:2 = 0\n0 main:3 ! ENOTCAPABLE MissingRight\n0 main:0 ! ECAPMODE CapMode\n" ++
        codes "0 main:0 = 1\n1 main:0 = 1\n") }
{}

/// What is reported of a small task: of its one point with a bound, the rights in its one grant, by their names; and where its
/// program is marked, those that it may have there whatever it does.
pub fn a_small_task_is_reported()
    ensures plain { report_text halting_plan halting_certificate ≡ codes "main:0 work READ,LOOKUP\n" }
    ensures unmarked { report_text halting_plan marked_certificate ≡ codes "main:0 work READ,LOOKUP\n" }
    ensures marked { report_text marked_plan marked_certificate ≡ codes "main:0 work READ,LOOKUP\nmain:* work READ\n" }
{}
