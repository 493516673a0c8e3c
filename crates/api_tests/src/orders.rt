//! What no clause says: that there is an answer where memory is there, and that the definitions mean these lines.

use command_line::{Order, read_order};
use std::alloc::{AllocError, Global};
use std::test::Fail;

/// The words, each as a text of its own.
fn texts(alloc: Global, words: &[&str]) -> Result<Vec<String>, AllocError> {
    let mut texts = Vec::new(alloc);
    for word in words {
        texts.push(String::from_str(alloc, *word)?)?;
    }
    Ok(texts)
}

#[test]
fn right_lines_are_read(rt: HostRuntime) -> Result<(), Fail> {
    let rows: [(&[&str], Order<'_>); 13] = [
        (&[], Order::Example),
        (
            &["run", "t.toml", "s.txt"],
            Order::Run {
                task: "t.toml",
                schedule: "s.txt",
            },
        ),
        (
            &["check", "first", "good"],
            Order::Check {
                task: "first",
                cert: "good",
            },
        ),
        (
            &["report", "first", "good"],
            Order::Report {
                task: "first",
                cert: "good",
            },
        ),
        (
            &["expand", "first", "good"],
            Order::Expand {
                task: "first",
                cert: "good",
            },
        ),
        (&["search", "t.toml"], Order::Search { task: "t.toml" }),
        (&["search", ""], Order::Search { task: "" }),
        (
            &["run", "", ""],
            Order::Run {
                task: "",
                schedule: "",
            },
        ),
        (
            &["run", "a=b", "a b"],
            Order::Run {
                task: "a=b",
                schedule: "a b",
            },
        ),
        (
            &["run", "run", "check"],
            Order::Run {
                task: "run",
                schedule: "check",
            },
        ),
        (
            &["check", "help", "x-y"],
            Order::Check {
                task: "help",
                cert: "x-y",
            },
        ),
        (
            &["run", "/a/b.toml", "/a/-b"],
            Order::Run {
                task: "/a/b.toml",
                schedule: "/a/-b",
            },
        ),
        (
            &["check", "\u{e9}", "\n"],
            Order::Check {
                task: "\u{e9}",
                cert: "\n",
            },
        ),
    ];
    for (words, order) in rows {
        let texts = texts(rt.alloc(), words)?;
        assert!(rt; read_order(rt.alloc(), &texts) == Ok(order), "{words:?}");
    }
    Ok(())
}
