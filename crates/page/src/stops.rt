//! Heights that rise: each leaves room between it and the one before.

ghost use Rattle.std.specs.Prelude.{◌≡◌, ◌+◌, ◌≤◌, All, [], ◌∷◌, ◌++◌, cond, is_ok};
ghost use Rattle.std.specs.List.{AllPairs};

use std::alloc::{AllocError, Global};

/// How far two stops are apart at least.
pub const GAP: u32 = 4;

/// Past this height there are no stops.
pub const MAX_STOP: u32 = 2_000_000_000;

/// Numbers that rise by `GAP` at least.
#[derive(Drop)]
pub struct Stops {
    pub items: Vec<u32>,
    /// The least number that may come next.
    pub next: u32,
    pub ghost rise: { AllPairs (λ p q. p + 4 ≤ q) items.items },
    pub ghost before: { All (λ p. p + 4 ≤ next) items.items },
}

impl Stops {
    /// None yet, from a number on.
    pub fn new(alloc: Global, next: u32) -> Stops
        ensures none { result.items.items ≡ [] }
        ensures next { result.next ≡ next }
    {
        Stops {
            items: Vec::new(alloc),
            next,
        }
    }

    /// Adds one above the others.
    pub fn push(&mut self, stop: u32) -> Result<(), AllocError>
        requires above { self.old.next ≤ stop }
        requires low { stop ≤ MAX_STOP }
        ensures next { self.new.next ≤ stop + 4 }
        ensures items { self.new.items.items ≡ cond (is_ok result) (self.old.items.items ++ stop ∷ []) self.old.items.items }
    {
        self.items.push(stop)?;
        self.next = stop + GAP;
        Ok(())
    }

    /// Adds others, each so much higher.
    pub fn push_all(&mut self, others: &Stops, higher: u32, height: u32) -> Result<(), AllocError>
        requires above { self.old.next ≤ higher }
        requires end { others.now.next ≤ height }
        requires low { higher + height ≤ MAX_STOP }
        ensures { self.new.next ≤ higher + height }
    {
        for stop in &others.items {
            self.push(higher + *stop)?;
        }
        Ok(())
    }
}
