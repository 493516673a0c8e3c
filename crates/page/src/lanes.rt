//! Lanes: upright lines beside the boxes, one for each class of pairs at the left, and one for each panel at the right.

ghost use Rattle.std.specs.Prelude.{◌≡◌, ◌<◌, ◌≤◌, All, false, length};
ghost use Rattle.std.specs.List.{AllPairs};

use crate::pictures::{Panel, Target};
use crate::wiring::class_of;
use std::alloc::{AllocError, Global};

/// A class of pairs with its lane. Rows are counted from the top of the picture.
#[derive(Clone, Copy)]
pub struct ClassLane {
    pub class: usize,
    /// The first row of the class.
    pub first: usize,
    /// The last one.
    pub last: usize,
    pub lane: usize,
}

/// Classes by their first rows. Those that share a lane lie apart.
#[derive(Drop)]
pub struct Classes {
    pub items: Vec<ClassLane>,
    /// How many lanes they take.
    pub lanes: usize,
    pub ghost few: { All (λ c. c.lane < lanes) items.items },
    pub ghost apart: { AllPairs (λ a b. a.lane ≡ b.lane → a.last < b.first) items.items },
    pub ghost least: { lanes ≤ length items.items },
}

/// The last row of a class.
fn last_row(nets: &[Target], class: usize) -> usize {
    let mut last = 0;
    for (at, net) in nets.iter().enumerate() {
        if let Target::Pair(found) = net {
            if *found == class {
                last = at;
            }
        }
    }
    last
}

/// Whether some of these classes takes a lane from a row on.
fn is_taken(classes: &[ClassLane], lane: usize, first: usize) -> bool
    ensures { result ≡ false → All (λ c. c.lane ≡ lane → c.last < first) classes.now }
{
    for class in classes {
        if class.lane == lane && class.last >= first {
            return true;
        }
    }
    false
}

/// The least of some lanes that none of these classes takes from a row on, or the next one.
fn free_lane(classes: &[ClassLane], lanes: usize, first: usize) -> usize
    requires { All (λ c. c.lane < lanes) classes.now }
    ensures free { All (λ c. c.lane ≡ result → c.last < first) classes.now }
    ensures least { result ≤ lanes }
{
    for lane in 0..lanes {
        if !is_taken(classes, lane, first) {
            return lane;
        }
    }
    lanes
}

impl Classes {
    /// None yet.
    pub(crate) fn none(alloc: Global) -> Classes {
        Classes {
            items: Vec::new(alloc),
            lanes: 0,
        }
    }

    /// Adds a class behind the others, in the least lane that is free from its first row on.
    fn push(&mut self, class: usize, first: usize, last: usize) -> Result<(), AllocError> {
        let lane = free_lane(&self.items, self.lanes, first);
        self.items.push(ClassLane {
            class,
            first,
            last,
            lane,
        })?;
        self.lanes = self.lanes.max(lane + 1);
        Ok(())
    }

    /// Adds the classes of the rows with their lanes.
    pub(crate) fn add(&mut self, nets: &[Target]) -> Result<(), AllocError> {
        for (at, net) in nets.iter().enumerate() {
            if let Target::Pair(class) = *net {
                if class_of(&self.items, class).is_none() {
                    self.push(class, at, last_row(nets, class))?;
                }
            }
        }
        Ok(())
    }
}

/// A panel in the order of the picture.
#[derive(Clone, Copy)]
pub struct Placed {
    pub panel: usize,
    /// The first row that leads to it.
    pub first: Option<usize>,
}

/// The first row that leads to a panel.
fn first_row(nets: &[Target], panel: usize) -> Option<usize> {
    for (at, net) in nets.iter().enumerate() {
        if let Target::Panel(found) = net {
            if *found == panel {
                return Some(at);
            }
        }
    }
    None
}

/// Adds the grants that rows lead to in the order in which they do first.
fn add_named(
    placed: &mut Vec<Placed>,
    nets: &[Target],
    panels: &[Panel],
) -> Result<(), AllocError> {
    for (at, net) in nets.iter().enumerate() {
        let Target::Panel(panel) = *net else {
            continue;
        };
        let (Some(found), Some(first)) = (panels.get(panel), first_row(nets, panel)) else {
            continue;
        };
        if found.is_grant && first == at {
            let first = Some(at);
            placed.push(Placed { panel, first })?;
        }
    }
    Ok(())
}

/// Adds the other panels: grants that no row leads to, or what is no grant.
fn add_others(
    placed: &mut Vec<Placed>,
    nets: &[Target],
    panels: &[Panel],
    are_grants: bool,
) -> Result<(), AllocError> {
    for (panel, found) in panels.iter().enumerate() {
        let first = first_row(nets, panel);
        if found.is_grant == are_grants && !(are_grants && first.is_some()) {
            placed.push(Placed { panel, first })?;
        }
    }
    Ok(())
}

/// Adds the panels in the order of the picture: as rows first lead to them, then the other grants, and last what is in no grant.
pub(crate) fn add_placed(
    placed: &mut Vec<Placed>,
    nets: &[Target],
    panels: &[Panel],
) -> Result<(), AllocError> {
    add_named(placed, nets, panels)?;
    add_others(placed, nets, panels, true)?;
    add_others(placed, nets, panels, false)
}
