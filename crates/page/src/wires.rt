//! Wires: from a row's height along to a lane, along the lane to another height, and from there to an end.

ghost use Rattle.std.specs.Prelude.{◌≡◌, ◌+◌, ◌*◌, ◌<◌, ◌≤◌, IfSome};

use crate::lanes::{Classes, Placed};
use crate::pictures::Target;
use crate::sentences::Tone;
use crate::stops::Stops;

/// A point of the picture.
#[derive(Clone, Copy)]
pub struct Point {
    pub x: u32,
    pub y: u32,
}

/// A wire from one point to another by a lane.
#[derive(Clone, Copy)]
pub struct Wire {
    /// What it is a part of: wires of one net may lie on each other.
    pub net: Target,
    pub from: Point,
    /// Where its upright stretch stands.
    pub lane: u32,
    pub to: Point,
    pub tone: Tone,
}

/// Lanes beside each other, each so far from the one before.
#[derive(Clone, Copy)]
pub struct Spread {
    /// Where the first one stands.
    pub start: u32,
    pub step: u32,
    pub count: usize,
    pub ghost low: { start ≤ 1_000_000 },
    pub ghost steps: { (4 ≤ step) × (step ≤ 12) },
    pub ghost few: { count ≤ 4096 },
}

impl Spread {
    /// Where a lane stands, counted from the left, or where one more would.
    pub fn at(self, lane: usize) -> u32
        requires { lane ≤ self.count }
        ensures at { result ≡ self.start + self.step * lane }
        ensures low { result ≤ self.start + 49_152 }
    {
        self.start + self.step * (lane as u32)
    }
}

/// Where lanes stand, from the left.
#[derive(Clone, Copy)]
pub struct Lanes {
    /// The left edge of the boxes.
    pub left: u32,
    /// Their right edge.
    pub right: u32,
    /// The lanes of pairs, at the left of the boxes.
    pub pairs: Spread,
    /// The lanes of panels, at the right.
    pub panels: Spread,
    /// Whether panels stand at the right of their lanes, and not below the boxes.
    pub is_wide: bool,
    /// Where wires arrive at panels.
    pub arrive: u32,
    pub ghost left_of: { pairs.start + pairs.step * pairs.count < left },
    pub ghost right_of: { right < panels.start },
    pub ghost boxes: { left < right },
    pub ghost end: { right ≤ arrive },
}

impl Lanes {
    ghost use Rattle.page.specs.WireViews.{lane_at, pair_lane, panel_lane};

    /// Where a lane of pairs stands: the first is the nearest to the boxes.
    pub fn pair_x(&self, lane: usize) -> Option<u32>
        ensures lane { IfSome result (λ x. x ≡ lane_at self.now.pairs (pair_lane self.now lane)) }
        ensures few { IfSome result (λ x. lane < self.now.pairs.count) }
    {
        let pairs = self.pairs;
        if lane >= pairs.count {
            return None;
        }
        Some(pairs.at(pairs.count - 1 - lane))
    }

    /// Where the lane of a panel stands: on a wide picture the first panel's is the last, on a narrow one the first.
    pub fn panel_x(&self, place: usize) -> Option<u32>
        ensures lane { IfSome result (λ x. x ≡ lane_at self.now.panels (panel_lane self.now place)) }
        ensures few { IfSome result (λ x. place < self.now.panels.count) }
    {
        let panels = self.panels;
        if place >= panels.count {
            return None;
        }
        if self.is_wide {
            return Some(panels.at(panels.count - 1 - place));
        }
        Some(panels.at(place))
    }
}

/// All that wires go by: the nets of the rows from the top on, their heights, the panels from the left or the top on, the heights at which wires arrive at them,
/// the classes, and where lanes stand.
#[derive(Clone, Copy)]
pub struct Ways<'l> {
    pub nets: &'l [Target],
    pub rows: &'l Stops,
    pub placed: &'l [Placed],
    pub arrivals: &'l Stops,
    pub classes: &'l Classes,
    pub lanes: &'l Lanes,
}
