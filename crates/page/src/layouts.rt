//! The picture laid out: where everything stands.

ghost use Rattle.std.specs.Prelude.{◌≡◌, ◌+◌, ◌≤◌, false, true, IfOk};
ghost use Rattle.page.specs.FrameViews.{LettersFit, LieApart};
ghost use Rattle.page.specs.WireViews.{ArriveFree, KeepAllApart};

use crate::board::{Board, Size, Strip, add_programs};
use crate::lanes::{Classes, Placed, add_placed};
use crate::panels::add_panels;
use crate::pictures::{Half, Picture, Row, Target};
use crate::stops::Stops;
use crate::wires::{Lanes, Spread, Ways, Wire};
use crate::wiring::wires_of;
use std::alloc::{AllocError, Global};

/// How many letters the column of names takes at most.
const MAX_COLUMN: usize = 16;

/// How many rows are drawn.
const MAX_ROWS: usize = 4096;

/// How many lanes of panels there are at most.
const MAX_PANELS: usize = 4096;

/// Where the first lane of pairs stands.
const FIRST_LANE: u32 = 8;

/// The rows of a picture in order, and what follows from what they lead to.
#[derive(Drop)]
pub struct Plan<'p> {
    /// The rows from the top on.
    pub rows: Vec<&'p Row>,
    /// What they lead to.
    pub nets: Vec<Target>,
    pub classes: Classes,
    /// The panels in their order.
    pub placed: Vec<Placed>,
}

/// Where boxes, panels and lanes stand.
#[derive(Drop)]
pub struct Layout {
    pub width: u32,
    pub boxes: Board,
    pub panels: Board,
    /// The heights at which wires arrive at the panels.
    pub arrivals: Stops,
    pub lanes: Lanes,
}

impl<'p> Plan<'p> {
    /// Adds the rows of a box, and what they lead to.
    fn add_rows(&mut self, half: &'p Half) -> Result<(), AllocError> {
        for row in &half.rows {
            if self.rows.len() < MAX_ROWS {
                self.rows.push(row)?;
                self.nets.push(row.target)?;
            }
        }
        Ok(())
    }

    /// Adds the rows of a picture, from the top on, and what follows from what they lead to.
    fn add(&mut self, picture: &'p Picture) -> Result<(), AllocError> {
        for program in &picture.programs {
            for half in &program.halves {
                self.add_rows(half)?;
            }
        }
        self.classes.add(&self.nets)?;
        add_placed(&mut self.placed, &self.nets, &picture.panels)
    }
}

/// How many letters the column of names takes.
fn name_column(rows: &[&Row]) -> usize {
    let mut longest = 0;
    for row in rows {
        longest = row.name.len().max(longest);
    }
    longest.min(MAX_COLUMN)
}

/// The step of so many lanes: they take so much together if there are many, each at least `least`, at most 12.
fn step(lanes: usize, together: u32, least: u32) -> u32
    requires { (4 ≤ least) × (least ≤ 12) }
    ensures { (4 ≤ result) × (result ≤ 12) }
{
    let lanes = u32::try_from(lanes).unwrap_or(u32::MAX).max(1);
    (together / lanes).min(12).max(least)
}

/// The steps of lanes of pairs and of lanes of panels.
fn steps(size: &Size, pairs: usize, panels: usize) -> (u32, u32)
    ensures pairs { (4 ≤ result.0) × (result.0 ≤ 12) }
    ensures panels { (4 ≤ result.1) × (result.1 ≤ 12) }
{
    if size.is_wide {
        (step(pairs, 144, 6), 12)
    } else {
        (step(pairs, 48, 4), step(panels, 48, 6))
    }
}

/// Where lanes stand, and where what is at the right of them begins.
fn lanes_of(size: &Size, pairs: usize, panels: usize) -> (Lanes, u32)
    requires pairs { pairs ≤ 4096 }
    requires panels { panels ≤ 4096 }
    ensures right { result.0.right ≡ result.0.left + size.now.box_width }
    ensures beside { result.0.right ≤ result.1 }
    ensures low { result.1 ≤ 5_000_000 }
{
    let steps = steps(size, pairs, panels);
    let pairs = Spread {
        start: if pairs == 0 { 0 } else { FIRST_LANE },
        step: steps.0,
        count: pairs,
    };
    let left = pairs.at(pairs.count) + 2;
    let right = left + size.box_width;
    let panels = Spread {
        start: right + 18,
        step: steps.1,
        count: panels,
    };
    let beside = panels.at(panels.count) + 6;
    let lanes = Lanes {
        left,
        right,
        pairs,
        panels,
        is_wide: size.is_wide,
        arrive: if size.is_wide { beside } else { right },
    };
    (lanes, beside)
}

/// The strip of the panels: beside the boxes on a wide picture, below them on a narrow one.
fn panels_strip(size: &Size, lanes: &Lanes, beside: u32, boxes: &Board) -> Strip
    requires { boxes.now.strip.start ≡ 0 }
    ensures width { result.width ≡ size.now.panel_width }
    ensures low { result.start ≤ 1_500_000_000 }
    ensures beside { size.now.is_wide ≡ true → result.left ≡ beside }
    ensures below { size.now.is_wide ≡ false → boxes.now.below ≤ result.start }
{
    let width = size.panel_width;
    if size.is_wide {
        let (left, start) = (beside, 18);
        return Strip { left, width, start };
    }
    let (left, start) = (lanes.left, boxes.below + 36);
    Strip { left, width, start }
}

/// The rows of a picture, and what follows from what they lead to.
pub(crate) fn plan_of<'p>(alloc: Global, picture: &'p Picture) -> Result<Plan<'p>, AllocError> {
    let mut plan = Plan {
        rows: Vec::new(alloc),
        nets: Vec::new(alloc),
        classes: Classes::none(alloc),
        placed: Vec::new(alloc),
    };
    plan.add(picture)?;
    Ok(plan)
}

/// Lays a picture out: boxes and panels lie apart, and letters inside them; and at the heights where wires arrive at panels there is no row of another panel.
pub fn lay_out(alloc: Global, picture: &Picture, plan: &Plan<'_>, size: &Size) -> Layout
    ensures apart { LieApart result.boxes.frames.items result.panels.frames.items }
    ensures boxes_fit { LettersFit result.boxes.frames.items }
    ensures panels_fit { LettersFit result.panels.frames.items }
    ensures free { ArriveFree plan.now.nets.items result.boxes.ports.items.items plan.now.placed.items result.arrivals.items.items }
{
    let pairs = plan.classes.lanes.min(MAX_ROWS);
    let (lanes, beside) = lanes_of(size, pairs, plan.placed.len().min(MAX_PANELS));
    let strip = Strip {
        left: lanes.left,
        width: size.box_width,
        start: 0,
    };
    let mut boxes = Board::new(alloc, strip);
    add_programs(&mut boxes, &picture.programs, size, name_column(&plan.rows));
    let mut panels = Board::new(alloc, panels_strip(size, &lanes, beside, &boxes));
    let arrivals = add_panels(
        &mut panels,
        &picture.panels,
        &plan.placed,
        size,
        &plan.nets,
        &boxes.ports,
    );
    let end = if size.is_wide { size.panel_width } else { 0 };
    Layout {
        width: beside.saturating_add(end).saturating_add(2),
        boxes,
        panels,
        arrivals,
        lanes,
    }
}

/// The wires of a picture that is laid out, of which none lies on one of another net. If memory was refused for some of it there are none.
pub fn wires_in(alloc: Global, plan: &Plan<'_>, layout: &Layout) -> Result<Vec<Wire>, AllocError>
    requires { ArriveFree plan.now.nets.items layout.now.boxes.ports.items.items plan.now.placed.items layout.now.arrivals.items.items }
    ensures { IfOk result (λ wires. KeepAllApart wires.items) }
{
    if layout.boxes.is_short || layout.panels.is_short {
        return Err(AllocError);
    }
    let ways = Ways {
        nets: &plan.nets,
        rows: &layout.boxes.ports,
        placed: &plan.placed,
        arrivals: &layout.arrivals,
        classes: &plan.classes,
        lanes: &layout.lanes,
    };
    wires_of(alloc, &ways, &plan.rows)
}
