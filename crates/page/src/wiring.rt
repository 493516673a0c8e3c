//! The wires of the rows: each from its row to its panel, or to it from the first row of its class.

ghost use Rattle.std.specs.Prelude.{IfOk, IfSome};
ghost use Rattle.page.specs.WireViews.{ArriveFree, IsAmong, IsPairWire, IsPanelWire, IsRow, IsWire, KeepAllApart, StandsAmong};

use crate::lanes::{ClassLane, Placed};
use crate::pictures::{Row, Target};
use crate::sentences::Tone;
use crate::wires::{Point, Ways, Wire};
use std::alloc::{AllocError, Global};

/// Where a panel stands among those that are placed.
fn index_of(placed: &[Placed], panel: usize) -> Option<usize>
    ensures { IfSome result (λ place. StandsAmong placed.now place panel) }
{
    for (at, place) in placed.iter().enumerate() {
        if place.panel == panel {
            return Some(at);
        }
    }
    None
}

/// A class with its lane, if it is among the classes.
pub fn class_of(classes: &[ClassLane], class: usize) -> Option<&ClassLane>
    ensures { IfSome result (λ found. IsAmong classes.now found.now class) }
{
    for found in classes {
        if found.class == class {
            return Some(found);
        }
    }
    None
}

/// What a row leads to, and its height.
fn row_of(ways: &Ways<'_>, row: usize) -> Option<(Target, u32)>
    ensures { IfSome result (λ found. IsRow ways.now row found.0 found.1) }
{
    match (ways.nets.get(row), ways.rows.items.get(row)) {
        (Some(net), Some(height)) => Some((*net, *height)),
        _ => None,
    }
}

/// The wire from a row to its panel, if it leads to one.
fn panel_wire(ways: &Ways<'_>, row: usize, tone: Tone) -> Option<Wire>
    ensures { IfSome result (IsPanelWire ways.now) }
{
    let Some((Target::Panel(panel), y)) = row_of(ways, row) else {
        return None;
    };
    let Some(place) = index_of(ways.placed, panel) else {
        return None;
    };
    let (Some(arrives), Some(lane)) = (ways.arrivals.items.get(place), ways.lanes.panel_x(place))
    else {
        return None;
    };
    let (from, to) = (
        Point {
            x: ways.lanes.right,
            y,
        },
        Point {
            x: ways.lanes.arrive,
            y: *arrives,
        },
    );
    let net = Target::Panel(panel);
    Some(Wire {
        net,
        from,
        lane,
        to,
        tone,
    })
}

/// The wire from the first row of a class to another of its rows, if it is one.
fn pair_wire(ways: &Ways<'_>, row: usize, tone: Tone) -> Option<Wire>
    ensures { IfSome result (IsPairWire ways.now) }
{
    let Some((Target::Pair(class), to)) = row_of(ways, row) else {
        return None;
    };
    let Some(found) = class_of(&ways.classes.items, class) else {
        return None;
    };
    let Some((Target::Pair(first), from)) = row_of(ways, found.first) else {
        return None;
    };
    let Some(lane) = ways.lanes.pair_x(found.lane) else {
        return None;
    };
    if first != class || row <= found.first || found.last < row {
        return None;
    }
    let x = ways.lanes.left;
    let (from, to) = (Point { x, y: from }, Point { x, y: to });
    let net = Target::Pair(class);
    Some(Wire {
        net,
        from,
        lane,
        to,
        tone,
    })
}

/// The wire of a row, if it has one.
fn wire_of(ways: &Ways<'_>, row: usize, tone: Tone) -> Option<Wire>
    ensures { IfSome result (IsWire ways.now) }
{
    match panel_wire(ways, row, tone) {
        None => pair_wire(ways, row, tone),
        found => found,
    }
}

/// The wires of the rows, of which none lies on one of another net.
pub fn wires_of(alloc: Global, ways: &Ways<'_>, rows: &[&Row]) -> Result<Vec<Wire>, AllocError>
    requires { ArriveFree ways.now.nets.now ways.now.rows.now.items.items ways.now.placed.now ways.now.arrivals.now.items.items }
    ensures { IfOk result (λ wires. KeepAllApart wires.items) }
{
    let mut wires = Vec::new(alloc);
    for (at, row) in rows.iter().enumerate() {
        let Some(wire) = wire_of(ways, at, row.wire) else {
            continue;
        };
        wires.push(wire)?;
    }
    Ok(wires)
}
