//! Where the panels of the file tree stand, and the heights at which wires arrive at them.

ghost use Rattle.std.specs.Prelude.{◌≡◌, ◌+◌, ◌≤◌, false, true};
ghost use Rattle.page.specs.WireViews.{ArriveFree, ArrivesFree, LeadsTo, StandsAt};

use crate::board::{BOX_INSET, Board, FrameKind, Size};
use crate::frames::{Block, NO_WORDS, Words, count_words, faint, shortened, split_line};
use crate::lanes::Placed;
use crate::pictures::{Panel, Target};
use crate::sentences::Tone;
use crate::stops::Stops;
use std::alloc::Global;
use texts::{Page, say};

/// How many lines the nodes of a panel take.
const NODE_LINES: usize = 3;

/// Adds the nodes of a panel: up to three lines, and in the last how many more there are.
fn add_nodes(block: &mut Block, nodes: &[u8])
    ensures { block.new.room ≡ block.old.room }
{
    let room = block.room.max(1);
    let mut rest = nodes;
    for _line in 1..NODE_LINES {
        if !rest.is_empty() {
            let (front, back) = split_line(rest, room);
            block.add(NO_WORDS, 0, faint(front));
            rest = back;
        }
    }
    let (front, back) = split_line(rest, room);
    if !back.is_empty() {
        let mut more = Page::new(*block.lines.allocator());
        say!(&mut more; "and ", count_words(rest), " more");
        block.add_page(NO_WORDS, 0, &more, Tone::Faint)
    } else if !front.is_empty() {
        block.add(NO_WORDS, 0, faint(front))
    }
}

/// What stands on a panel.
fn panel_block(alloc: Global, panel: &Panel, size: &Size) -> Block
    ensures { result.room ≡ size.now.panel_letters }
{
    let tone = Tone::Plain;
    let behind = panel.name.len().saturating_add(2);
    let room = size.panel_letters.saturating_sub(behind);
    let name = Words {
        text: &panel.name,
        tone,
    };
    let mut block = Block::new(alloc, size.panel_letters);
    block.space(9);
    block.add_page(name, behind, &shortened(alloc, &panel.path, room), tone);
    if panel.is_grant {
        let text = &panel.allows;
        block.add_broken(NO_WORDS, 0, Words { text, tone });
    }
    add_nodes(&mut block, &panel.nodes);
    block.space(9);
    block
}

/// Where a panel's wire arrives, below its top.
const PANEL_PORT: u32 = 18;

/// The height past which there are no more panels.
const MAX_PANELS: u32 = 990_000_000;

/// Whether a row leads to a panel.
fn leads_to(nets: &[Target], row: usize, panel: usize) -> bool
    ensures { result ≡ true → LeadsTo nets.now row panel }
{
    match nets.get(row) {
        Some(Target::Panel(found)) => *found == panel,
        _ => false,
    }
}

/// Whether all rows at a height lead to a panel.
fn is_free(nets: &[Target], rows: &[u32], panel: usize, height: u32) -> bool
    ensures free { result ≡ true → ArrivesFree nets.now rows.now panel height }
    ensures taken { result ≡ false → StandsAt rows.now height }
{
    for (at, row) in rows.iter().enumerate() {
        if *row == height && !leads_to(nets, at, panel) {
            return false;
        }
    }
    true
}

/// Where a panel begins: at a height or below it, and if it can be so that its wire is straight. At the height of its wire there is no row of another panel.
fn panel_top(nets: &[Target], rows: &Stops, panel: usize, least: u32, wanted: u32) -> u32
    requires least { least ≤ 990_000_000 }
    requires wanted { wanted ≤ 990_000_000 }
    ensures below { least ≤ result }
    ensures low { result ≤ 990_000_003 }
    ensures free { ArrivesFree nets.now rows.now.items.items panel (result + 18) }
{
    let top = least.max(wanted);
    if is_free(nets, &rows.items, panel, top + PANEL_PORT) {
        return top;
    }
    top + 3
}

/// The height that makes the wire of a panel's first row straight, if it has one on a wide picture.
fn wanted_top(place: &Placed, rows: &Stops, size: &Size) -> u32
    ensures { result ≤ 990_000_000 }
{
    if !size.is_wide {
        return 0;
    }
    let Some(first) = place.first else {
        return 0;
    };
    match rows.items.get(first) {
        Some(height) => height.saturating_sub(PANEL_PORT).min(990_000_000),
        None => 0,
    }
}

/// Adds the panels in their order; on a wide picture each at the height of its first row if there is room. Gives the heights of their wires. A board that is too high
/// takes no more of them.
pub fn add_panels(
    board: &mut Board,
    panels: &[Panel],
    placed: &[Placed],
    size: &Size,
    nets: &[Target],
    rows: &Stops,
) -> Stops
    requires { board.old.strip.width ≡ size.now.panel_width }
    ensures strip { board.new.strip ≡ board.old.strip }
    ensures free { ArriveFree nets.now rows.now.items.items placed.now result.items.items }
{
    let alloc = *board.frames.allocator();
    let mut arrivals = Stops::new(alloc, 0);
    for place in placed {
        let Some(panel) = panels.get(place.panel) else {
            return arrivals;
        };
        if board.below > MAX_PANELS {
            return arrivals;
        }
        let wanted = wanted_top(place, rows, size);
        let top = panel_top(nets, rows, place.panel, board.below, wanted);
        if arrivals.push(top + PANEL_PORT).is_err() {
            board.is_short = true;
            return arrivals;
        }
        let kind = if panel.is_grant {
            FrameKind::Grant
        } else {
            FrameKind::NoGrant
        };
        board.move_to(top);
        board.add(kind, BOX_INSET, panel_block(alloc, panel, size));
        board.space(12);
    }
    arrivals
}
