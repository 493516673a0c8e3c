//! Whether a certificate seems to be of an older text of a program, whose points were others.

use certificate::{Cert, Version};
use checker::is_named;
use instruction_set::Instruction;
use std::alloc::{AllocError, Global};
use task::{NamedProgram, Task};
use texts::{Page, say};

/// How far points may have moved.
const FURTHEST: usize = 16;

/// The points of a program that a certificate gives a bound.
fn points_of(alloc: Global, cert: &Cert, program: &[u8]) -> Result<Vec<usize>, AllocError> {
    let mut points = Vec::new(alloc);
    for point in cert.points() {
        if point.program().as_bytes() == program {
            points.push(usize::from(point.point()))?;
        }
    }
    Ok(points)
}

/// For each point of a program whether something names it.
fn named_points(alloc: Global, code: &[Instruction]) -> Result<Vec<bool>, AllocError> {
    let mut flags = Vec::new(alloc);
    for point in 0..code.len() {
        flags.push(is_named(code, point))?;
    }
    Ok(flags)
}

/// How the points of a program have moved: those from one on, so far on or back.
#[derive(Clone, Copy)]
pub(crate) struct Move<'a> {
    pub program: &'a [u8],
    from: usize,
    far: usize,
    is_on: bool,
}

impl<'a> Move<'a> {
    /// Where a point has come to; none where that lies before the first.
    pub(crate) fn place(&self, point: usize) -> Option<usize> {
        if point < self.from {
            return Some(point);
        }
        if self.is_on {
            return point.checked_add(self.far);
        }
        point.checked_sub(self.far)
    }

    /// Whether each point has come to one whose flag is set.
    fn fits(&self, points: &[usize], flags: &[bool]) -> bool {
        for point in points {
            match self.place(*point) {
                Some(place) if flags.get(place) == Some(&true) => {}
                _ => return false,
            }
        }
        true
    }
}

/// The shortest move by which each of these points of a program comes to one whose flag is set, if it is short; that by nothing where
/// each is.
fn shortest_move<'a>(program: &'a [u8], points: &[usize], flags: &[bool]) -> Option<Move<'a>> {
    for far in 0..FURTHEST {
        for from in points {
            for is_on in [true, false].iter() {
                let moved = Move {
                    program,
                    from: *from,
                    far,
                    is_on: *is_on,
                };
                if moved.fits(points, flags) {
                    return Some(moved);
                }
            }
        }
    }
    None
}

/// The shortest move by which the points that a certificate bounds of a program come to such as something names.
fn move_of<'a>(
    alloc: Global,
    cert: &Cert,
    program: &'a NamedProgram,
) -> Result<Option<Move<'a>>, AllocError> {
    let name = program.name.as_bytes();
    let points = points_of(alloc, cert, name)?;
    let flags = named_points(alloc, program.program.code())?;
    Ok(shortest_move(name, &points, &flags))
}

/// How the programs have moved whose bounds in version 2 or 3 stand at points that nothing names, and would all stand at named ones if
/// some of them had moved.
pub(crate) fn moves<'a>(
    alloc: Global,
    task: &'a Task,
    cert: &Cert,
) -> Result<Vec<Move<'a>>, AllocError> {
    let mut list = Vec::new(alloc);
    if cert.version() == Version::One {
        return Ok(list);
    }
    for program in task.programs() {
        match move_of(alloc, cert, program)? {
            Some(moved) if moved.far != 0 => list.push(moved)?,
            _ => {}
        }
    }
    Ok(list)
}

/// Adds of which programs the bounds seem to be of an older text.
pub(crate) fn add_older(page: &mut Page, task: &Task, cert: &Cert) {
    let moves = moves(page.alloc(), task, cert);
    for moved in &page.gathered(moves) {
        let way = if moved.is_on { "on" } else { "back" };
        say!(page; "the certificate seems to be of an older text of ", moved.program);
        say!(page; ": it bounds points that no jump and no else names now; from point ", moved.from);
        say!(page; " on its points would be ", moved.far, " further ", way);
        say!(page; " (`capwhy propose TASK CERT` tries that)\n");
    }
}
