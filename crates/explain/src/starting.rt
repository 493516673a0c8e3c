//! In which part the bound of point 0 is too narrow for the first state of a process.

ghost use Rattle.std.specs.Prelude.{None};

use crate::breaking::PartTest;
use crate::scenes::Scene;
use certificate::{Bound, ToldSlot};
use checker::starts::{mode_describes, with_number};
use task::{FirstObject, Start, node_text};
use texts::{Page, Say, ToldRights, say};

/// What a first descriptor of a task is of.
#[derive(Clone, Copy)]
pub(crate) struct Object<'a> {
    pub scene: &'a Scene<'a>,
    pub of: FirstObject,
}

/// Where it stands in the tree, or which side of which pair it is.
impl<'a> Say for Object<'a> {
    ghost said = { λ object. None };

    fn say(self, page: &mut Page) {
        match self.of {
            FirstObject::Node { node, .. } => {
                say!(page; node_text(self.scene.task.nodes(), node))
            }
            FirstObject::End { pair, side } => say!(page; "sock @", pair, " ", side),
        }
    }
}

/// Adds in which parts a bound doesn't describe the first state of a process.
pub(crate) fn add_start(page: &mut Page, scene: &Scene<'_>, bound: &Bound, start: &Start) {
    if !mode_describes(bound.mode(), start.mode) {
        let mode = if start.mode { "on" } else { "off" };
        say!(page; "; the mode starts ", mode, ", the bound has ", bound.mode());
    }
    let registers = PartTest::RegisterBegins { bound }.failing(page.alloc());
    for register in &page.gathered(registers) {
        let most = bound.interval(*register);
        say!(page; "; r", *register, " starts as 0, the bound has ", most);
    }
    let (task, wide) = (scene.task, scene.task.further_rights());
    let numbers = PartTest::SlotBegins { task, bound, start }.failing(page.alloc());
    for number in &page.gathered(numbers) {
        say!(page; "; descriptor ", *number, " starts ");
        match with_number(&start.descriptors, usize::from(*number)) {
            None => say!(page; "closed"),
            Some(first) => {
                let of = first.object;
                let told = ToldRights {
                    wide,
                    rights: first.rights,
                };
                say!(page; "as ", Object { scene: &*scene, of }, " with ", told)
            }
        }
        let slot = bound.slot(u32::from(*number));
        say!(page; ", the bound has ", ToldSlot { wide, slot });
    }
}
