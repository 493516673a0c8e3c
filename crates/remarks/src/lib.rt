//! Remarks on programs whose points have bounds: what a yes doesn't say of them, and what could be narrower, as values. Nothing of it is
//! needed to believe a yes.
#![tactic(auto)]

pub mod beyond;
mod bounded;
pub mod directories;
mod gathering;
mod limits;
mod link_names;
mod looks;
mod marked;
mod point_test;
pub mod policies;
pub mod reaching;
pub mod remarks;
pub mod unneeded;
pub mod warnings;
mod ways;

pub use beyond::{beyond_at_all, points_beyond, rights_beyond, unlisted_rights};
pub use directories::directories_at_start;
pub use policies::{TaskRemark, any_program_does, remarks_on_task};
pub use reaching::{Uses, uses_of};
pub use remarks::{Remark, Remarked, bounds_on, remarks_on};
pub use warnings::{
    Difference, Warnings, more_at_start, prying_ceilings, warnings_on, widest_ceilings,
};
