//! The text of certificates, versions 1 to 4: read and written, one spelling for each.
#![tactic(auto)]

mod descriptors;
pub mod faults;
mod gathering;
mod keywords;
mod line_texts;
mod lines;
pub mod reading;
mod taking;
mod words;
pub mod writing;

pub use faults::CertFault;
pub use reading::read_cert;
pub use writing::write_cert;
