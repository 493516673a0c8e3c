//! Texts: their parts and lines, the numbers and names in them, and texts that grow.
#![tactic(auto)]

pub mod digits;
pub mod hex;
pub mod lines;
pub mod names;
pub mod numbers;
pub mod pages;
pub mod parts;
pub mod words;

pub use digits::Decimal;
pub use hex::{eight_digits, four_digits, one_digit, read_hex};
pub use lines::{Line, Lines};
pub use names::{Name, is_name};
pub use numbers::{NumberFault, begins_well, compare_numbers, is_number, number_up_to};
pub use pages::{Page, Say, ToldRights};
pub use parts::first_part;
pub use words::Words;
