//! Tests of all crates, and nothing else: what no clause says. That calls succeed where memory is there, that the
//! definitions mean what the worked examples say, and what is printed.
#![tactic(auto)]

#[cfg(test)]
mod base;
#[cfg(test)]
mod bounds;
#[cfg(test)]
mod certificates;
#[cfg(test)]
mod consoles;
#[cfg(test)]
mod deeds;
#[cfg(test)]
mod instructions;
#[cfg(test)]
mod lookups;
#[cfg(test)]
mod open_files;
#[cfg(test)]
mod orders;
#[cfg(test)]
mod outputs;
#[cfg(test)]
mod processes;
#[cfg(test)]
mod schedules;
#[cfg(test)]
mod searches;
#[cfg(test)]
mod serving;
#[cfg(test)]
mod sets;
#[cfg(test)]
mod tables;
#[cfg(test)]
mod tasks;
#[cfg(test)]
mod text_checks;
#[cfg(test)]
mod text_parts;
#[cfg(test)]
mod told_faults;
#[cfg(test)]
mod trees;
#[cfg(test)]
mod writers;
