//! The table of open descriptors, as open(2), close(2) and getdtablesize(2) see it: each caller has 32 descriptors, and
//! all callers together have a limited number of open files.
#![tactic(auto)]

mod fault;
mod places;
mod table;
#[cfg(test)]
mod tests;

pub use fault::OpenFault;
pub use places::DESCRIPTORS;
pub use table::OpenTable;
