// Lists of bounded length that are held without allocating: what a call that may not fail for want of memory keeps its lists in.
#![tactic(auto)]

mod row;

pub use row::Row;
