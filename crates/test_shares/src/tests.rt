//! A file for each kind of call: plans, work in shares, tables of least numbers and tables of marks.

mod least_tables;
mod mark_tables;
mod plans;
mod shares;
