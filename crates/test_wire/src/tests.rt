//! Worked bytes, each call with ample memory.

mod fields;
mod frames;
mod requests;
