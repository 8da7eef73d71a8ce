//! The queries are in tables. Helpers with a generic allocator make the lists and query them, through a trait
//! that both types have, and a test compares their answers.
mod memory;
mod minima;
mod queries;
mod scans;
