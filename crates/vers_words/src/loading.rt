//! The result of parsing the arguments of a load line.

/// The result of parsing the arguments of a load line.
#[derive(Drop)]
pub enum Loading<T> {
    /// The line does not take these arguments.
    Malformed,
    /// They are well formed, but outside its limits.
    Inadmissible,
    /// They represent this value.
    Accepted(T),
}
