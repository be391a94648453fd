//! The length of a common prefix.

/// The length of the common prefix of two paths, and how many places were compared to find it.
#[derive(Clone, Copy, Debug, PartialEq, Eq)]
pub struct Common {
    /// The length of the longest common prefix.
    pub length: usize,

    /// The number of places that were compared.
    pub compared: usize,
}
