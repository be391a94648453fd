//! Which spans of a trace are left out.

/// Which spans of a trace are left out.
#[derive(Clone, Copy, Debug, PartialEq, Eq)]
pub struct Cut {
    /// Spans that took fewer nanoseconds are left out.
    pub min_time: u64,

    /// Spans nested in `depth` or more spans are left out, counting those of processes, threads and
    /// traces. `None` keeps spans of any depth.
    pub depth: Option<usize>,
}
