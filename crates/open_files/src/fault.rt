use thiserror::Error;

/// Why no descriptor was opened.
#[derive(Clone, Copy, Debug, PartialEq, Eq, Error)]
pub enum OpenFault {
    /// All descriptors of the caller are open; as EMFILE of open(2).
    #[error("all descriptors of the caller are open")]
    CallerFull,
    /// As many descriptors are open as all callers may have together; as ENFILE of open(2).
    #[error("as many files are open as there may be")]
    AllFull,
}
