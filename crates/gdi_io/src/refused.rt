/// Why a file isn't read.
#[derive(Clone, Copy, Debug, PartialEq, Eq)]
pub enum ReadRefused {
    /// The shelf failed.
    Failed,
    /// The file has more than 67,108,864 bytes.
    TooLong,
    /// No memory was found for its bytes.
    NoMemory,
}
