//! Namespaces.

/// A namespace, without its NSID and its attachments.
#[derive(Clone, Copy, Debug, PartialEq, Eq)]
pub struct Namespace {
    /// The capacity in bytes.
    pub capacity: u64,
    /// The index of its format, 0 to 15.
    pub format: u8,
    /// Whether metadata lies at the end of each logical block.
    pub extended: bool,
    /// Whether more than one controller may have it attached.
    pub shared: bool,
}
