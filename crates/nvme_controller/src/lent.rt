//! What comes of work over the host's memory, which a program in C lends.

/// What the work gives, and the bytes of the memory, which are returned.
#[derive(Drop)]
pub(crate) struct Lent<'a, T: Drop> {
    pub(crate) value: T,
    pub(crate) memory: &'a mut [u8],
}
