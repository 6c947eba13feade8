//! What a turn is done under.

ghost use Rattle.std.specs.Prelude.{◌<◌, ◌≤◌};
ghost use Rattle.nv_prp.specs.Transfer.{most_bytes};

/// A namespace whose data is lent to a turn.
#[derive(Clone, Copy)]
pub struct Namespace {
    /// Its NSID, from 1 to FFFFFFFEh.
    pub nsid: u32,
    /// How many bytes a block has, with its metadata if the format extends blocks by it.
    pub block_size: u32,
    ghost no_zero: { 0 < nsid },
    ghost no_broadcast: { nsid < 4294967295 },
    ghost some_bytes: { 0 < block_size },
}

/// What a turn is done under.
#[derive(Clone, Copy)]
pub struct Terms {
    /// The identifier of the submission queue.
    pub sqid: u16,
    /// The namespace whose data is lent, if any is.
    pub namespace: Option<Namespace>,
    /// The greatest transfer in bytes (MDTS), at most 1,048,576.
    pub limit: u32,
    /// Whether no more data can be stored.
    pub is_exhausted: bool,
    ghost few: { limit ≤ most_bytes },
}
