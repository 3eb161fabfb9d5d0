//! Where an object stands among those of its kind.
ghost use Rattle.std.specs.Prelude.{◌≡◌, slice_index_or};

/// The place of each object among those of its kind: of pools by the pool's number (`PoolId::no`), of lists and disks by the device's, of
/// books by the writer's. A call finds its object by one look, and takes no memory for it. The place is 0 where there is no such object.
#[derive(Clone, Copy)]
pub struct ObjectIndex {
    /// Of the pools of bios.
    pub bios: [u32; 66],
    /// Of the pools of records.
    pub records: [u32; 66],
    /// Of the lists of rescuers.
    pub lists: [u32; 32],
    /// Of disks.
    pub disks: [u32; 32],
    /// Of books.
    pub books: [u32; 8],
}

/// The place that a table has of a number, and 0 where it has none.
pub fn place(table: &[u32], number: u32) -> usize
    ensures { result ≡ slice_index_or table.now number 0 }
{
    table.get(number as usize).copied().unwrap_or(0) as usize
}
