// Where records of former children may be free.
use shim_base::NoMemory;
use std::alloc::Global;

/// Where blocks of records begin that were given back, by how many records they have. These are hints: who
/// takes one tests whether the records are free there.
#[derive(Drop)]
pub(crate) struct FreeBlocks {
    by_count: Vec<Blocks>,
}

// The blocks of one count of records: how many were put after all others, and where those begin that were
// given back. Room is asked for where a block is made, so giving one back takes no memory.
#[derive(Drop)]
struct Blocks {
    made: usize,
    free: Vec<u32>,
}

impl FreeBlocks {
    /// No block was given back yet.
    pub(crate) fn new(alloc: Global) -> FreeBlocks {
        FreeBlocks {
            by_count: Vec::new(alloc),
        }
    }

    /// Makes room for one block more of so many records to be given back.
    pub(crate) fn make_room(&mut self, alloc: Global, count: u32) -> Result<(), NoMemory> {
        let at = count as usize;
        for _ in self.by_count.len()..at + 1 {
            self.by_count.push(Blocks {
                made: 0,
                free: Vec::new(alloc),
            })?;
        }
        match self.by_count.get_mut(at) {
            None => Err(NoMemory),
            Some(blocks) => {
                let wanted = blocks.made.saturating_add(1);
                blocks
                    .free
                    .reserve(wanted.saturating_sub(blocks.free.len()))?;
                Ok(())
            }
        }
    }

    /// Where so many records may be free.
    pub(crate) fn hint(&self, count: u32) -> Option<u32> {
        match self.by_count.get(count as usize) {
            None => None,
            Some(blocks) => blocks.free.last().copied(),
        }
    }

    /// A block of so many records was put from this number on: that of the hint, or one after all others. The
    /// hint is used up.
    pub(crate) fn put(&mut self, count: u32, first: u32) {
        if let Some(blocks) = self.by_count.get_mut(count as usize) {
            let hint = blocks.free.pop();
            if hint != Some(first) {
                blocks.made = blocks.made.saturating_add(1);
            }
        }
    }

    /// So many records from this number on are free. It takes no memory: where the room is gone, they are
    /// forgotten.
    pub(crate) fn give_back(&mut self, first: u32, count: u32) {
        if let Some(blocks) = self.by_count.get_mut(count as usize) {
            if blocks.free.len() < blocks.free.capacity() {
                blocks.free.push_reserved(first);
            }
        }
    }
}
