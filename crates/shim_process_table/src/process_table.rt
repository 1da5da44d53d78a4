// States and records that show a tree.
ghost use Rattle.std.specs.Prelude.{◌≡◌, [], ◌∷◌, IfOk};
ghost use Rattle.shim_semantics.specs.Nodes.{Live};
ghost use Rattle.shim_semantics.specs.Sound.{SharesItsOwn};
ghost use Rattle.shim_laws_table_events.specs.keeping.Tables.{TableInvariant, IsOfRoot};

use crate::free_blocks::FreeBlocks;
use shim_base::NoMemory;
use shim_local::Local;
use shim_records::{Record, Status};
use std::alloc::Global;
use std::marker::Model;

/// A tree of processes: their states, and side by side with these what is kept of each process. A process's
/// number is its place in both. Contracts see the two lists, and its type keeps that they show a tree.
#[derive(Drop)]
pub struct ProcessTable<L: Local> {
    pub(crate) states: Vec<L>,
    pub(crate) records: Vec<Record>,
    pub(crate) free: FreeBlocks,
}

impl<L: Local> Model for ProcessTable<L> {
    ghost use Rattle.shim_laws_table_events.specs.keeping.Tables.{TableView, HasTableInvariant};

    ghost Value = { TableView L };

    ghost view = { λ f. record { states = f.states.items; records = f.records.items } };

    ghost invariant = { λ f. HasTableInvariant L.ops (record { states = f.states.items; records = f.records.items }) };
}

impl<L: Local> ProcessTable<L> {
    /// One live process, to which nothing has happened. It has the path of a root, and shares channels of its
    /// own alone.
    pub fn start(alloc: Global, root: L) -> Result<ProcessTable<L>, NoMemory>
        requires path { L.ops.path root ≡ [] }
        requires own { SharesItsOwn L.ops root }
        ensures represents { IfOk result (λ table. TableInvariant L.ops [] table (Live root)) }
        ensures states { IfOk result (λ table. table.states ≡ root ∷ []) }
    {
        let record = root_record(alloc, &root)?;
        let mut states = Vec::new(alloc);
        let mut records = Vec::new(alloc);
        states.push(root)?;
        records.push(record)?;
        Ok(ProcessTable {
            states,
            records,
            free: FreeBlocks::new(alloc),
        })
    }
}

// The record of a root.
fn root_record<L: Local>(alloc: Global, root: &L) -> Result<Record, NoMemory>
    ensures sound { L.ops.sound root.now }
    ensures record { IfOk result (λ r. IsOfRoot L.ops root.now r) }
{
    let path = root.path().copy()?;
    Ok(Record {
        status: Status::Live,
        first: 0,
        parent: None,
        path,
        going_children: 0,
        pairs: Vec::new(alloc),
    })
}
