// Numbers of records at which something may have become possible.
ghost use Rattle.shim_process_table.specs.Lookups.{IsInUse, IsForAll};
ghost use Rattle.shim_process_table.specs.Touching.{ListsAbove};

use crate::lookups::parent_in;
use crate::process_table::ProcessTable;
use shim_local::Local;
use shim_records::Worklist;

impl<L: Local> ProcessTable<L> {
    /// Lists the first so many forks above a process in use. It takes no memory.
    pub fn list_above(&self, number: u32, forks: u64, list: &mut Worklist)
        requires used { IsInUse self.now number }
        requires room { IsForAll self.now list.old }
        ensures { ListsAbove self.now forks number list.old list.new }
    {
        let records = self.records.as_slice();
        let mut here = number;
        for walked in 0..forks {
            match parent_in(records, here) {
                None => return,
                Some(fork) => {
                    list.add(fork);
                    here = fork;
                }
            }
        }
    }
}
