// A board, and how it begins.
ghost use Rattle.std.specs.Prelude.{◌≡◌, ◌<◌, ◌≤◌, ◌∷◌, length, replicate, All, IfOk};
ghost use Rattle.shim_board.specs.declared.content.Content.TheVariants.{Net, Nothing};

use crate::chair::Chair;
use crate::content::Content;
use crate::steps::{BoardRule, SplitChair};
use crate::view::View;
use atomic_table::Table;
use shim_base::{List, Named, NoMemory};
use std::alloc::{AllocError, Global};
use std::snapshot::Snapshot;

/// A table of slots, through which pieces of work go out to workers and come back, and a turn, which comes with the
/// net. The word of a slot is 4 times its round plus its state, EMPTY 0, FULL 1, TAKEN 2 or BACK 3; that of the turn
/// is 0 while it is free and 1 while a chair has it.
#[derive(Drop)]
pub struct Board<T, N: Named> {
    pub(crate) table: Table<Content<T, N>, View<N::Label>, Snapshot<N>, BoardRule, Global>,
    ghost sized: { (table.shared.table_id.words ≡ table.shared.table_id.slots) × (1 < table.shared.table_id.slots) × (table.shared.table_id.slots ≤ 65) },
}

// The net, and so many slots without a piece.
fn contents<T: Drop, N: Drop>(
    alloc: Global,
    slots: u64,
    net: N,
) -> Result<Vec<Content<T, N>>, AllocError>
    requires { slots ≤ 64 }
    ensures { IfOk result (λ v. v.items ≡ Net net ∷ replicate slots Nothing) }
{
    let mut contents = Vec::with_capacity(alloc, 65)?;
    contents.push(Content::Net(net))?;
    for _ in 0..slots {
        contents.push(Content::Nothing)?;
    }
    Ok(contents)
}

impl<T: Drop, N: Named + Drop> Board<T, N> {
    ghost use Rattle.shim_board.specs.Chairs.{AreAll, IsNewOn, name_of, slots_of};

    /// A board of 1 to 64 slots and 1 to 16 chairs, which have the numbers from 0. All slots are EMPTY, of
    /// round 0, and the turn is free: so says the law `opening` of a table whose chairs are new.
    pub fn new(
        alloc: Global,
        slots: u64,
        chairs: u64,
        net: N,
    ) -> Result<(Board<T, N>, List<Chair<T, N>>), NoMemory>
        requires slots { (0 < slots) × (slots ≤ 64) }
        requires chairs { (0 < chairs) × (chairs ≤ 16) }
        ensures board { IfOk result (λ made. (slots_of made.0 ≡ slots) × (name_of N.name made.0 ≡ N.name net)) }
        ensures count { IfOk result (λ made. length made.1 ≡ chairs) }
        ensures chairs { IfOk result (λ made. All (IsNewOn made.0 chairs) made.1 × AreAll made.1) }
    {
        let words = Vec::from_elem(alloc, 0u64, slots as usize + 1)?;
        let about = Snapshot::of(&net);
        let contents = contents(alloc, slots, net)?;
        let Ok((table, mut seat)) = Table::new(alloc, words.as_slice(), contents, &about) else {
            return Err(NoMemory);
        };
        let mut all = Vec::with_capacity(alloc, 16)?;
        for number in 1..chairs {
            let other = table.shared.split_seat::<SplitChair>(&mut seat);
            all.push(Chair {
                seat: other,
                number,
                seen: 0,
            })?;
        }
        all.push(Chair {
            seat,
            number: 0,
            seen: 0,
        })?;
        Ok((Board { table }, List::from(all)))
    }
}
