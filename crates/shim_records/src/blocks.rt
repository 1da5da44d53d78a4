// Items that lie together, as the states or the records of a fork's children do.
ghost use Rattle.std.specs.Prelude.{◌≡◌, ◌≤◌, ◌<◌, ◌+◌, vec_len, vec_capacity};
ghost use Rattle.shim_records.specs.Blocks.{with_one, with_block};

// Puts one item in place of another, or after all others.
fn put_one<T: Drop>(items: &mut Vec<T>, at: usize, item: T)
    requires within { at ≤ vec_len items.old }
    requires room { at < vec_capacity items.old }
    ensures items { items.new.items ≡ with_one at item items.old.items }
    ensures len { at < vec_len items.new }
    ensures capacity { vec_capacity items.new ≡ vec_capacity items.old }
{
    if at < items.len() {
        items[at] = item;
    } else {
        items.push_reserved(item);
    }
}

/// Puts the items of a block from the number `first` on, in place of others or after all others. It takes no
/// memory.
pub fn put_block<T: Drop>(items: &mut Vec<T>, first: usize, block: Vec<T>)
    requires within { first ≤ vec_len items.old }
    requires room { first + vec_len block ≤ vec_capacity items.old }
    ensures { items.new.items ≡ with_block first block.items items.old.items }
{
    let mut at = first;
    for item in block {
        put_one(items, at, item);
        at += 1;
    }
}
