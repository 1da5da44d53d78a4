// A child that has ended or died goes on no more.
ghost use Rattle.shim_records.specs.CountingOff.{HasCountedOff};

use crate::record::Record;

/// The process of the record goes on no more: its parent's record, if there is one, counts one child less.
pub fn count_off(records: &mut Vec<Record>, at: usize)
    ensures { HasCountedOff at records.old.items records.new.items }
{
    if at >= records.len() {
        return;
    }
    let parent = match records[at].parent {
        None => return,
        Some(parent) => parent as usize,
    };
    if parent >= records.len() {
        return;
    }
    let record = &mut records[parent];
    record.going_children = record.going_children.saturating_sub(1);
}
