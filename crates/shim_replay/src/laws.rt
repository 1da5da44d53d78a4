// Laws of the text of journals.
ghost use Rattle.shim_replay.specs.Laws.{EntryLines, OneJournal, OneText, WrittenIsRead};

/// A text is read as an entry exactly where it begins with the line of that entry, and the entry's numbers are in
/// range.
pub fn entry_lines()
    ensures { EntryLines }
{}

/// A text with fewer than 4,294,967,295 line feeds is that of one budget and one list of entries at most.
pub fn one_journal()
    ensures { OneJournal }
{}

/// A budget and entries have one text at most.
pub fn one_text()
    ensures { OneText }
{}

/// What was written is read back: of the text of a budget and of entries, reading answers these, unless memory
/// runs out.
pub fn written_is_read()
    ensures { WrittenIsRead }
{}
