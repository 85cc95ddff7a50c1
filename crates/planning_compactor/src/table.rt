// First fields that are kept aside.
ghost use Rattle.planning_compactor.specs.Entries.{IsTable, Exchanged};

use heap_walk::Saved;

/// Exchanges the first field of each object of the table with the word that the table has for it. A second exchange undoes the first, so that the table has
/// targets before and after, and first fields in between.
pub(crate) fn swap(words: &mut [u64], table: &mut [Saved])
    requires table { IsTable table.old words.old }
    ensures { Exchanged table.old table.new words.old words.new }
{
    'entries: for i in 0..table.len() {
        let entry = table[i];
        let first = words[entry.start + 1];
        words[entry.start + 1] = entry.first;
        table[i] = Saved {
            start: entry.start,
            first,
        };
    }
}
