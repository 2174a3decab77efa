// AppendEntries as bytes, its entries straight from the rows of the log.
ghost use Rattle.std.specs.Prelude.{length};
ghost use Rattle.wire.specs.Write.{write_message};
ghost use Rattle.wire_write.specs.Put.{Room, Wrote};
ghost use Rattle.raft_log.specs.Places.{words_of, log_of};
ghost use Rattle.raft_log.specs.Bytes.{Sound};
ghost use Rattle.sending.specs.Letters.{append_from};

use raft_log::find::term_or_zero;
use raft_log::row::LogRow;
use raft_log::write::write_entries;
use wire_write::writer::Writer;

// The entries above the index `before`, with the term of the entry there.
pub fn write_append(to: &mut Writer<'_>, log: &[LogRow], term: u64, before: u64, commit: u64)
    requires sound { Sound (length log.now) (words_of log.now) }
    requires room { Room (length (write_message (append_from (log_of log.now) term before commit))) to.old }
    ensures { Wrote (write_message (append_from (log_of log.now) term before commit)) to.old to.new }
{
    let before_term = term_or_zero(log, before);
    let count = (log.len() as u64).saturating_sub(before);
    to.append_head(term, before, before_term, commit, count);
    write_entries(to, log, before as usize);
}
