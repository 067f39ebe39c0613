// From the records of a text to a table in the lent room.
ghost use Rattle.litmus.specs.Tabled.{Tabled};

use crate::readable::readable;
use litmus_reader::records::{MOST, Records};
use model::answer::{Answer, Refusal};
use model::record::Record;
use record::word::write_records;

// The answer where a text gives these records: the table's numbers, then 13, then the records go into the room.
pub fn tabled(records: &Records, room: &mut [u8]) -> Answer
    ensures { Tabled records.now room.old result room.new }
{
    let k = records.count.min(MOST);
    readable(&records.words[..k])?;
    // A table that passes has fewer than MOST records: all are kept.
    let end = Record::BYTES * k;
    if room.len() < end {
        return Err(Refusal::RoomTooSmall.at(end));
    }
    write_records(room, &records.words[..k]);
    Ok(records.count)
}
