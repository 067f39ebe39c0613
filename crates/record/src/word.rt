// Records in words of 64 bits, one in each: the value lowest, and the four bytes of the other fields above it. In the order of a file LLVM would write words by a call of memcpy, which
// the library would need of the program that it is linked to.
ghost use Rattle.std.specs.Prelude.{◌≡◌, ◌++◌, ◌*◌, ◌≤◌, length, drop};
ghost use Rattle.model.specs.Record.{file_of};
ghost use Rattle.record.specs.Words.{record_in, records_in};

use crate::bytes::write_record;
use model::record::Record;

// A value is below it: so much the other fields count.
const VALUES: u64 = 4294967296;

// Stays a function, as does the way back: this is one way to hold a record in a word, and `u64::from(record)` would not say which.
pub fn packed(r: Record) -> u64
    ensures { record_in result ≡ r }
{
    let fields = u32::from_le_bytes([r.kind, r.processor, r.register, r.location]);
    u64::from(r.value) + u64::from(fields) * VALUES
}

#[tactic(auto, unfolding(crate::specs::Words::record_in))]
pub fn unpacked(w: u64) -> Record
    ensures { result ≡ record_in w }
{
    let [kind, processor, register, location] = ((w / VALUES) as u32).to_le_bytes();
    Record {
        kind,
        processor,
        register,
        location,
        value: (w % VALUES) as u32,
    }
}

// The room begins with these records; what stands behind is kept.
pub fn write_records(room: &mut [u8], words: &[u64])
    requires { length words.now * Record.BYTES ≤ length room.old }
    ensures { room.new ≡ file_of (records_in words.now) ++ drop (length words.now * Record.BYTES) room.old }
{
    for (i, word) in words.iter().enumerate() {
        write_record(room, i, unpacked(*word));
    }
}
