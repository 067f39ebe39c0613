// A record as its eight bytes, and a value as its four.
ghost use Rattle.std.specs.Prelude.{◌≡◌, ◌+◌, ◌*◌, ◌≤◌, length};
ghost use Rattle.model.specs.Record.{value_at, record_at};
ghost use Rattle.record.specs.Bytes.{with_value, with_record};

use model::record::Record;

// The bytes of a value.
pub const WORD: usize = Record::BYTES - Record::VALUE;

// The value at these bytes from `at` on.
#[tactic(auto, unfolding(model::specs::Record::value_at))]
pub fn value_at(bytes: &[u8], at: usize) -> u32
    requires { at + WORD ≤ length bytes.now }
    ensures { result ≡ value_at bytes.now at }
{
    u32::from_le_bytes([bytes[at], bytes[at + 1], bytes[at + 2], bytes[at + 3]])
}

// Record i of a file.
#[tactic(auto, unfolding(model::specs::Record::record_at))]
pub fn read_record(bytes: &[u8], i: usize) -> Record
    requires { i * Record.BYTES + Record.BYTES ≤ length bytes.now }
    ensures { result ≡ record_at bytes.now i }
{
    let at = i * Record::BYTES;
    Record {
        kind: bytes[at],
        processor: bytes[at + 1],
        register: bytes[at + 2],
        location: bytes[at + 3],
        value: value_at(bytes, at + Record::VALUE),
    }
}

// The bytes from `at` on become those of v.
pub fn put_value(bytes: &mut [u8], at: usize, v: u32)
    requires { at + WORD ≤ length bytes.old }
    ensures { bytes.new ≡ with_value bytes.old at v }
{
    let [first, second, third, fourth] = v.to_le_bytes();
    bytes[at] = first;
    bytes[at + 1] = second;
    bytes[at + 2] = third;
    bytes[at + 3] = fourth;
}

// Record i of the room becomes r.
pub fn write_record(room: &mut [u8], i: usize, r: Record)
    requires { i * Record.BYTES + Record.BYTES ≤ length room.old }
    ensures { room.new ≡ with_record room.old i r }
{
    let at = i * Record::BYTES;
    room[at] = r.kind;
    room[at + 1] = r.processor;
    room[at + 2] = r.register;
    room[at + 3] = r.location;
    put_value(room, at + Record::VALUE, r.value);
}
