// A record of a table or of a trace: eight bytes, the value in the last four, lowest first.
#[derive(Clone, Copy)]
pub struct Record {
    pub kind: u8,
    pub processor: u8,
    pub register: u8,
    pub location: u8,
    pub value: u32,
}

impl Record {
    pub const BYTES: usize = 8;

    // Where in them its value begins.
    pub const VALUE: usize = 4;

    // The fields that a kind uses or not: processor, register, location, value.
    pub const FIELDS: usize = 4;
}
