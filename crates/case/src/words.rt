// Words, and numbers of two words, as bytes: lowest first.
ghost use Rattle.std.specs.Prelude.{◌≡◌, ◌++◌, ◌+◌, ◌*◌, ◌≤◌, length, drop};
ghost use Rattle.case.specs.Words.{words_in, bytes_in, with_long};

use record::bytes::{WORD, put_value, value_at};

// The bytes of a number of two words, and what its second word counts.
pub const LONG: usize = WORD + WORD;

const SECOND: u64 = 4294967296;

// The bytes from `at` on become those of v. Stays in two words: `with_long` says it so, and each is put as any value is.
pub fn put_long(bytes: &mut [u8], at: usize, v: u64)
    requires { at + LONG ≤ length bytes.old }
    ensures { bytes.new ≡ with_long bytes.old at v }
{
    put_value(bytes, at, (v % SECOND) as u32);
    put_value(bytes, at + WORD, (v / SECOND) as u32);
}

// The words become those that the bytes begin with.
pub fn read_words(words: &mut [u32], bytes: &[u8])
    requires { length words.old * WORD ≤ length bytes.now }
    ensures { words.new ≡ words_in bytes.now (length words.old) }
{
    for (i, word) in words.iter_mut().enumerate() {
        *word = value_at(bytes, i * WORD);
    }
}

// The bytes begin with those of the words; what stands behind is kept.
pub fn write_words(bytes: &mut [u8], words: &[u32])
    requires { length words.now * WORD ≤ length bytes.old }
    ensures { bytes.new ≡ bytes_in words.now ++ drop (length words.now * WORD) bytes.old }
{
    for (i, word) in words.iter().enumerate() {
        put_value(bytes, i * WORD, *word);
    }
}
