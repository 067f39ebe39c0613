// A whole text.
ghost use Rattle.litmus_reader.specs.Forming.{TextRead};

use crate::forms::read_forms;
use crate::head::read_head;
use crate::headings::read_headings;
use crate::records::Records;
use litmus_form::place::{Column, Place};
use litmus_said::letter::Letters;
use model::answer::Verdict;

// The records that the text gives, or its refusal.
pub fn read_text(text: &[u8], records: &mut Records) -> Verdict
    ensures { TextRead text.now result records.new }
{
    let mut letters = Letters::new();
    records.count = 0;
    let cells = read_head(text)?;
    let headings = read_forms(text, cells, Place::Braces, &mut letters, records)?;
    let (n, rows) = read_headings(text, headings)?;
    let row = Place::Row(Column::first(n));
    read_forms(text, rows, row, &mut letters, records)?;
    Ok(())
}
