// Where a form stands: in braces, or in a row of so many cells, at one of them.
ghost use Rattle.std.specs.Prelude.{◌≡◌, ℕ, suc, ◌≤◌, ◌<◌, eqb};
ghost use Rattle.model.specs.Sizes.{processors};
ghost use Rattle.litmus_model.specs.Forms.{is_end};
ghost use Rattle.litmus_model.specs.Reader.{leaves};
ghost use Rattle.litmus_form.specs.Places.{context_of, next_column, mark_in, flags_in, processor_in, blank_in, next_in};

use crate::forms::COUNT;
use crate::patterns::is_mark;
use litmus_token::words::same_bytes;
use model::record::Record;
use std::marker::Model;

// A cell of a row: how many there are, at most as many as processors, and which it is.
#[derive(Clone, Copy)]
pub struct Column {
    pub of: usize,
    pub at: usize,
}

impl Model for Column {
    ghost use Rattle.std.specs.Prelude.{ℕ, ◌<◌, ◌≤◌};
    ghost use Rattle.model.specs.Sizes.{processors};

    ghost Value = { ℕ × ℕ };

    ghost view = { λ c. (c.of, c.at) };

    ghost inverse = { λ v. record { of = v.0; at = v.1 } };

    ghost invariant = { λ c. (c.at < c.of) × (c.of ≤ processors) };
}

impl Column {
    // The first of so many.
    pub fn first(of: usize) -> Column
        requires { (0 < of) × (of ≤ processors) }
        ensures { result ≡ (of, 0) }
    {
        Column { of, at: 0 }
    }

    fn is_first(&self) -> bool
        ensures { result ≡ eqb self.now.1 0 }
    {
        self.at == 0
    }

    fn is_last(&self) -> bool
        ensures { result ≡ eqb (suc self.now.1) self.now.0 }
    {
        self.at + 1 == self.of
    }

    fn processor(&self) -> u8
        ensures { result ≡ self.now.1 }
    {
        self.at as u8
    }

    // Behind a row's last cell comes the first of the next row.
    fn next(&self) -> Column
        ensures { result ≡ next_column self.now }
    {
        let at = if self.at + 1 == self.of {
            0
        } else {
            self.at + 1
        };
        Column { of: self.of, at }
    }
}

#[derive(Clone, Copy)]
pub enum Place {
    Braces,
    Row(Column),
}

// The mark that closes a row's cell there.
pub fn mark_in(place: &Place) -> u8
    ensures { result ≡ mark_in place.now }
{
    match place {
        Place::Row(column) if !column.is_last() => b'|',
        _ => b';',
    }
}

// The forms that may begin there.
pub fn flags_in(place: &Place) -> [bool; COUNT]
    ensures { result ≡ flags_in place.now }
{
    match place {
        Place::Braces => [
            true, true, false, false, false, false, false, false, false, false, false, false,
        ],
        Place::Row(_) => [
            false, false, true, true, true, true, true, true, true, true, true, true,
        ],
    }
}

// The processor of a row's cell; in braces none yet.
fn processor_in(place: &Place) -> u8
    ensures { result ≡ processor_in place.now }
{
    match place {
        Place::Braces => 0,
        Place::Row(column) => column.processor(),
    }
}

// A record of which nothing is said yet but, in a row, the processor.
pub fn blank_in(place: &Place) -> Record
    ensures { result ≡ blank_in place.now }
{
    Record {
        kind: 0,
        processor: processor_in(place),
        register: 0,
        location: 0,
        value: 0,
    }
}

// The place behind it; braces go on.
pub fn next_in(place: &Place) -> Place
    ensures { result ≡ next_in place.now }
{
    match place {
        Place::Braces => Place::Braces,
        Place::Row(column) => Place::Row(column.next()),
    }
}

#[tactic(auto, unfolding(litmus_model::specs::Forms::is_end))]
fn is_end(t: &[u8]) -> bool
    ensures { result ≡ is_end t.now }
{
    same_bytes(b"exists", t) | same_bytes(b"~exists", t) | same_bytes(b"forall", t)
}

// The token ends the initial cells, or the rows.
pub fn leaves_in(place: &Place, t: &[u8]) -> bool
    ensures { result ≡ leaves (context_of place.now) t.now }
{
    match place {
        Place::Braces => is_mark(b'}', t),
        Place::Row(column) => column.is_first() & is_end(t),
    }
}
