// The letters of locations, in order of first appearance.
ghost use Rattle.std.specs.Prelude.{◌≡◌, [], ◌==◌, position};
ghost use Rattle.litmus_said.specs.Saying.{Locates};

use model::table::Cells;
use std::marker::Model;

// The first `count` of `seen`, as many as there are locations at most. Its fields are public: a caller may begin with any letters, given twice too.
// Not Copy, since the view forgets what is behind them. Stays its own: an ArrayVec would say nothing of letters.
#[derive(Clone, Drop)]
pub struct Letters {
    pub seen: [u8; Cells::LOCATIONS],
    pub count: usize,
}

impl Model for Letters {
    ghost use Rattle.std.specs.Prelude.{ℕ, List, ◌≤◌, take};
    ghost use Rattle.model.specs.Sizes.{locations};

    ghost Value = { List ℕ };

    ghost view = { λ l. take l.count l.seen };

    ghost invariant = { λ l. l.count ≤ locations };
}

impl Letters {
    pub fn new() -> Letters
        ensures { result ≡ [] }
    {
        Letters {
            seen: [0; Cells::LOCATIONS],
            count: 0,
        }
    }

    // Where x stands among them, if it does.
    fn place_of(&self, x: u8) -> Option<usize>
        ensures { result ≡ position (λ y. y == x) self.now }
    {
        self.seen[..self.count].iter().position(|y| *y == x)
    }

    // The number of location x, which is seen already or joins; none: it would be the ninth.
    pub fn locate(&mut self, x: u8) -> Option<usize>
        ensures { Locates self.old x result self.new }
    {
        if let Some(i) = self.place_of(x) {
            return Some(i);
        }
        let i = self.count;
        if i == Cells::LOCATIONS {
            return None;
        }
        self.seen[i] = x;
        self.count = i + 1;
        Some(i)
    }
}
