// The letters of a name that is being read.
#![tactic(auto)]

ghost use Rattle.std.specs.Prelude.{◌≡◌, [], ◌∷◌, ◌++◌, ◌<◌, if◌then◌else◌, length, Some, None};
ghost use Rattle.dfdl_literals.specs.Names.{begins_name};

use crate::names::begins_some_name;
use std::marker::Model;

// The most letters of a name.
const MOST: usize = 4;

// At most four letters.
#[derive(Drop)]
pub struct Letters {
    letters: [char; MOST],
    count: usize,
}

impl Model for Letters {
    ghost use Rattle.std.specs.Prelude.{ℕ, List, take, ◌≤◌};

    ghost Value = { List ℕ };

    ghost view = { λ l. take l.count l.letters };

    ghost invariant = { λ l. l.count ≤ 4 };
}

impl Letters {
    pub fn new() -> Letters
        ensures { result ≡ [] }
    {
        Letters {
            letters: ['\0'; MOST],
            count: 0,
        }
    }

    pub fn as_slice(&self) -> &[char]
        ensures { result.now ≡ self.now }
    {
        &self.letters[..self.count]
    }

    fn len(&self) -> usize
        ensures { result ≡ length self.now }
    {
        self.as_slice().len()
    }

    // Puts a letter behind the others, if some name begins so.
    pub fn push(&mut self, c: char) -> bool
        ensures { (if begins_name (self.old ++ c ∷ []) then Some (self.old ++ c ∷ []) else None)
            ≡ (if result then Some self.new else None) }
    {
        if self.len() >= MOST {
            return false;
        }
        self.put(c);
        begins_some_name(self.as_slice())
    }

    fn put(&mut self, c: char)
        requires { length self.now < 4 }
        ensures { self.new ≡ self.old ++ c ∷ [] }
    {
        self.letters[self.count] = c;
        self.count += 1;
    }
}
