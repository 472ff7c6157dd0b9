// The names of entities and classes.
#![tactic(auto)]

ghost use Rattle.std.specs.Prelude.{◌≡◌, map};
ghost use Rattle.dfdl_literals.specs.Names.{begins_in, begins_name, is_empty_name, named, named_in, row_of};

use crate::Piece;

pub struct Row {
    name: &'static [char],
    piece: Piece,
}

static ROWS: [Row; 41] = [
    Row {
        name: &['N', 'U', 'L'],
        piece: Piece::Char('\u{0}'),
    },
    Row {
        name: &['S', 'O', 'H'],
        piece: Piece::Char('\u{1}'),
    },
    Row {
        name: &['S', 'T', 'X'],
        piece: Piece::Char('\u{2}'),
    },
    Row {
        name: &['E', 'T', 'X'],
        piece: Piece::Char('\u{3}'),
    },
    Row {
        name: &['E', 'O', 'T'],
        piece: Piece::Char('\u{4}'),
    },
    Row {
        name: &['E', 'N', 'Q'],
        piece: Piece::Char('\u{5}'),
    },
    Row {
        name: &['A', 'C', 'K'],
        piece: Piece::Char('\u{6}'),
    },
    Row {
        name: &['B', 'E', 'L'],
        piece: Piece::Char('\u{7}'),
    },
    Row {
        name: &['B', 'S'],
        piece: Piece::Char('\u{8}'),
    },
    Row {
        name: &['H', 'T'],
        piece: Piece::Char('\u{9}'),
    },
    Row {
        name: &['L', 'F'],
        piece: Piece::Char('\u{a}'),
    },
    Row {
        name: &['V', 'T'],
        piece: Piece::Char('\u{b}'),
    },
    Row {
        name: &['F', 'F'],
        piece: Piece::Char('\u{c}'),
    },
    Row {
        name: &['C', 'R'],
        piece: Piece::Char('\u{d}'),
    },
    Row {
        name: &['S', 'O'],
        piece: Piece::Char('\u{e}'),
    },
    Row {
        name: &['S', 'I'],
        piece: Piece::Char('\u{f}'),
    },
    Row {
        name: &['D', 'L', 'E'],
        piece: Piece::Char('\u{10}'),
    },
    Row {
        name: &['D', 'C', '1'],
        piece: Piece::Char('\u{11}'),
    },
    Row {
        name: &['D', 'C', '2'],
        piece: Piece::Char('\u{12}'),
    },
    Row {
        name: &['D', 'C', '3'],
        piece: Piece::Char('\u{13}'),
    },
    Row {
        name: &['D', 'C', '4'],
        piece: Piece::Char('\u{14}'),
    },
    Row {
        name: &['N', 'A', 'K'],
        piece: Piece::Char('\u{15}'),
    },
    Row {
        name: &['S', 'Y', 'N'],
        piece: Piece::Char('\u{16}'),
    },
    Row {
        name: &['E', 'T', 'B'],
        piece: Piece::Char('\u{17}'),
    },
    Row {
        name: &['C', 'A', 'N'],
        piece: Piece::Char('\u{18}'),
    },
    Row {
        name: &['E', 'M'],
        piece: Piece::Char('\u{19}'),
    },
    Row {
        name: &['S', 'U', 'B'],
        piece: Piece::Char('\u{1a}'),
    },
    Row {
        name: &['E', 'S', 'C'],
        piece: Piece::Char('\u{1b}'),
    },
    Row {
        name: &['F', 'S'],
        piece: Piece::Char('\u{1c}'),
    },
    Row {
        name: &['G', 'S'],
        piece: Piece::Char('\u{1d}'),
    },
    Row {
        name: &['R', 'S'],
        piece: Piece::Char('\u{1e}'),
    },
    Row {
        name: &['U', 'S'],
        piece: Piece::Char('\u{1f}'),
    },
    Row {
        name: &['S', 'P'],
        piece: Piece::Char('\u{20}'),
    },
    Row {
        name: &['D', 'E', 'L'],
        piece: Piece::Char('\u{7f}'),
    },
    Row {
        name: &['N', 'E', 'L'],
        piece: Piece::Char('\u{85}'),
    },
    Row {
        name: &['N', 'B', 'S', 'P'],
        piece: Piece::Char('\u{a0}'),
    },
    Row {
        name: &['L', 'S'],
        piece: Piece::Char('\u{2028}'),
    },
    Row {
        name: &['N', 'L'],
        piece: Piece::NewLine,
    },
    Row {
        name: &['W', 'S', 'P'],
        piece: Piece::Space,
    },
    Row {
        name: &['W', 'S', 'P', '+'],
        piece: Piece::Spaces,
    },
    Row {
        name: &['W', 'S', 'P', '*'],
        piece: Piece::MaybeSpaces,
    },
];

// What the name stands for.
pub fn piece_named(name: &[char]) -> Option<Piece>
    ensures { result ≡ named name.now }
{
    named_among(&ROWS, name)
}

// Whether some name begins with these characters.
pub fn begins_some_name(front: &[char]) -> bool
    ensures { result ≡ begins_name front.now }
{
    begins_among(&ROWS, front)
}

// Whether it is the name of the empty literal.
pub fn names_nothing(name: &[char]) -> bool
    ensures { result ≡ is_empty_name name.now }
{
    name == ['E', 'S'].as_slice()
}

fn named_among(rows: &[Row], name: &[char]) -> Option<Piece>
    ensures { result ≡ named_in (map row_of rows.now) name.now }
{
    for row in rows {
        if row.name == name {
            return Some(row.piece);
        }
    }
    None
}

fn begins_among(rows: &[Row], front: &[char]) -> bool
    ensures { result ≡ begins_in (map row_of rows.now) front.now }
{
    for row in rows {
        if row.name.starts_with(front) {
            return true;
        }
    }
    false
}
