// What literals that are texts stand for.
ghost use Rattle.std.specs.Prelude.{◌≡◌, ◌++◌, IfOk, OnOk, chars};
ghost use Rattle.std.specs.String.{string_bytes};
ghost use Rattle.dfdl_expression_tree.specs.TokenLists.{coded};
ghost use Rattle.dfdl_expression_tree.specs.Quotes.{unquoted};
ghost use Rattle.dfdl_expression_tree.specs.Quoting.{quoted_next, quoted_tells, told_bytes};

use std::alloc::{AllocError, Global};
use std::string::String;

/// Where in a literal the next character stands.
#[derive(Clone, Copy, Debug, PartialEq, Eq)]
pub(crate) enum Quoting {
    /// At its first quote.
    Unopened,
    /// In these quotes.
    Inside(char),
    /// Behind a quote that ends it or is the first of two.
    Behind(char),
}

impl Quoting {
    /// Where the character leads.
    fn next(self, c: char) -> Quoting
        ensures { result ≡ quoted_next self c }
    {
        match self {
            Quoting::Unopened => Quoting::Inside(c),
            Quoting::Inside(quote) => {
                if c == quote {
                    Quoting::Behind(quote)
                } else {
                    Quoting::Inside(quote)
                }
            }
            Quoting::Behind(quote) => Quoting::Inside(quote),
        }
    }

    /// The character of the text that is told by this one, if one is.
    fn tells(self, c: char) -> Option<char>
        ensures { result ≡ quoted_tells self c }
    {
        match self {
            Quoting::Unopened => None,
            Quoting::Inside(quote) => { if c == quote { None } else { Some(c) } }
            Quoting::Behind(quote) => Some(quote),
        }
    }
}

/// Puts the character behind the text, if there is one.
fn put(text: &mut String, told: Option<char>) -> Result<(), AllocError>
    ensures { OnOk result (string_bytes text.new ≡ string_bytes text.old ++ told_bytes told) }
{
    match told {
        Some(c) => text.push(c),
        None => Ok(()),
    }
}

/// The text that a literal in quotes stands for: what is between them, where two quotes stand for one.
pub fn unquoted(alloc: Global, written: &str) -> Result<String, AllocError>
    ensures { IfOk result (λ text. string_bytes text ≡ coded (unquoted (chars written.now))) }
{
    let mut text = String::new(alloc);
    let mut quoting = Quoting::Unopened;
    for c in written.chars() {
        put(&mut text, quoting.tells(c))?;
        quoting = quoting.next(c);
    }
    Ok(text)
}
