ghost use Rattle.std.specs.Prelude.{◌≡◌, IfOk, IfErr, IfSome, IfNone, IsTrue, ◌↔◌, List, map};
ghost use Rattle.std.specs.Prelude.{string_bytes};
ghost use Rattle.dfdl_fronts.specs.Fronts.{IsPlace};
ghost use Rattle.dfdl_run.specs.Command.{IsCommand, IsOperand, Orders, verb_word};
ghost use Rattle.dfdl_run.specs.declared.command.Verb.{Verb};
ghost use Rattle.dfdl_run.specs.CommandShown.{order_shown};

/// What is to be done.
#[derive(Debug, Clone, Copy, PartialEq, Eq)]
pub enum Verb {
    /// Data to an infoset.
    Parse,
    /// An infoset to data.
    Unparse,
}

/// A command, as its words give it.
#[derive(Debug, Clone, Copy)]
pub struct Command<'w> {
    pub verb: Verb,
    /// The name of the schema file.
    pub schema: &'w str,
}

// The command that the words are, or the number of the word, counted from 0, at which no command
// can go on.
pub(crate) fn command_of(words: &[String]) -> Result<Command<'_>, usize>
    ensures ok { IfOk result (λ c. Orders (map string_bytes words.now) (order_shown c)) }
    ensures place { IfErr result (IsPlace IsCommand (map string_bytes words.now)) }
{
    let [first, operands @ ..] = words else {
        return Err(0);
    };
    let Some(verb) = verb_of(first.as_str()) else {
        return Err(0);
    };
    let [schema, surplus @ ..] = operands else {
        return Err(1);
    };
    if !is_operand(schema.as_str()) {
        return Err(1);
    }
    if !surplus.is_empty() {
        return Err(2);
    }
    Ok(Command {
        verb,
        schema: schema.as_str(),
    })
}

// The verb of a command's word.
fn verb_of(word: &str) -> Option<Verb>
    ensures some { IfSome result (λ verb. word.now ≡ verb_word verb) }
    ensures none { IfNone result ((verb : Verb) → word.now ≡ verb_word verb → ⊥) }
{
    match word {
        "parse" => Some(Verb::Parse),
        "unparse" => Some(Verb::Unparse),
        _ => None,
    }
}

// Whether the word can be an operand.
fn is_operand(word: &str) -> bool
    ensures { IsTrue result ↔ IsOperand word.now }
{
    match word.as_bytes() {
        [] => false,
        [first, ..] => *first != b'-',
    }
}
