// Where a text stops being the front of any text of a language.
//
// The words of a command, documents, lists of literals, number patterns and expressions are refused at the first
// byte or word at which none of them can go on. `specs/Fronts.antt` says what that place is, once for all of them;
// each reader's contract cites it over its own grammar. The crate has no calls that run.
#![tactic(auto)]
