//! The markup of schema documents: XML as far as schemas need it, its rules, and the machine that
//! reads it.
//!
//! `specs/Grammar.antt` has what may be written as plain data, `specs/Values.antt` what values, names
//! and prefixes come to, `specs/Rules.antt` the rules, numbered as the causes of refusals are, and
//! `specs/Trees.antt` the tree of a document. `specs/Documents.antt` says of bytes whether they are a
//! document, and which cause a refusal has. `specs/Machine.antt` and `specs/Building.antt` are a
//! reader as functions; `laws` says that it tells of bytes what the rules do ('Extensible Markup
//! Language (XML) 1.0', fifth edition, and 'Namespaces in XML 1.0', third edition).
#![tactic(auto)]

pub mod laws;
