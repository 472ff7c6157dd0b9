// Readers as machines, which take one item after another.
//
// `specs/Machines.antt` says what a run is, and what a machine owes so that it reads a language, in two forms:
// by what has been read, where the machine also makes the value, and by what may still come. From either follow
// where a text is accepted and the place at which it is refused. The crate has no calls that run.
#![tactic(auto)]
