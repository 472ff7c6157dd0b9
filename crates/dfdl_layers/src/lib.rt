//! Readers in layers, which tell of each refused text its place and its cause.
//!
//! `specs/Causes.antt` says what the cause at a place is, over rules that leave fewer and fewer
//! texts. `specs/Tellers.antt` says what a machine that takes one item after another owes so that
//! it tells place and cause. `specs/Bytes.antt` makes of a machine over characters one over the
//! bytes of their coding, and `specs/Allowed.antt` one that takes only allowed characters. The
//! crate has no calls that run.
#![tactic(auto)]
