//! The kinds of tokens by number, so that a set of kinds is a list of numbers and what must be disjoint is computed.
//!
//! # What it is for
//!
//! `specs/Numbers.antt` names the number of each kind, `specs/Kinds.antt` gives the number of a token, the text of a name or a
//! literal, and a part that reads one token of a kind. The tables of the grammar and the code that reads by them stand on these.
//!
//! # What is proved
//!
//! There is no code here, and nothing is promised: that the numbers are apart is computed where sets of them are.
#![tactic(auto)]
