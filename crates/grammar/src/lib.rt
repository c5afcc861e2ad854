//! Grammars as tables: what a line is made of is data, with one meaning, one reader, and their laws proved once.
//!
//! # What it is for
//!
//! A line of a grammar is a row of a table, a value of the type `Part` (`specs/Table.antt`): tokens, lower lines, lines one level
//! deeper, lines of another grammar, sequence, choice, repetition, conditions on the value read so far. `Reads` is what a row
//! reads: a relation with one case a part, so that a row is the definition's case. A reading carries its height: `node` adds one.
//!
//! # What is proved
//!
//! Of each table whose lines pass the checks of `specs/Levels.antt` (`IsGood`, computed line by line):
//!
//! - readings at most n levels high are those with n levels left (`proofs/Readings.antt`);
//! - the reader (`readers`) gives for a whole list its one reading, or the first token at which no reading goes on, or the first with
//!   which readings go on, but none within the limit, and this answer is the only one (`proofs/Answers.antt`: `is_answer`,
//!   `one_answer`, `one_reading`);
//! - the reader of a line is that of its row, for code that goes along it (`proofs/Along.antt`, `proofs/Operators.antt`);
//! - a kind of token that no line names stands in no reading (`proofs/Tokens.antt`);
//! - where each action keeps heights, the height of a reading is that of what is read (`proofs/Heights.antt`), and a limit on the
//!   lines of another grammar is one on what is read (`proofs/Measures.antt`).
//!
//! There is no code here.
//!
//! # What tests alone show
//!
//! Nothing.
#![tactic(auto)]
