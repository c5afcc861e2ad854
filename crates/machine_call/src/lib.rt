//! The machine's turns for calls.
//!
//! # What it is for
//!
//! `apply` calls a value for the code that runs, with its step; `enter_call` without one; `invoke` for the runner too. `take_caller` goes
//! back to the caller behind a call's end, `take_new` behind the end of an `__init__`.
//!
//! # What is proved
//!
//! - Each goes on as the meaning of a call says (`next`): a function must not yield, the arguments must fit its parameters, then no more
//!   than 200 functions may be open, and the caller's names and temporaries are there again behind the call; a method has its receiver
//!   before the arguments; a call takes a step; a built-in function or method, a class of a built-in kind and a mark that was not called
//!   pay for what they make; another class makes an instance, whose `__init__` is called where there is one, and which is given whatever
//!   that gives. No step is gained (`left`), and what is left to do falls (`work`).
//! - `call_fitting` enters a function with the names with which its body begins.
//!
//! # What tests alone show
//!
//! That calls end where there is memory, in `machine_tests` through the whole machine.
//!
//! # What neither shows
//!
//! Time and memory.
#![tactic(auto)]

mod builtins;
pub mod call;
mod class;
pub mod enter;
mod objects;
