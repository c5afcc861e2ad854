ghost use Rattle.std.specs.Prelude.{ℕ, List, ⊤};
ghost use Rattle.hook_order.specs.Answers.{HandsOnWant, IfEnded, IfInner};

use hook_order::{Impl, Inner, Opened, Ran, Runner, call_all, call_first, order};
use std::alloc::{AllocError, Global};
use std::fmt::Write;

/// What an implementation of the fake runner does.
#[derive(Clone, Copy)]
enum Act {
    Gives(u32),
    GivesNone,
    Raises(u32),
    WantsMemory,
    HandsOn,
    Replaces(u32),
    Swallows,
    RaisesBefore(u32),
    WantsMemoryBefore,
    RaisesBehind(u32),
    WantsMemoryBehind,
}

/// It logs its calls, and counts the wrappers that stand at their `yield`: one that goes on where none stands is logged so; the number
/// of a list is 1000.
#[derive(Drop)]
struct Fake {
    acts: Vec<Act>,
    out: u32,
    log: String,
}

impl Fake {
    fn act(&self, code: u32) -> Act {
        self.acts
            .get(code as usize)
            .copied()
            .unwrap_or(Act::GivesNone)
    }

    fn note(&mut self, what: &str, code: u32) {
        let _ = write!(self.log, "{what} {code}; ");
    }

    fn stand(&mut self, code: u32) {
        match self.out.checked_add(1) {
            Some(out) => self.out = out,
            None => self.note("too many stand", code),
        }
    }

    fn leave(&mut self, code: u32) {
        match self.out.checked_sub(1) {
            Some(out) => self.out = out,
            None => self.note("none stands", code),
        }
    }
}

impl Runner for Fake {
    type Got = u32;

    type Exc = u32;

    type Frozen = u32;

    ghost runs = { λ _. ⊤ };

    ghost waits = { λ _ _. ⊤ };

    ghost calls = { λ _ _ _ _. ⊤ };

    ghost begins = { λ _ _ _ _. ⊤ };

    ghost resumes = { λ _ _ _ _ _. ⊤ };

    fn call(&mut self, which: &Impl) -> Ran<u32, u32> {
        self.note("call", which.code);
        match self.act(which.code) {
            Act::Gives(value) => Ran::Gave(Some(value)),
            Act::GivesNone => Ran::Gave(None),
            Act::Raises(exception) => Ran::Raised(exception),
            _ => Ran::OutOfMemory,
        }
    }

    fn begin(&mut self, which: &Impl) -> Opened<u32, u32> {
        self.note("begin", which.code);
        match self.act(which.code) {
            Act::RaisesBefore(exception) => Opened::Raised(exception),
            Act::WantsMemoryBefore => Opened::OutOfMemory,
            _ => {
                self.stand(which.code);
                Opened::Yielded(which.code)
            }
        }
    }

    fn resume(&mut self, frozen: u32, inner: Inner<u32, u32>) -> Ran<u32, u32>
        ensures frames { IfInner inner (IfEnded result ((frames : List ℕ) → ⊤ → ⊤)) }
        ensures want { HandsOnWant inner result }
    {
        self.leave(frozen);
        let seen = match &inner {
            Inner::List => "resume with list",
            Inner::Gave(_) => "resume with value",
            Inner::Raised(_) => "resume with exception",
            Inner::OutOfMemory => "resume with want of memory",
        };
        self.note(seen, frozen);
        answer_to(self.act(frozen), inner)
    }
}

fn answer_to(act: Act, inner: Inner<u32, u32>) -> Ran<u32, u32>
    ensures { HandsOnWant inner result }
{
    match inner {
        Inner::OutOfMemory => Ran::OutOfMemory,
        Inner::List => outcome(act, Ran::Gave(Some(1000))),
        Inner::Gave(value) => outcome(act, Ran::Gave(value)),
        Inner::Raised(exception) => outcome(act, Ran::Raised(exception)),
    }
}

fn outcome(act: Act, handed_on: Ran<u32, u32>) -> Ran<u32, u32> {
    match act {
        Act::Replaces(value) => Ran::Gave(Some(value)),
        Act::Swallows => Ran::Gave(None),
        Act::RaisesBehind(exception) => Ran::Raised(exception),
        Act::WantsMemoryBehind => Ran::OutOfMemory,
        _ => handed_on,
    }
}

const PLAIN: (bool, bool, bool) = (false, false, false);

const FIRST: (bool, bool, bool) = (false, true, false);

const LAST: (bool, bool, bool) = (false, false, true);

const BOTH: (bool, bool, bool) = (false, true, true);

const WRAPPER: (bool, bool, bool) = (true, false, false);

const FIRST_WRAPPER: (bool, bool, bool) = (true, true, false);

const LAST_WRAPPER: (bool, bool, bool) = (true, false, true);

fn implementation(registered: u32, flags: (bool, bool, bool), code: u32) -> Impl {
    Impl {
        registered,
        wrapper: flags.0,
        first: flags.1,
        last: flags.2,
        node: 0,
        code,
    }
}

/// How four implementations are registered, and their numbers of registration in order of call (pluggy's documentation, "Call time
/// order"; pytest's, "Hook function ordering / call example").
const ORDERS: [([(bool, bool, bool); 4], [u32; 4]); 6] = [
    ([PLAIN, PLAIN, PLAIN, PLAIN], [3, 2, 1, 0]),
    ([FIRST, LAST, WRAPPER, PLAIN], [2, 0, 3, 1]),
    ([LAST, LAST, PLAIN, LAST], [2, 0, 1, 3]),
    ([FIRST, FIRST, PLAIN, BOTH], [3, 1, 0, 2]),
    (
        [LAST_WRAPPER, WRAPPER, FIRST_WRAPPER, WRAPPER],
        [2, 3, 1, 0],
    ),
    ([LAST_WRAPPER, LAST_WRAPPER, PLAIN, LAST], [0, 1, 2, 3]),
];

/// The numbers of registration in order of call.
fn ordered(flags: &[(bool, bool, bool); 4]) -> [u32; 4] {
    let mut impls = [
        implementation(0, flags[0], 0),
        implementation(1, flags[1], 1),
        implementation(2, flags[2], 2),
        implementation(3, flags[3], 3),
    ];
    order(&mut impls);
    [
        impls[0].registered,
        impls[1].registered,
        impls[2].registered,
        impls[3].registered,
    ]
}

/// What is wanted of the first row that gives something else.
fn wrong_order() -> Option<[u32; 4]> {
    for (flags, want) in &ORDERS {
        if ordered(flags) != *want {
            return Some(*want);
        }
    }
    None
}

#[test]
fn implementations_run_in_the_documented_order(rt: HostRuntime) {
    assert_eq!(rt; wrong_order(), None);
}

/// A fake runner whose implementations are wrappers or not and do this, in order of call.
fn scene(alloc: Global, acts: &[(bool, Act)]) -> Result<(Fake, Vec<Impl>), AllocError> {
    let mut fake = Fake {
        acts: Vec::new(alloc),
        out: 0,
        log: String::new(alloc),
    };
    let mut impls = Vec::new(alloc);
    let mut code = 0u8;
    for (wrapper, act) in acts {
        fake.acts.push(*act)?;
        let flags = (*wrapper, false, false);
        impls.push(implementation(u32::from(u8::MAX - code), flags, u32::from(code)))?;
        code = code.saturating_add(1);
    }
    Ok((fake, impls))
}

/// What is logged and answered where all values are called for.
fn all_told(alloc: Global, fake: &mut Fake, impls: &mut [Impl]) -> Result<String, AllocError> {
    order(impls);
    let answer = call_all(alloc, fake, impls);
    format!(in alloc; "{}{answer:?}", fake.log)
}

/// What is logged and answered where the first value is called for.
fn first_told(alloc: Global, fake: &mut Fake, impls: &mut [Impl]) -> Result<String, AllocError> {
    order(impls);
    let answer = call_first(alloc, fake, impls);
    format!(in alloc; "{}{answer:?}", fake.log)
}

/// What is told of a scene, and behind it how many frames are left out.
fn told(
    alloc: Global,
    calls: Calls,
    fake: &mut Fake,
    impls: &mut [Impl],
) -> Result<String, AllocError> {
    let mut told = match calls {
        Calls::All => all_told(alloc, fake, impls)?,
        Calls::First => first_told(alloc, fake, impls)?,
    };
    write!(told, " {}", fake.out)?;
    Ok(told)
}

fn played(alloc: Global, calls: Calls, acts: &[(bool, Act)]) -> Result<String, AllocError> {
    let (mut fake, mut impls) = scene(alloc, acts)?;
    told(alloc, calls, &mut fake, &mut impls)
}

/// Which values are called for.
#[derive(Clone, Copy)]
enum Calls {
    All,
    First,
}

/// What is called for, which implementations are wrappers and what they do, and what is told.
const SCENES: [(Calls, &[(bool, Act)], &str); 15] = [
    (Calls::All, &[], "Gave(Some([])) 0"),
    (
        Calls::All,
        &[
            (false, Act::Gives(1)),
            (false, Act::GivesNone),
            (false, Act::Gives(2)),
        ],
        "call 0; call 1; call 2; Gave(Some([1, 2])) 0",
    ),
    (
        Calls::All,
        &[
            (false, Act::Gives(1)),
            (false, Act::Raises(7)),
            (false, Act::Gives(2)),
        ],
        "call 0; call 1; Raised(7) 0",
    ),
    (
        Calls::All,
        &[
            (true, Act::HandsOn),
            (true, Act::Replaces(5)),
            (false, Act::Gives(1)),
        ],
        "begin 0; begin 1; call 2; resume with list 1; resume with value 0; Gave(Some([5])) 0",
    ),
    (
        Calls::All,
        &[
            (true, Act::Swallows),
            (false, Act::Raises(7)),
            (false, Act::Gives(1)),
        ],
        "begin 0; call 1; resume with exception 0; Gave(None) 0",
    ),
    (
        Calls::All,
        &[
            (true, Act::HandsOn),
            (true, Act::RaisesBefore(3)),
            (false, Act::Gives(1)),
        ],
        "begin 0; begin 1; resume with exception 0; Raised(3) 0",
    ),
    (
        Calls::All,
        &[(true, Act::RaisesBehind(4)), (false, Act::Raises(7))],
        "begin 0; call 1; resume with exception 0; Raised(4) 0",
    ),
    (
        Calls::All,
        &[
            (true, Act::HandsOn),
            (true, Act::Swallows),
            (false, Act::WantsMemory),
            (false, Act::Gives(1)),
        ],
        "begin 0; begin 1; call 2; resume with want of memory 1; resume with want of memory 0; OutOfMemory 0",
    ),
    (
        Calls::All,
        &[
            (true, Act::Swallows),
            (true, Act::WantsMemoryBefore),
            (false, Act::Gives(1)),
        ],
        "begin 0; begin 1; resume with want of memory 0; OutOfMemory 0",
    ),
    (
        Calls::All,
        &[
            (true, Act::Swallows),
            (true, Act::WantsMemoryBehind),
            (false, Act::Gives(1)),
        ],
        "begin 0; begin 1; call 2; resume with list 1; resume with want of memory 0; OutOfMemory 0",
    ),
    (
        Calls::First,
        &[(true, Act::Replaces(1)), (false, Act::WantsMemory)],
        "begin 0; call 1; resume with want of memory 0; OutOfMemory 0",
    ),
    (Calls::First, &[], "Gave(None) 0"),
    (
        Calls::First,
        &[
            (false, Act::GivesNone),
            (false, Act::Gives(2)),
            (false, Act::Gives(3)),
        ],
        "call 0; call 1; Gave(Some(2)) 0",
    ),
    (
        Calls::First,
        &[(true, Act::HandsOn), (false, Act::GivesNone)],
        "begin 0; call 1; resume with value 0; Gave(None) 0",
    ),
    (
        Calls::First,
        &[
            (true, Act::HandsOn),
            (false, Act::Raises(2)),
            (false, Act::Gives(3)),
        ],
        "begin 0; call 1; resume with exception 0; Raised(2) 0",
    ),
];

/// What is told of the first scene of which something else is wanted, and that.
fn wrong_scene(alloc: Global) -> Result<String, AllocError> {
    for (calls, acts, want) in &SCENES {
        let told = played(alloc, *calls, acts)?;
        if told.as_str() != *want {
            return format!(in alloc; "{want}: {told}");
        }
    }
    Ok(String::new(alloc))
}

#[test]
fn hooks_are_called_through_their_wrappers(rt: HostRuntime) {
    match wrong_scene(rt.alloc()) {
        Ok(told) => assert_eq!(rt; told.as_str(), ""),
        Err(_) => assert!(rt; false, "no memory"),
    }
}
