use std::alloc::{AllocError, Global};

/// What a run must write.
#[derive(Drop)]
pub enum Expectation {
    /// All of the output.
    Output(String),
    /// Lines that stand one behind the other, behind those of the parts before.
    Part(String),
}

/// A case: the words and the files of a run, and what it must write and answer; what is run anew of it, and what its runs come to.
#[derive(Drop)]
pub struct Case {
    pub words: Vec<String>,
    pub files: Vec<(String, Vec<u8>)>,
    pub wanted: Vec<Expectation>,
    /// The ends that are wanted, a line each, as `Ends` writes them; empty where none is told.
    pub ends: String,
    /// What the journal of the run on one thread tells, as `journal_tests` says it; empty where none is asked for.
    pub journal: String,
    pub status: u8,
    pub outside: Outside,
    pub each: Each,
    /// The worker that draws each group. Where there are none, any may.
    pub draws: Vec<u32>,
}

/// What is run anew of a case, each time otherwise.
#[derive(Clone, Copy)]
pub enum Each {
    /// Nothing.
    Nothing,
    /// Once for each prefix of the last file by bytes, the shortest first, the whole file among them.
    Prefix,
    /// Once for each call of the tree, which fails.
    TreeCall,
    /// Once for each put, which fails.
    Put,
}

/// What the outside of a run does: the number of the call of the tree that fails and that of the sink's, from 1 and none where it is 0,
/// whether they fail for want of memory, how many bytes the sink takes in a call, and whether a word of the command line is no text.
#[derive(Clone, Copy)]
pub struct Outside {
    pub tree_fails: u64,
    pub sink_fails: u64,
    pub wants_memory: bool,
    pub sink_takes: usize,
    pub has_unread_word: bool,
}

/// Where the next lines of a case belong.
#[derive(Drop)]
enum Section {
    /// What the case shows, which no one reads but a person.
    About,
    Words,
    File(String, String),
    /// A file whose bytes are written as numbers.
    Bytes(String, Vec<u8>),
    /// Lines that stand so many times behind the last file.
    Times(u32, String),
    Output(String),
    Part(String),
    Ends(String),
    Journal(String),
    Outside,
    Draws,
}

impl Case {
    fn new(alloc: Global) -> Self {
        Case {
            words: Vec::new(alloc),
            files: Vec::new(alloc),
            wanted: Vec::new(alloc),
            ends: String::new(alloc),
            journal: String::new(alloc),
            status: 0,
            outside: Outside {
                tree_fails: 0,
                sink_fails: 0,
                wants_memory: false,
                sink_takes: usize::MAX,
                has_unread_word: false,
            },
            each: Each::Nothing,
            draws: Vec::new(alloc),
        }
    }

    /// Takes a section that has all its lines.
    fn close(&mut self, alloc: Global, section: Section) -> Result<(), AllocError> {
        match section {
            Section::About | Section::Words | Section::Outside | Section::Draws => {}
            Section::File(path, text) => self.files.push((path, text.into_bytes()))?,
            Section::Bytes(path, bytes) => self.files.push((path, bytes))?,
            Section::Times(count, text) => {
                push_times(alloc, &mut self.files, count, text.as_str())?
            }
            Section::Ends(text) => self.ends = text,
            Section::Journal(text) => self.journal = text,
            Section::Output(text) => self.wanted.push(Expectation::Output(text))?,
            Section::Part(text) => self.wanted.push(Expectation::Part(text))?,
        }
        Ok(())
    }
}

/// Takes a line that is no heading into its section.
fn take_line(
    alloc: Global,
    case: &mut Case,
    section: Section,
    line: &str,
) -> Result<Section, AllocError> {
    Ok(match section {
        Section::About => Section::About,
        Section::Words => {
            case.words.push(String::from_str(alloc, line)?)?;
            Section::Words
        }
        Section::File(path, text) => Section::File(path, with_line(text, line)?),
        Section::Bytes(path, bytes) => Section::Bytes(path, with_bytes(bytes, line)?),
        Section::Times(count, text) => Section::Times(count, with_line(text, line)?),
        Section::Output(text) => Section::Output(with_line(text, line)?),
        Section::Part(text) => Section::Part(with_line(text, line)?),
        Section::Ends(text) => Section::Ends(with_line(text, line)?),
        Section::Journal(text) => Section::Journal(with_line(text, line)?),
        Section::Outside => {
            take_outside(alloc, case, line)?;
            Section::Outside
        }
        Section::Draws => {
            case.draws.push(line.parse::<u32>().unwrap_or(0))?;
            Section::Draws
        }
    })
}

/// What a line on the outside has run anew.
fn each_of(line: &str) -> Option<Each> {
    match line {
        "each prefix" => Some(Each::Prefix),
        "each call of the tree fails" => Some(Each::TreeCall),
        "each put fails" => Some(Each::Put),
        _ => None,
    }
}

/// Takes a line on the outside: what is run anew, what it tells, or what it tells and a number; one that tells nothing is left out.
fn take_outside(alloc: Global, case: &mut Case, line: &str) -> Result<(), AllocError> {
    if let Some(each) = each_of(line) {
        case.each = each;
    }
    match line {
        "the fault is want of memory" => case.outside.wants_memory = true,
        "a word is no text" => case.outside.has_unread_word = true,
        _ => {}
    }
    let Some((told, number)) = line.rsplit_once(' ') else {
        return Ok(());
    };
    let number = number.parse::<u32>().unwrap_or(0);
    match told {
        "tree fails" => case.outside.tree_fails = u64::from(number),
        "sink fails" => case.outside.sink_fails = u64::from(number),
        "sink takes" => case.outside.sink_takes = number as usize,
        "empty files" => push_files(alloc, &mut case.files, number, 0)?,
        "files of a MiB" => push_files(alloc, &mut case.files, number, 1_048_576)?,
        "files of a MiB and a byte" => push_files(alloc, &mut case.files, number, 1_048_577)?,
        _ => {}
    }
    Ok(())
}

/// Appends so many files `a0.py`, `a1.py` and so on, each of so many signs of a comment.
fn push_files(
    alloc: Global,
    files: &mut Vec<(String, Vec<u8>)>,
    count: u32,
    size: usize,
) -> Result<(), AllocError> {
    for number in 0..count {
        let path = format!(in alloc; "a{number}.py")?;
        files.push((path, vec![in alloc; b'#'; size]?))?;
    }
    Ok(())
}

/// Appends lines to the last file, so many times, each time with another number, from 0, in place of each `#`.
fn push_times(
    alloc: Global,
    files: &mut Vec<(String, Vec<u8>)>,
    count: u32,
    lines: &str,
) -> Result<(), AllocError> {
    let Some((path, bytes)) = files.pop() else {
        return Ok(());
    };
    let mut bytes = bytes;
    for number in 0..count {
        let number = format!(in alloc; "{number}")?;
        let text = lines.replace(alloc, '#', number.as_str())?;
        bytes.extend_from_slice(text.as_bytes())?;
    }
    files.push((path, bytes))?;
    Ok(())
}

fn with_line(text: String, line: &str) -> Result<String, AllocError> {
    let mut text = text;
    text.push_str(line)?;
    text.push('\n')?;
    Ok(text)
}

/// Some bytes, and behind them those of a line; a word that is no byte's number is left out.
fn with_bytes(bytes: Vec<u8>, line: &str) -> Result<Vec<u8>, AllocError> {
    let mut bytes = bytes;
    for word in line.split(' ') {
        if let Ok(byte) = word.parse::<u8>() {
            bytes.push(byte)?;
        }
    }
    Ok(bytes)
}

/// The section that a heading begins, or None for the status and for what is no heading.
fn section_of(alloc: Global, heading: &str) -> Result<Option<Section>, AllocError> {
    let text = String::new(alloc);
    if let Some(path) = heading.strip_prefix("file ") {
        return Ok(Some(Section::File(String::from_str(alloc, path)?, text)));
    }
    if let Some(path) = heading.strip_prefix("bytes ") {
        let path = String::from_str(alloc, path)?;
        return Ok(Some(Section::Bytes(path, Vec::new(alloc))));
    }
    if let Some(count) = heading.strip_prefix("times ") {
        return Ok(Some(Section::Times(count.parse::<u32>().unwrap_or(0), text)));
    }
    Ok(match heading {
        "words" => Some(Section::Words),
        "stdout" => Some(Section::Output(text)),
        "part" => Some(Section::Part(text)),
        "ends" => Some(Section::Ends(text)),
        "journal" => Some(Section::Journal(text)),
        "outside" => Some(Section::Outside),
        "draws" => Some(Section::Draws),
        _ => None,
    })
}

/// Reads a case, or answers None where the text is none.
///
/// What it shows stands first. Then come, each below a heading `>>> words`, `>>> file PATH`,
/// `>>> bytes PATH`, `>>> times N`, `>>> outside`, `>>> draws`, `>>> stdout`, `>>> part`, `>>> ends` or
/// `>>> journal`, the words, one a line, the files, as text or as numbers of bytes, lines that stand N
/// times behind the last file with their number in place of each `#`, what the outside does, the worker
/// that draws each group, one a line, what must be written, what the runs must come to (`Ends`), and
/// what the journal of the run must tell (`journal_of` of `journal_tests`); the heading `>>> status N`
/// stands last. Lines on the outside are `tree fails N`, `sink fails N`, `sink takes N` for the bytes of
/// a call, `empty files N`, `files of a MiB N` and `files of a MiB and a byte N`; of what is run anew
/// `each prefix`, of the last file, `each call of the tree fails` and `each put fails`; `the fault is
/// want of memory` of the calls that fail; and `a word is no text`, of a command line beside its words.
pub fn read_case(alloc: Global, text: &str) -> Result<Option<Case>, AllocError> {
    let mut case = Case::new(alloc);
    let mut section = Section::About;
    for line in text.lines() {
        let Some(heading) = line.strip_prefix(">>> ") else {
            section = take_line(alloc, &mut case, section, line)?;
            continue;
        };
        if let Some(number) = heading.strip_prefix("status ") {
            let Ok(status) = number.parse::<u8>() else {
                return Ok(None);
            };
            case.close(alloc, section)?;
            case.status = status;
            return Ok(Some(case));
        }
        let Some(next) = section_of(alloc, heading)? else {
            return Ok(None);
        };
        case.close(alloc, section)?;
        section = next;
    }
    Ok(None)
}
