use crate::case::{Case, Each};
use crate::run::{Run, copied, run_case};
use std::alloc::{AllocError, Global};
use std::thread::Threads;

/// What runs that follow one another come to: the status of them all, how many they are, and a number that is made of each byte
/// that they write, with a zero byte behind each run.
#[derive(Clone, Copy)]
struct Ends {
    status: u8,
    count: u64,
    digest: u32,
}

impl Ends {
    /// No run yet.
    fn new(status: u8) -> Self {
        Ends {
            status,
            count: 0,
            digest: 0,
        }
    }

    fn take(&mut self, byte: u8) {
        self.digest = self.digest.wrapping_mul(31).wrapping_add(u32::from(byte));
    }

    /// Takes one more run.
    fn push(&mut self, output: &[u8]) {
        for byte in output {
            self.take(*byte);
        }
        self.take(0);
        self.count = self.count.saturating_add(1);
    }

    /// Appends them as a line.
    fn tell(&self, alloc: Global, text: &mut String) -> Result<(), AllocError> {
        let line = format!(in alloc; "{} {} {}\n", self.status, self.count, self.digest)?;
        text.push_str(line.as_str())
    }
}

/// The last file up to a number of bytes, behind the files before it.
fn with_prefix(
    alloc: Global,
    files: &[(String, Vec<u8>)],
    size: usize,
) -> Result<Vec<(String, Vec<u8>)>, AllocError> {
    let mut files = copied(alloc, files)?;
    if let Some((path, bytes)) = files.pop() {
        let front = Vec::from_slice(alloc, &bytes[..size.min(bytes.len())])?;
        files.push((path, front))?;
    }
    Ok(files)
}

/// The sizes of the last file with which a case is run: that of each prefix, or its own.
fn sizes(case: &Case) -> (usize, usize) {
    let whole = match case.files.last() {
        Some(file) => file.1.len(),
        None => 0,
    };
    match case.each {
        Each::Prefix => (0, whole),
        Each::Nothing | Each::TreeCall | Each::Put => (whole, whole),
    }
}

/// What the runs of a case come to, a line for those of one status that follow one another.
pub fn ends_of<R: Threads + Sync>(
    rt: &R,
    alloc: Global,
    case: &Case,
) -> Result<String, AllocError> {
    let mut text = String::new(alloc);
    let mut ends = Ends::new(0);
    let (first, last) = sizes(case);
    for size in first..=last {
        let files = with_prefix(alloc, &case.files, size)?;
        let Run { output, status, .. } = run_case(rt, alloc, case, files, case.outside)?;
        if ends.count > 0 && ends.status != status {
            ends.tell(alloc, &mut text)?;
            ends.count = 0;
        }
        if ends.count == 0 {
            ends = Ends::new(status);
        }
        ends.push(&output);
    }
    ends.tell(alloc, &mut text)?;
    Ok(text)
}
