use seq::{ByteText, PyText, Seq};

/// So many items may be collected.
pub const MOST_ITEMS: u32 = 65_536;

/// A text of a report, seen as its bytes.
pub type Text = ByteText;

/// Lines without their ends.
pub type Lines = Seq<Text>;

/// The frames of an exception, the outermost first.
pub type Frames = Seq<Frame>;

/// The exceptions of a phase, in order.
pub type Tolds = Seq<Told>;

/// A place in a source that an exception passed.
pub struct Frame {
    pub file: Text,
    pub line: u32,
    /// The name of the function, or `<module>`.
    pub name: Text,
    /// The line's text, where the report is to show it.
    pub source: Option<Text>,
}

impl Drop for Frame {
    fn drop(self) {
        let Frame {
            file: _,
            line: _,
            name: _,
            source: _,
        } = self;
    }
}

/// An exception with its frames, the outermost first.
pub struct Told {
    pub frames: Frames,
    /// The class, and the message where there is one.
    pub text: PyText,
}

impl Drop for Told {
    fn drop(self) {
        let Told { frames: _, text: _ } = self;
    }
}

/// How a phase of an item ended.
pub enum PhaseEnd {
    NotRun,
    Passed,
    Skipped,
    Xfailed,
    Xpassed,
    /// The frame of the test's `def`, and the reason of the mark.
    StrictXpassed(Frame, PyText),
    Raised(Tolds),
}

impl Drop for PhaseEnd {
    fn drop(self) {
        match self {
            PhaseEnd::NotRun => {}
            PhaseEnd::Passed => {}
            PhaseEnd::Skipped => {}
            PhaseEnd::Xfailed => {}
            PhaseEnd::Xpassed => {}
            PhaseEnd::StrictXpassed(_, _) => {}
            PhaseEnd::Raised(_) => {}
        }
    }
}

/// What happened to an item.
pub struct ItemReport {
    pub node_id: Text,
    /// What the title of a block calls the item.
    pub title: Text,
    pub file: Text,
    pub setup: PhaseEnd,
    pub call: PhaseEnd,
    pub teardown: PhaseEnd,
    /// The lines of `--setup-show`, without the worker's name; empty without that option.
    pub shown_lines: Lines,
    /// What was printed in set-up, call and teardown.
    pub captured: (Text, Text, Text),
}

impl Drop for ItemReport {
    fn drop(self) {
        let ItemReport {
            node_id: _,
            title: _,
            file: _,
            setup: _,
            call: _,
            teardown: _,
            shown_lines: _,
            captured: _,
        } = self;
    }
}

/// A file whose collection failed.
pub struct CollectReport {
    pub file: Text,
    pub told: Told,
    /// What was printed while the file was collected.
    pub captured: Text,
}

impl Drop for CollectReport {
    fn drop(self) {
        let CollectReport {
            file: _,
            told: _,
            captured: _,
        } = self;
    }
}

/// Where an item ran: the number of its group, and of the worker that took the group.
#[derive(Clone, Copy, PartialEq, Eq)]
pub struct Place {
    pub group: u32,
    pub worker: u32,
}
