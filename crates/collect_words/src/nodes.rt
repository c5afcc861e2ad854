use seq::{ByteText, Seq};

/// The names of an item, and the number that the collector gave it.
pub struct ItemNames {
    pub number: usize,
    /// The name of its class, where it has one.
    pub class: Option<ByteText>,
    /// The name of its function.
    pub function: ByteText,
    /// The id of its row, without brackets, where it has one.
    pub id: Option<ByteText>,
}

impl Drop for ItemNames {
    fn drop(self) {
        let ItemNames {
            number: _,
            class: _,
            function: _,
            id: _,
        } = self;
    }
}

/// What was collected of a file.
pub struct FileNodes {
    /// Whether the file has an error of collection.
    pub failed: bool,
    /// The names of its test classes.
    pub classes: Seq<ByteText>,
    /// Its items, in their order.
    pub items: Seq<ItemNames>,
}

impl Drop for FileNodes {
    fn drop(self) {
        let FileNodes {
            failed: _,
            classes: _,
            items: _,
        } = self;
    }
}
