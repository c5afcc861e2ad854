use edge_io::{MemSink, MemTree, Sink, SinkFail, Tree, TreeFail};

/// A tree or a sink whose faults are, where it is told so, wants of memory.
#[derive(Drop)]
pub struct Scarce<T: Drop> {
    pub outside: T,
    pub wants_memory: bool,
}

impl Tree for Scarce<MemTree> {
    ghost use Rattle.std.specs.Prelude.{Some};

    ghost files = { λ scarce. Some scarce.outside.0 };

    ghost faults = { λ scarce. scarce.outside.1.faults };

    fn list(&mut self) -> Result<Vec<String>, TreeFail> {
        let paths = self.outside.list();
        if self.wants_memory && matches!(&paths, Err(TreeFail::Failed)) {
            return Err(TreeFail::OutOfMemory);
        }
        paths
    }

    fn read(&mut self, path: &str, most: usize) -> Result<Vec<u8>, TreeFail> {
        let bytes = self.outside.read(path, most);
        if self.wants_memory && matches!(&bytes, Err(TreeFail::Failed)) {
            return Err(TreeFail::OutOfMemory);
        }
        bytes
    }
}

impl Sink for Scarce<MemSink> {
    ghost use Rattle.std.specs.Prelude.{Some};

    ghost told = { λ scarce. Some scarce.outside.0 };

    ghost faults = { λ scarce. scarce.outside.2.faults };

    fn put(&mut self, bytes: &[u8]) -> Result<usize, SinkFail> {
        match self.outside.put(bytes) {
            Ok(count) => Ok(count),
            Err(SinkFail::Failed) if self.wants_memory => Err(SinkFail::OutOfMemory),
            Err(e) => Err(e),
        }
    }
}
