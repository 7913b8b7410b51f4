//! For tests: a world that records the calls on it that change what it holds.
#![tactic(auto)]

ghost use Rattle.std.specs.Prelude.{◌≡◌};

use lms_book::MemoryStore;
use lms_world::{LockFault, Note, OutOfMemory, Output, Printer, World, WorldFault};
use std::alloc::{AllocError, Global};
use std::fmt::Display;
use std::io::Write;

/// What a world was called to hold.
#[derive(Drop)]
pub enum Change {
    File { name: String, bytes: Vec<u8> },
    State { text: Vec<u8> },
    Nodes { text: Vec<u8> },
    Witness { text: Vec<u8> },
}

/// Hands all calls on to a world, and records those that changed what it holds, where there is
/// memory for that.
#[derive(Drop)]
pub struct Recorded<W> {
    alloc: Global,
    /// The world that does what is called.
    pub world: W,
    /// What was changed, in order.
    pub changes: Vec<Change>,
}

impl<W> Recorded<W> {
    /// This world, before any call. Its records take memory from `alloc`.
    pub fn new(alloc: Global, world: W) -> Self
        ensures { result.world ≡ world }
    {
        Recorded {
            alloc,
            world,
            changes: Vec::new(alloc),
        }
    }
}

fn file_change(alloc: Global, name: &str, bytes: &[u8]) -> Result<Change, AllocError> {
    Ok(Change::File {
        name: String::from_str(alloc, name)?,
        bytes: Vec::from_slice(alloc, bytes)?,
    })
}

fn state_change(alloc: Global, store: &MemoryStore) -> Result<Change, AllocError> {
    let text = Vec::from_slice(alloc, store.text().unwrap_or(b""))?;
    Ok(Change::State { text })
}

fn witness_change(alloc: Global, text: &[u8]) -> Result<Change, AllocError> {
    let text = Vec::from_slice(alloc, text)?;
    Ok(Change::Witness { text })
}

fn nodes_change(alloc: Global, text: &[u8]) -> Result<Change, AllocError> {
    let text = Vec::from_slice(alloc, text)?;
    Ok(Change::Nodes { text })
}

impl<W: World<Store = MemoryStore>> World for Recorded<W> {
    type Lock = W::Lock;

    type Store = MemoryStore;

    type Contents = W::Contents;

    type Draft = W::Draft;

    ghost events = { λ recorded. W.events recorded.world };

    ghost memory = { λ recorded. W.memory recorded.world };

    ghost may_read = { W.may_read };

    ghost are_written = { W.are_written };

    fn read(&mut self, alloc: Global, name: &str) -> Result<Vec<u8>, WorldFault> {
        self.world.read(alloc, name)
    }

    fn open(&mut self, alloc: Global, name: &str) -> Result<W::Contents, WorldFault> {
        self.world.open(alloc, name)
    }

    fn plan_output(&self, alloc: Global, name: &str) -> Result<Output, OutOfMemory> {
        self.world.plan_output(alloc, name)
    }

    fn write(&mut self, output: Output, bytes: &[u8]) -> Result<(), WorldFault> {
        let change = file_change(self.alloc, output.name.as_str(), bytes);
        let answer = self.world.write(output, bytes);
        if let (Ok(()), Ok(change)) = (answer, change) {
            let _ = self.changes.push(change);
        }
        answer
    }

    fn write_flushed(&mut self, output: Output, bytes: &[u8]) -> Result<(), WorldFault> {
        let change = file_change(self.alloc, output.name.as_str(), bytes);
        let answer = self.world.write_flushed(output, bytes);
        if let (Ok(()), Ok(change)) = (answer, change) {
            let _ = self.changes.push(change);
        }
        answer
    }

    fn lock(&mut self, alloc: Global, name: &str) -> Result<W::Lock, LockFault> {
        self.world.lock(alloc, name)
    }

    fn unlock(&mut self, lock: W::Lock) {
        self.world.unlock(lock)
    }

    fn exists(&mut self, lock: &W::Lock) -> bool {
        self.world.exists(lock)
    }

    fn take_store(&mut self, alloc: Global, lock: &W::Lock) -> Result<MemoryStore, OutOfMemory> {
        self.world.take_store(alloc, lock)
    }

    fn put_back(&mut self, lock: &W::Lock, store: MemoryStore) {
        if let Ok(change) = state_change(self.alloc, &store) {
            let _ = self.changes.push(change);
        }
        self.world.put_back(lock, store)
    }

    fn read_nodes(&mut self, alloc: Global, lock: &W::Lock, most: usize) -> Option<Vec<u8>> {
        self.world.read_nodes(alloc, lock, most)
    }

    fn write_nodes(
        &mut self,
        alloc: Global,
        lock: &W::Lock,
        text: &[u8],
    ) -> Result<(), WorldFault> {
        let answer = self.world.write_nodes(alloc, lock, text);
        if let (Ok(()), Ok(change)) = (answer, nodes_change(self.alloc, text)) {
            let _ = self.changes.push(change);
        }
        answer
    }

    fn read_witness(
        &mut self,
        alloc: Global,
        lock: &W::Lock,
    ) -> Result<Option<Vec<u8>>, WorldFault> {
        self.world.read_witness(alloc, lock)
    }

    fn look_at_witness(
        &mut self,
        alloc: Global,
        name: &str,
    ) -> Result<Option<Vec<u8>>, WorldFault> {
        self.world.look_at_witness(alloc, name)
    }

    fn draft_witness(&mut self, alloc: Global, lock: &W::Lock) -> Result<W::Draft, WorldFault> {
        self.world.draft_witness(alloc, lock)
    }

    fn place_witness(&mut self, draft: W::Draft, text: &[u8]) -> Result<(), WorldFault> {
        let answer = self.world.place_witness(draft, text);
        if let (Ok(()), Ok(change)) = (answer, witness_change(self.alloc, text)) {
            let _ = self.changes.push(change);
        }
        answer
    }

    fn discard_witness(&mut self, draft: W::Draft) {
        self.world.discard_witness(draft)
    }

    fn make_witness(
        &mut self,
        alloc: Global,
        lock: &W::Lock,
        name: &str,
        text: &[u8],
    ) -> Result<String, WorldFault> {
        let answer = self.world.make_witness(alloc, lock, name, text);
        if let (Ok(_), Ok(change)) = (&answer, witness_change(self.alloc, text)) {
            let _ = self.changes.push(change);
        }
        answer
    }

    fn note(&self) -> &Note {
        self.world.note()
    }

    fn explain<D: Display + Drop>(&mut self, text: D) {
        self.world.explain(text)
    }

    fn begin_printing<O: Write>(&mut self, output: &Printer<O>) {
        self.world.begin_printing(output)
    }
}
