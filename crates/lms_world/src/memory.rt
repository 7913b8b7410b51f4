//! Files and a state in memory.
ghost use Rattle.std.specs.Prelude.{ℕ, [], ◌≡◌, ◌⊎◌, ◌∷◌, List, IfErr, IfOk, OnErr, OnOk, Ok, Err, None, Some, false, if◌then◌else◌, is_ok, option_map};
ghost use Rattle.lms_book.specs.Memory.{cannot_read, held};
ghost use Rattle.lms_world.specs.Events.{read_of};
ghost use Rattle.lms_world.specs.Held.{answer_in, is_there, with_file};
ghost use Rattle.lms_world.specs.Files.{answer_of, entry_of, files_in, held_in, is_used_elsewhere, nodes_in, state_fails, state_text, store_in, with_store, witness_in};

use crate::contents::{Contents, Taker};
use crate::fault::WorldFault;
use crate::log::{Call, Drafted, Log, OpenedAs, PutIn, TakenOut};
use crate::note::Note;
use crate::printer::{Beginning, Printer};
use crate::world::World;
use lms_book::MemoryStore;
use lms_file_store::LockFault;
use lms_files::Output;
use lms_params::OutOfMemory;
use std::alloc::{AllocError, Global};
use std::fmt::{Display, Write as _};
use std::io::Write;

mod beside;

pub use self::beside::{MemoryDraft, MemoryLock};

/// The capacity of a state's record, in writes.
const CAPACITY: usize = 8;

/// Files and one state in memory, for tests: what a read of each name answers, the state, whatever
/// its name, and what is kept of nodes and as its witness beside it. Nodes and witness are no
/// files: a read of the name by which a witness was made does not give it.
#[derive(Drop)]
pub struct MemoryWorld {
    alloc: Global,
    // The newest entry of a name is first, and counts.
    entries: Vec<(String, Result<Vec<u8>, WorldFault>)>,
    state: Option<MemoryStore>,
    in_use: bool,
    // What is kept of nodes, and by which fault a write of them fails.
    nodes: Option<Vec<u8>>,
    nodes_fault: Option<WorldFault>,
    // The bytes of the witness, or by which fault it can't be read or written.
    witness: Result<Option<Vec<u8>>, WorldFault>,
    // What was explained.
    note: Note,
    // The calls that were made on it.
    log: Log,
}

/// The bytes of a file in memory.
#[derive(Drop)]
pub struct MemoryContents {
    bytes: Vec<u8>,
}

impl Contents for MemoryContents {
    ghost holds = { λ contents. Some contents.bytes.items };

    ghost may_give = { λ contents bytes. bytes ≡ contents.bytes.items };

    /// In one piece.
    fn hand_over<T: Taker>(self, taker: &mut T) -> Result<(), WorldFault> {
        taker.take(&self.bytes);
        Ok(())
    }
}

impl MemoryWorld {
    /// A world without files, so that a read of any name answers `Device`, without a state, nodes
    /// and a witness, and with its lock free.
    pub fn new(alloc: Global) -> Self
        ensures files { (name : List ℕ) → answer_of result name ≡ Err WorldFault.Device }
        ensures state { state_text (store_in result) ≡ None }
        ensures free { is_used_elsewhere result ≡ false }
        ensures nodes { nodes_in result ≡ None }
        ensures witness { witness_in result ≡ Ok None }
        ensures uncalled { result.log ≡ [] }
    {
        MemoryWorld {
            alloc,
            entries: Vec::new(alloc),
            state: None,
            in_use: false,
            nodes: None,
            nodes_fault: None,
            witness: Ok(None),
            note: Note::new(),
            log: Log::new(),
        }
    }

    /// Makes the state one that this store keeps.
    pub fn set_state(&mut self, store: MemoryStore)
        ensures { self.new ≡ with_store store self.old }
    {
        self.state = Some(store);
    }

    /// The store that keeps the state. `None` where none was set or put back, and while it is taken
    /// out.
    pub fn state(&self) -> Option<&MemoryStore>
        ensures { option_map (λ store. store.now) result ≡ store_in self.now }
    {
        self.state.as_ref()
    }

    /// Makes each read and each write of a name fail by this fault. An error means out of memory.
    pub fn fail(&mut self, name: &str, fault: WorldFault) -> Result<(), AllocError>
        ensures fails { OnOk result (answer_in (files_in self.new) name.now ≡ Err fault) }
        ensures others { self.new ≡ record self.old { entries = self.new.entries } }
    {
        self.put(name, Err(fault))
    }

    fn put(&mut self, name: &str, answer: Result<Vec<u8>, WorldFault>) -> Result<(), AllocError>
        ensures files { files_in self.new ≡ (if is_ok result
            then (name.now, read_of answer) ∷ files_in self.old else files_in self.old) }
        ensures others { self.new ≡ record self.old { entries = self.new.entries } }
    {
        let name = String::from_str(self.alloc, name)?;
        self.entries.insert(0, (name, answer))?;
        Ok(())
    }

    /// The newest entry of the name, which counts. `None` where it has none.
    fn entry(&self, name: &str) -> Option<&(String, Result<Vec<u8>, WorldFault>)>
        ensures { option_map (λ entry. entry.now) result ≡ entry_of self.now name.now }
    {
        self.entries.iter().find(|entry| entry.0.as_str() == name)
    }

    /// A copy of the bytes of a name. An error is the fault that `fail` gave to the name, `Device`
    /// where the name has no entry, or `OutOfMemory` where memory for the copy is refused.
    fn copy_of(&self, alloc: Global, name: &str) -> Result<Vec<u8>, WorldFault>
        ensures given { IfOk result (λ bytes. answer_of self.now name.now ≡ Ok bytes.items) }
        ensures refused { IfErr result (λ fault.
            (answer_of self.now name.now ≡ Err fault) ⊎ (fault ≡ WorldFault.OutOfMemory)) }
    {
        match self.entry(name) {
            Some((_, Ok(bytes))) => {
                Vec::from_slice(alloc, bytes).map_err(|_| WorldFault::OutOfMemory)
            }
            Some((_, Err(fault))) => Err(*fault),
            None => Err(WorldFault::Device),
        }
    }

    /// Makes these the bytes of a name. An error is the fault that `fail` gave to the name, or
    /// `OutOfMemory` where memory is refused; its bytes are as they were then.
    fn set(&mut self, name: &str, bytes: &[u8]) -> Result<(), WorldFault>
        ensures held { held_in self.new ≡ (if is_ok result
            then with_file name.now bytes.now (held_in self.old) else held_in self.old) }
        ensures refused { IfErr result (λ fault.
            (answer_of self.old name.now ≡ Err fault) ⊎ (fault ≡ WorldFault.OutOfMemory)) }
        ensures uncalled { self.new.log ≡ self.old.log }
    {
        if let Some((_, Err(fault))) = self.entry(name) {
            return Err(*fault);
        }
        let copy = Vec::from_slice(self.alloc, bytes).map_err(|_| WorldFault::OutOfMemory)?;
        self.put(name, Ok(copy))
            .map_err(|_| WorldFault::OutOfMemory)
    }

    /// Whether there is a state: a store that holds a byte string, be it empty.
    fn has_state(&self) -> bool
        ensures { result ≡ is_there (held (state_text (store_in self.now))) }
    {
        match &self.state {
            Some(store) => store.text().is_some(),
            None => false,
        }
    }

    /// Takes out the store that keeps the state, or a new one that holds nothing where there is
    /// none. `OutOfMemory` where memory for a new one is refused.
    fn lend(&mut self, alloc: Global) -> Result<MemoryStore, OutOfMemory>
        ensures text { IfOk result (λ store. store.text ≡ state_text (store_in self.old)) }
        ensures fails { IfOk result (λ store.
            cannot_read store ≡ state_fails (store_in self.old)) }
        ensures taken { OnOk result (self.new ≡ record self.old { state = None }) }
        ensures stays { OnErr result (self.new ≡ self.old) }
    {
        match self.state.take() {
            Some(store) => Ok(store),
            None => MemoryStore::new(alloc, None, CAPACITY),
        }
    }
}

impl World for MemoryWorld {
    type Lock = MemoryLock;

    type Store = MemoryStore;

    type Contents = MemoryContents;

    type Draft = MemoryDraft;

    ghost events = { λ world. world.log };

    ghost memory = { λ world. Some (held_in world) };

    ghost may_read = { λ _. Unit {0} };

    ghost are_written = { λ _. Unit {0} };

    fn read(&mut self, alloc: Global, name: &str) -> Result<Vec<u8>, WorldFault> {
        let answer = self.copy_of(alloc, name);
        self.log = self.log.and(&Call::Read {
            name,
            answer: &answer,
        });
        answer
    }

    fn open(&mut self, alloc: Global, name: &str) -> Result<MemoryContents, WorldFault> {
        match self.copy_of(alloc, name) {
            Ok(bytes) => {
                let contents = MemoryContents { bytes };
                self.log = self.log.and(&OpenedAs {
                    name,
                    contents: &contents,
                });
                Ok(contents)
            }
            Err(fault) => {
                self.log = self.log.and(&Call::NotOpened { name, fault });
                Err(fault)
            }
        }
    }

    fn plan_output(&self, alloc: Global, name: &str) -> Result<Output, OutOfMemory> {
        Output::in_place(alloc, name)
    }

    fn write(&mut self, output: Output, bytes: &[u8]) -> Result<(), WorldFault> {
        let name = output.name.as_str();
        let answer = self.set(name, bytes);
        self.log = self.log.and(&Call::Written {
            name,
            bytes,
            answer,
        });
        answer
    }

    fn write_flushed(&mut self, output: Output, bytes: &[u8]) -> Result<(), WorldFault> {
        self.write(output, bytes)
    }

    fn lock(&mut self, _alloc: Global, name: &str) -> Result<MemoryLock, LockFault> {
        if self.in_use {
            self.log = self.log.and(&Call::NotAvailable { name });
            Err(LockFault::InUse)
        } else {
            self.log = self.log.and(&Call::Acquired { name });
            Ok(MemoryLock::new())
        }
    }

    fn unlock(&mut self, _lock: MemoryLock) {
        self.log = self.log.and(&Call::Unlocked);
    }

    fn exists(&mut self, _lock: &MemoryLock) -> bool {
        let there = self.has_state();
        self.log = self.log.and(&Call::Asked { there });
        there
    }

    fn take_store(
        &mut self,
        alloc: Global,
        _lock: &MemoryLock,
    ) -> Result<MemoryStore, OutOfMemory> {
        match self.lend(alloc) {
            Ok(store) => {
                self.log = self.log.and(&TakenOut { store: &store });
                Ok(store)
            }
            Err(fault) => {
                self.log = self.log.and(&Call::NotTaken);
                Err(fault)
            }
        }
    }

    fn put_back(&mut self, _lock: &MemoryLock, store: MemoryStore) {
        self.log = self.log.and(&PutIn { store: &store });
        self.set_state(store);
    }

    fn read_nodes(&mut self, alloc: Global, _lock: &MemoryLock, most: usize) -> Option<Vec<u8>> {
        let found = self.copy_of_nodes(alloc, most);
        self.log = self.log.and(&Call::NodesRead { found: &found });
        found
    }

    fn write_nodes(
        &mut self,
        alloc: Global,
        _lock: &MemoryLock,
        text: &[u8],
    ) -> Result<(), WorldFault> {
        let answer = self.keep(alloc, text);
        self.log = self.log.and(&Call::NodesWritten { text, answer });
        answer
    }

    fn read_witness(
        &mut self,
        alloc: Global,
        _lock: &MemoryLock,
    ) -> Result<Option<Vec<u8>>, WorldFault> {
        let answer = self.copy_of_witness(alloc);
        self.log = self.log.and(&Call::WitnessRead { answer: &answer });
        answer
    }

    fn look_at_witness(
        &mut self,
        alloc: Global,
        _name: &str,
    ) -> Result<Option<Vec<u8>>, WorldFault> {
        let seen = self.copy_of_witness(alloc);
        self.log = self.log.and(&Call::WitnessRead { answer: &seen });
        seen
    }

    fn draft_witness(
        &mut self,
        alloc: Global,
        _lock: &MemoryLock,
    ) -> Result<MemoryDraft, WorldFault> {
        let answer = self.draft(alloc);
        self.log = self.log.and(&Drafted { answer: &answer });
        answer
    }

    fn place_witness(&mut self, draft: MemoryDraft, text: &[u8]) -> Result<(), WorldFault> {
        let answer = self.place(draft, text);
        self.log = self.log.and(&Call::WitnessWritten { text, answer });
        answer
    }

    fn discard_witness(&mut self, _draft: MemoryDraft) {}

    fn make_witness(
        &mut self,
        alloc: Global,
        _lock: &MemoryLock,
        name: &str,
        text: &[u8],
    ) -> Result<String, WorldFault> {
        let made = self.make(alloc, name, text);
        let answer = &made;
        self.log = self.log.and(&Call::WitnessMade { name, text, answer });
        made
    }

    fn note(&self) -> &Note {
        &self.note
    }

    fn explain<D: Display + Drop>(&mut self, text: D) {
        let _ = write!(self.note, "{text}");
    }

    fn begin_printing<O: Write>(&mut self, output: &Printer<O>) {
        self.log = self.log.and(&Beginning { output });
    }
}
