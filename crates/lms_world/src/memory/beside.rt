//! What is beside a state in memory: its lock, nodes and the witness.
ghost use Rattle.std.specs.Prelude.{string_bytes, ◌≡◌, ◌≤◌, ◌⊎◌, IfErr, IfOk, IfSome, OnOk, Ok, Err, None, Some, if◌then◌else◌, is_ok, length, option_map};
ghost use Rattle.lms_world.specs.Events.{WitnessDrafted, WitnessMade, WitnessWritten, done_of, place_of};
ghost use Rattle.lms_world.specs.Held.{Acts, MayRefuseMaking, with_nodes_kept};
ghost use Rattle.lms_world.specs.Files.{held_in, nodes_fault_in, nodes_in, used_elsewhere, with_failing_nodes, with_failing_witness, with_nodes, with_witness_kept, witness_in};

use super::MemoryWorld;
use crate::fault::WorldFault;
use lms_files::MOST_WITNESS;
use std::alloc::Global;

/// The lock of the state in memory, whatever its name. Only a world gives one.
#[derive(Drop)]
pub struct MemoryLock(());

impl MemoryLock {
    pub(super) fn new() -> Self {
        MemoryLock(())
    }
}

/// A draft of the witness in memory, which is about to replace it: room for its bytes.
#[derive(Drop)]
pub struct MemoryDraft {
    room: Vec<u8>,
}

impl MemoryWorld {
    /// Makes the lock one that another program has.
    pub fn use_elsewhere(&mut self)
        ensures { self.new ≡ used_elsewhere self.old }
    {
        self.in_use = true;
    }

    /// Makes this what is kept of nodes beside the state.
    pub fn set_nodes(&mut self, nodes: Vec<u8>)
        ensures { self.new ≡ with_nodes nodes self.old }
    {
        self.nodes = Some(nodes);
    }

    /// What is kept of nodes beside the state, where any was set or written.
    pub fn nodes(&self) -> Option<&[u8]>
        ensures { option_map (λ nodes. nodes.now) result ≡ nodes_in self.now }
    {
        match &self.nodes {
            Some(nodes) => Some(nodes),
            None => None,
        }
    }

    /// Makes each write of nodes fail by this fault.
    pub fn fail_nodes(&mut self, fault: WorldFault)
        ensures { self.new ≡ with_failing_nodes fault self.old }
    {
        self.nodes_fault = Some(fault);
    }

    /// Makes these the bytes of the witness beside the state.
    pub fn set_witness(&mut self, text: Vec<u8>)
        ensures { self.new ≡ with_witness_kept text self.old }
    {
        self.witness = Ok(Some(text));
    }

    /// Makes each read, draft, write and making of the witness fail by this fault.
    pub fn fail_witness(&mut self, fault: WorldFault)
        ensures { self.new ≡ with_failing_witness fault self.old }
    {
        self.witness = Err(fault);
    }

    /// The bytes of the witness beside the state. `None` where there is none, and after
    /// `fail_witness`.
    pub fn witness(&self) -> Option<&[u8]>
        ensures { IfSome result (λ text. witness_in self.now ≡ Ok (Some text.now)) }
    {
        match &self.witness {
            Ok(Some(text)) => Some(text),
            _ => None,
        }
    }
}

impl MemoryWorld {
    /// A copy of what is kept of nodes. `None` where nothing is kept, where it has more than `most`
    /// bytes, and where memory is refused.
    pub(super) fn copy_of_nodes(&self, alloc: Global, most: usize) -> Option<Vec<u8>>
        ensures given { IfSome result (λ text. nodes_in self.now ≡ Some text.items) }
        ensures at_most { IfSome result (λ text. length text.items ≤ most) }
    {
        let nodes = self.nodes()?;
        if nodes.len() > most {
            return None;
        }
        Vec::from_slice(alloc, nodes).ok()
    }

    /// Keeps these bytes of nodes. An error is the fault that `fail_nodes` gave, or `OutOfMemory`
    /// where memory is refused; what was kept is kept still then.
    pub(super) fn keep(&mut self, alloc: Global, text: &[u8]) -> Result<(), WorldFault>
        ensures held { held_in self.new ≡ (if is_ok result
            then with_nodes_kept text.now (held_in self.old) else held_in self.old) }
        ensures refused { IfErr result (λ fault.
            (nodes_fault_in self.old ≡ Some fault) ⊎ (fault ≡ WorldFault.OutOfMemory)) }
        ensures uncalled { self.new.log ≡ self.old.log }
    {
        if let Some(fault) = self.nodes_fault {
            return Err(fault);
        }
        let nodes = Vec::from_slice(alloc, text).map_err(|_| WorldFault::OutOfMemory)?;
        self.set_nodes(nodes);
        Ok(())
    }

    /// A copy of the bytes of the witness, `None` where there is none. An error is the fault that
    /// `fail_witness` gave, or `OutOfMemory` where memory is refused.
    pub(super) fn copy_of_witness(&self, alloc: Global) -> Result<Option<Vec<u8>>, WorldFault>
        ensures given { IfOk result (λ found.
            witness_in self.now ≡ Ok (option_map (λ text. text.items) found)) }
        ensures refused { IfErr result (λ fault.
            (witness_in self.now ≡ Err fault) ⊎ (fault ≡ WorldFault.OutOfMemory)) }
    {
        match &self.witness {
            Ok(Some(text)) => match Vec::from_slice(alloc, text) {
                Ok(text) => Ok(Some(text)),
                Err(_) => Err(WorldFault::OutOfMemory),
            },
            Ok(None) => Ok(None),
            Err(fault) => Err(*fault),
        }
    }

    /// A draft, with room for the bytes of a witness. An error is the fault that `fail_witness`
    /// gave, or `OutOfMemory` where memory is refused.
    pub(super) fn draft(&self, alloc: Global) -> Result<MemoryDraft, WorldFault>
        ensures { Acts (WitnessDrafted (done_of result)) (held_in self.now) (held_in self.now) }
    {
        if let Err(fault) = &self.witness {
            return Err(*fault);
        }
        match Vec::with_capacity(alloc, MOST_WITNESS) {
            Ok(room) => Ok(MemoryDraft { room }),
            Err(_) => Err(WorldFault::OutOfMemory),
        }
    }

    /// Makes these the bytes of the witness, in a draft's room. An error is the fault that
    /// `fail_witness` gave, or `OutOfMemory` where memory is refused; the witness is as it was
    /// then.
    pub(super) fn place(&mut self, draft: MemoryDraft, text: &[u8]) -> Result<(), WorldFault>
        ensures acts { Acts (WitnessWritten text.now result) (held_in self.old) (held_in self.new) }
        ensures uncalled { self.new.log ≡ self.old.log }
    {
        if let Err(fault) = &self.witness {
            return Err(*fault);
        }
        let MemoryDraft { room } = draft;
        let mut written = room;
        written.clear();
        if written.extend_from_slice(text).is_err() {
            return Err(WorldFault::OutOfMemory);
        }
        self.set_witness(written);
        Ok(())
    }

    /// `Ok` where there is no witness, so that one can be made. `Device` where there is one, else
    /// the fault that `fail_witness` gave.
    fn has_room(&self) -> Result<(), WorldFault>
        ensures none { OnOk result (witness_in self.now ≡ Ok None) }
        ensures refused { IfErr result (MayRefuseMaking (held_in self.now)) }
    {
        match &self.witness {
            Ok(None) => Ok(()),
            Ok(Some(_)) => Err(WorldFault::Device),
            Err(fault) => Err(*fault),
        }
    }

    /// Makes a witness with these bytes, where there is none, and returns its name. The faults of
    /// `has_room`, or `OutOfMemory` where memory is refused; nothing is changed then.
    pub(super) fn make(
        &mut self,
        alloc: Global,
        name: &str,
        text: &[u8],
    ) -> Result<String, WorldFault>
        ensures acts { Acts (WitnessMade name.now text.now (place_of result))
            (held_in self.old) (held_in self.new) }
        ensures uncalled { self.new.log ≡ self.old.log }
    {
        self.has_room()?;
        let (place, copy) = copies(alloc, name, text)?;
        self.set_witness(copy);
        Ok(place)
    }
}

/// Copies of a name and of bytes. `OutOfMemory` where memory for them was refused.
fn copies(alloc: Global, name: &str, text: &[u8]) -> Result<(String, Vec<u8>), WorldFault>
    ensures name { IfOk result (λ made. string_bytes made.0 ≡ name.now) }
    ensures text { IfOk result (λ made. made.1.items ≡ text.now) }
    ensures refused { IfErr result (λ fault. fault ≡ WorldFault.OutOfMemory) }
{
    let Ok(copy) = Vec::from_slice(alloc, text) else {
        return Err(WorldFault::OutOfMemory);
    };
    match String::from_str(alloc, name) {
        Ok(place) => Ok((place, copy)),
        Err(_) => Err(WorldFault::OutOfMemory),
    }
}
