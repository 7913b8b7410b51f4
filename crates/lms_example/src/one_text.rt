//! A store of the program's own.
ghost use Rattle.std.specs.Prelude.{◌≡◌, None, OnOk, OnErr};
ghost use Rattle.lms_example.specs.HeldTexts.{holding};

use lms_book::{LastRead, ReadFault, StateStore, StoreFault};
use lms_ghost_log::GhostLog;
use lms_params::OutOfMemory;
use std::alloc::Global;
use std::marker::Model;

/// One byte string in memory. Contracts also see those before it, to say what a crash could have
/// left. A real store keeps its bytes where they outlive the program.
#[derive(Drop)]
pub(crate) struct OneText {
    alloc: Global,
    text: Option<Vec<u8>>,
    past: GhostLog<Option<Vec<u8>>>,
    given: LastRead,
    failures: u64,
}

impl Model for OneText {
    ghost use Rattle.std.specs.Prelude.{map, option_map};
    ghost use Rattle.lms_example.specs.HeldTexts.{HeldTexts};

    ghost Value = { HeldTexts };

    ghost view = { λ store. record {
      text = option_map (λ text. text.items) store.text;
      past = map (option_map (λ text. text.items)) store.past;
      given = store.given;
      failures = store.failures;
    } };
}

impl OneText {
    /// A store that holds no bytes yet.
    pub(crate) fn new(alloc: Global) -> Self
        ensures { result.text ≡ None }
    {
        OneText {
            alloc,
            text: None,
            past: GhostLog::new(),
            given: LastRead::none(),
            failures: 0,
        }
    }

    /// Holds these bytes from now on. `OutOfMemory` where memory for them is refused, with nothing
    /// changed.
    fn hold(&mut self, text: &[u8]) -> Result<(), OutOfMemory>
        ensures held { OnOk result (self.new ≡ holding self.old text.now) }
        ensures same { OnErr result (self.new ≡ self.old) }
    {
        let text = Vec::from_slice(self.alloc, text)?;
        self.past = self.past.and(&self.text);
        self.text = Some(text);
        Ok(())
    }
}

impl StateStore for OneText {
    ghost use Rattle.std.specs.Prelude.{is_none};
    ghost use Rattle.lms_example.specs.HeldTexts.{view_of};

    ghost seen = { view_of };

    ghost may_fail = { λ store. is_none store.text };

    /// `Device`, which is counted, while it holds no bytes. `OutOfMemory` where memory for a copy
    /// of them is refused.
    fn read(&mut self, alloc: Global) -> Result<Vec<u8>, ReadFault> {
        match &self.text {
            Some(text) => {
                let text = Vec::from_slice(alloc, text).map_err(|_| ReadFault::OutOfMemory)?;
                self.given = LastRead::of(&text);
                Ok(text)
            }
            None => {
                self.failures = self.failures.saturating_add(1);
                Err(ReadFault::Device)
            }
        }
    }

    /// An error, which is counted, where memory is refused. The store then holds what it held
    /// before.
    fn replace(&mut self, text: &[u8]) -> Result<(), StoreFault> {
        match self.hold(text) {
            Ok(()) => Ok(()),
            Err(OutOfMemory) => {
                self.failures = self.failures.saturating_add(1);
                Err(StoreFault)
            }
        }
    }
}
