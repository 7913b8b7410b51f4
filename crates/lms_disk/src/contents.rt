//! Files of the disk, read.
ghost use Rattle.std.specs.Prelude.{◌≡◌, ℕ, List, None, IfOk, OnOk};
ghost use Rattle.lms_files.specs.Files.{AreLeftIn};

use crate::fault::fault_of;
use lms_blocks::read_block;
use lms_world::{Contents, Taker, WorldFault};
use std::alloc::Global;
use std::cell::Cell;
use std::io;
use std::io::{ErrorKind, Read};
use std::rc::Rc;

/// How many bytes of a file are asked for at once, where it is read in pieces.
const BLOCK: usize = 4096;

/// The name of a file that was opened to be read, and the system's number of why a read of it failed,
/// which is 0 until one does.
#[derive(Drop)]
pub(crate) struct Opened {
    pub(crate) name: String,
    pub(crate) code: Cell<i32>,
}

impl Opened {
    /// That of a file which no read of has failed yet. None where memory for it is refused.
    pub(crate) fn new(alloc: Global, name: &str) -> Option<Rc<Self>> {
        let name = String::from_str(alloc, name).ok()?;
        let code = Cell::new(0);
        Rc::new(alloc, Opened { name, code }).ok()
    }

    /// Why a read of it failed, if one did.
    pub(crate) fn reason(&self) -> Option<io::Error> {
        match self.code.get() {
            0 => None,
            code => Some(io::Error::from_raw_os_error(code)),
        }
    }
}

/// A file of the disk that was opened to be read.
#[derive(Drop)]
pub struct DiskContents<F> {
    file: F,
    // Gets why a read fails, where memory for it was had.
    opened: Option<Rc<Opened>>,
}

impl<F> DiskContents<F> {
    /// What is left in this file.
    pub(crate) fn of(file: F, opened: Option<Rc<Opened>>) -> Self
        ensures { result.file ≡ file }
    {
        DiskContents { file, opened }
    }
}

impl<F: Read + Drop> Contents for DiskContents<F> {
    ghost holds = { λ _. None };

    // All that was left in the file, where that is known.
    ghost may_give = { λ contents bytes. AreLeftIn F F.remaining contents.file bytes };

    fn hand_over<T: Taker>(self, taker: &mut T) -> Result<(), WorldFault> {
        let mut file = self.file;
        match hand_blocks(&mut file, taker) {
            Ok(()) => Ok(()),
            Err(reason) => {
                keep_reason(&self.opened, &reason);
                Err(fault_of(&reason))
            }
        }
    }
}

/// Keeps the system's number of why a read failed, if it has one.
fn keep_reason(opened: &Option<Rc<Opened>>, reason: &io::Error) {
    if let (Some(opened), Some(code)) = (opened, reason.raw_os_error()) {
        opened.as_ref().code.set(code);
    }
}

/// Hands all that is left in the file over, block by block.
fn hand_blocks<F: Read, T: Taker>(file: &mut F, taker: &mut T) -> io::Result<()>
    ensures { OnOk result ((bytes : List ℕ)
        × AreLeftIn F F.remaining file.old bytes
        × T.after taker.old bytes taker.new) }
{
    let mut block = [0u8; BLOCK];
    for _turn in 0..u64::MAX {
        let count = read_block(file, &mut block)?;
        if count == 0 {
            return Ok(());
        }
        taker.take(&block[..count]);
    }
    Err(io::Error::from(ErrorKind::FileTooLarge))
}

/// All that is left in the file, which is closed. Memory is taken at first for `size` bytes, its
/// length, and one byte more, for the read that finds the end, so that a large file is held once.
pub(crate) fn read_sized<F: Read + Drop>(alloc: Global, file: F, size: usize) -> io::Result<Vec<u8>>
    ensures { IfOk result (λ bytes. AreLeftIn F F.remaining file bytes.items) }
{
    let mut bytes = Vec::with_capacity(alloc, size.saturating_add(1))?;
    let mut file = file;
    file.read_to_end(&mut bytes)?;
    Ok(bytes)
}
