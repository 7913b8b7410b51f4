//! Files, read to their end.
ghost use Rattle.std.specs.Prelude.{◌≤◌, length, IfOk, IfSome};
ghost use Rattle.lms_files.specs.Files.{AreLeftIn};

use std::alloc::Global;
use std::io;
use std::io::Read;

/// All that is left in a file, which is closed. An error where it can't be read, or memory is
/// refused.
pub fn read_rest<F: Read + Drop>(alloc: Global, file: F) -> io::Result<Vec<u8>>
    ensures { IfOk result (λ text. AreLeftIn F F.remaining file text.items) }
{
    let (mut file, mut text) = (file, Vec::new(alloc));
    file.read_to_end(&mut text)?;
    Ok(text)
}

/// All that is left in a file, at most `most` bytes. `None` where more are left. The file is closed
/// in any case. It takes memory for one byte more than `most`. An error where the file can't be
/// read, or memory is refused.
pub fn read_at_most<F: Read + Drop>(
    alloc: Global,
    file: F,
    most: usize,
) -> io::Result<Option<Vec<u8>>>
    ensures at_most { IfOk result (λ found. IfSome found (λ text. length text.items ≤ most)) }
    ensures left { IfOk result (λ found.
        IfSome found (λ text. AreLeftIn F F.remaining file text.items)) }
{
    let limit = most.saturating_add(1);
    let mut text = Vec::with_capacity(alloc, limit)?;
    file.take(limit as u64).read_to_end(&mut text)?;
    if text.len() >= limit {
        return Ok(None);
    }
    Ok(Some(text))
}
