//! Parameter sets, lengths and digits.
use lms_params::{LmsType, OtsType, OutOfMemory, digits, lms_sig_len, split_u32, split_u64};
use std::alloc::AllocError;
use std::array;
use std::process::Abort;
use std::test::Fail;

/// The codes of one-time signatures, and no other one up to 16.
fn check_ots_codes(rt: &impl Abort) {
    let rows = [
        (1, OtsType::W1),
        (2, OtsType::W2),
        (3, OtsType::W4),
        (4, OtsType::W8),
    ];
    for (code, ots) in rows {
        assert!(rt; ots.code() == code, "{code}");
        assert!(rt; OtsType::from_code(code) == Some(ots), "{code}");
    }
    assert!(rt; OtsType::from_code(0).is_none());
    for code in 5..=16 {
        assert!(rt; OtsType::from_code(code).is_none(), "{code}");
    }
    assert!(rt; OtsType::from_code(u32::MAX).is_none());
}

/// The same for trees.
fn check_lms_codes(rt: &impl Abort) {
    let rows = [
        (5, LmsType::H5),
        (6, LmsType::H10),
        (7, LmsType::H15),
        (8, LmsType::H20),
        (9, LmsType::H25),
    ];
    for (code, lms) in rows {
        assert!(rt; lms.code() == code, "{code}");
        assert!(rt; LmsType::from_code(code) == Some(lms), "{code}");
    }
    for code in 0..=4 {
        assert!(rt; LmsType::from_code(code).is_none(), "{code}");
    }
    for code in 10..=16 {
        assert!(rt; LmsType::from_code(code).is_none(), "{code}");
    }
    assert!(rt; LmsType::from_code(u32::MAX).is_none());
}

#[test]
fn knows_the_codes_of_the_tables(rt: HostRuntime) {
    check_ots_codes(&rt);
    check_lms_codes(&rt);
}

#[test]
fn has_the_rows_of_the_tables(rt: HostRuntime) {
    let rows = [
        (OtsType::W1, 1, 265, 7, 8516),
        (OtsType::W2, 2, 133, 6, 4292),
        (OtsType::W4, 4, 67, 4, 2180),
        (OtsType::W8, 8, 34, 0, 1124),
    ];
    for (ots, w, p, ls, sig_len) in rows {
        assert!(rt; ots.w() == w && ots.p() == p, "{ots:?}");
        assert!(rt; ots.ls() == ls && ots.sig_len() == sig_len, "{ots:?}");
    }
    let heights = [
        (LmsType::H5, 5),
        (LmsType::H10, 10),
        (LmsType::H15, 15),
        (LmsType::H20, 20),
        (LmsType::H25, 25),
    ];
    for (lms, height) in heights {
        assert!(rt; lms.height() == height, "{lms:?}");
    }
}

#[test]
fn counts_the_bytes_of_signatures(rt: HostRuntime) {
    assert_eq!(rt; lms_sig_len(LmsType::H5, OtsType::W8), 1292);
    assert_eq!(rt; lms_sig_len(LmsType::H10, OtsType::W4), 2508);
    assert_eq!(rt; lms_sig_len(LmsType::H25, OtsType::W1), 9324);
}

/// A hash whose digits are known: those of the message repeat a pattern, and those of the checksum
/// follow.
#[derive(Clone, Copy)]
struct Worked<'a> {
    ots: OtsType,
    hash: [u8; 32],
    pattern: &'a [u8],
    checksum: &'a [u8],
}

impl Worked<'_> {
    /// Digit i, and 0 past the last one.
    fn digit(&self, i: usize) -> u8 {
        let in_message = 256 / self.ots.w() as usize;
        let known = if i < in_message {
            self.pattern.get(i % self.pattern.len().max(1))
        } else {
            self.checksum.get(i - in_message)
        };
        *known.unwrap_or(&0)
    }

    fn check(&self, rt: &impl Abort) {
        for (i, digit) in digits(&self.hash, self.ots).iter().enumerate() {
            assert_eq!(rt; *digit, self.digit(i), "digit {i} under {:?}", self.ots);
        }
    }
}

#[test]
fn cuts_the_worked_digits(rt: HostRuntime) {
    let counted = array::from_fn(|i| i as u8);
    let hexadecimal = array::from_fn(|i| [0x01, 0x23, 0x45, 0x67, 0x89, 0xab, 0xcd, 0xef][i % 8]);
    let nibbles: [u8; 16] = array::from_fn(|i| i as u8);
    let rows = [
        (
            OtsType::W1,
            [0x00; 32],
            &[0][..],
            &[1, 0, 0, 0, 0, 0, 0, 0, 0][..],
        ),
        (OtsType::W2, [0x00; 32], &[0], &[1, 2, 0, 0, 0]),
        (OtsType::W4, [0x00; 32], &[0], &[3, 12, 0]),
        (OtsType::W8, [0x00; 32], &[0], &[31, 224]),
        (OtsType::W1, [0xff; 32], &[1], &[]),
        (OtsType::W2, [0xff; 32], &[3], &[]),
        (OtsType::W4, [0xff; 32], &[15], &[]),
        (OtsType::W8, [0xff; 32], &[255], &[]),
        (OtsType::W8, counted, &counted, &[29, 240]),
        (OtsType::W4, hexadecimal, &nibbles, &[1, 14, 0]),
        (OtsType::W2, [0x1b; 32], &[0, 1, 2, 3], &[0, 3, 0, 0, 0]),
        (
            OtsType::W1,
            [0xaa; 32],
            &[1, 0],
            &[0, 1, 0, 0, 0, 0, 0, 0, 0],
        ),
    ];
    for (ots, hash, pattern, checksum) in rows {
        Worked {
            ots,
            hash,
            pattern,
            checksum,
        }
        .check(&rt);
    }
}

#[test]
fn splits_a_number_off(rt: HostRuntime) {
    assert!(rt; split_u32(&[0, 1, 2, 3, 9]) == Some((0x10203, &[9])));
    assert!(rt; split_u32(&[0, 1, 2, 3]) == Some((0x10203, &[])));
    assert!(rt; split_u32(&[0, 1, 2]).is_none());
    let nine = [0, 1, 2, 3, 4, 5, 6, 7, 8];
    assert!(rt; split_u64(&nine) == Some((0x1020304050607, &[8])));
    assert!(rt; split_u64(&nine[..8]) == Some((0x1020304050607, &[])));
    assert!(rt; split_u64(&nine[..7]).is_none());
}

#[test]
fn says_that_memory_was_refused(rt: HostRuntime) -> Result<(), Fail> {
    let refused = OutOfMemory::from(AllocError).to_string(rt.alloc())?;
    assert_eq!(rt; refused.as_str(), "out of memory");
    Ok(())
}
