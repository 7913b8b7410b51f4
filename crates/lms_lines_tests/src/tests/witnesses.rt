//! The line of a witness, as it is printed and read.
use lms_texts::{decimal_number, print_witness, witness_counter};
use std::alloc::Global;
use std::test::Fail;

const ID: [u8; 16] = *b"\x00\x11\x22\x33\x44\x55\x66\x77\x88\x99\xaa\xbb\xcc\xdd\xee\xff";

const HEAD: &str = "HSS key 00112233445566778899aabbccddeeff has used all indices below ";

/// The last number.
const MOST: &str = "18446744073709551615";

/// A line that says the last number, and one that is no text.
const LAST: &str =
    "HSS key 00112233445566778899aabbccddeeff has used all indices below 18446744073709551615\n";

const NO_TEXT: &[u8] =
    b"HSS key 00112233445566778899aabbccddeeff has used all indices below \xff\n";

/// Whether a line that begins so and goes on so says this of the key.
fn says(alloc: Global, head: &str, rest: &str, counter: Option<u64>) -> bool {
    match format!(in alloc; "{head}{rest}") {
        Ok(line) => witness_counter(line.as_bytes(), &ID) == counter,
        Err(_) => false,
    }
}

/// Whether the line of this number is printed with these digits, and says it when it is read.
fn is_printed(alloc: Global, counter: u64, digits: &str) -> Result<bool, Fail> {
    let line = format!(in alloc; "{HEAD}{digits}\n")?;
    let mut printed = Vec::new(alloc);
    let done = print_witness(&mut printed, &ID, counter).is_ok();
    Ok(
        done && printed.as_slice() == line.as_bytes()
            && witness_counter(&printed, &ID) == Some(counter),
    )
}

#[test]
fn a_printed_line_is_read(rt: HostRuntime) -> Result<(), Fail> {
    for (counter, digits) in [(0, "0"), (7, "7"), (1024, "1024"), (u64::MAX, MOST)] {
        assert!(rt; is_printed(rt.alloc(), counter, digits)?, "{digits}");
    }
    Ok(())
}

#[test]
fn another_number_is_not_read(rt: HostRuntime) {
    assert!(rt;
        says(rt.alloc(), HEAD, "70\n", Some(70))
            && says(rt.alloc(), HEAD, "18446744073709551616\n", None)
            && says(rt.alloc(), HEAD, "\u{666}\n", None)
    );
    for rest in [
        "", "\n", "70", "70\r\n", "70\n\n", "70 \n", " 70\n", "70\n70\n", "070\n", "00\n", "+70\n",
        "-0\n", "0x70\n", "7o\n",
    ] {
        assert!(rt; says(rt.alloc(), HEAD, rest, None), "{rest}");
    }
}

/// The last length below its own to which a line is cut, and says something.
fn read_cut(line: &[u8]) -> Option<usize> {
    let mut read = None;
    for len in 0..line.len() {
        if witness_counter(&line[..len], &ID).is_some() {
            read = Some(len);
        }
    }
    read
}

#[test]
fn another_line_is_not_read(rt: HostRuntime) {
    for head in [
        "",
        " HSS key 00112233445566778899aabbccddeeff has used all indices below ",
        "HSS key 00112233445566778899aabbccddeefe has used all indices below ",
        "HSS key 10112233445566778899aabbccddeeff has used all indices below ",
        "HSS key 00112233445566778899AABBCCDDEEFF has used all indices below ",
        "HSS key 00112233445566778899aabbccddeeff has used all indices up to ",
        "HSS key 00112233445566778899aabbccddee has used all indices below ",
        "HSS  key 00112233445566778899aabbccddeeff has used all indices below ",
    ] {
        assert!(rt; says(rt.alloc(), head, "7\n", None), "{head}");
    }
    let cut = read_cut(LAST.as_bytes());
    assert!(rt; cut.is_none(), "{cut:?}");
    assert!(rt;
        says(rt.alloc(), LAST, "", Some(u64::MAX))
            && says(rt.alloc(), LAST, LAST, None)
            && NO_TEXT.starts_with(HEAD.as_bytes())
            && witness_counter(NO_TEXT, &ID).is_none()
    );
}

#[test]
fn a_number_is_read_in_one_form(rt: HostRuntime) {
    for (text, number) in [("0", 0), ("7", 7), ("10", 10), (MOST, u64::MAX)] {
        assert!(rt; decimal_number(text) == Some(number), "{text}");
    }
    assert!(rt; decimal_number("18446744073709551616").is_none());
    for text in [
        "", "00", "07", "+7", "-7", " 7", "7 ", "7\n", "7a", "\u{667}",
    ] {
        assert!(rt; decimal_number(text).is_none(), "{text}");
    }
}
