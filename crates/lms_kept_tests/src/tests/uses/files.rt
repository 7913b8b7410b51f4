//! Those functions that use files.
use super::key_of;
use lms_uses::{is_valid, make_state, sign_by_kept_nodes, sign_from_file};
use std::fs;
use std::test::Fail;
use std::thread::Threads;

/// Makes a folder with the state of a new key, in place of one that an earlier run left.
fn makes_folder(rt: &HostRuntime, folder: &str, name: &str) -> Result<bool, Fail> {
    let key = key_of(7)?;
    let _ = fs::remove_dir_all(rt, folder);
    Ok(fs::create_dir(rt, folder).is_ok() && make_state(rt, rt.alloc(), name, key).is_ok())
}

/// Whether the index of this number is used by a signature of the message.
fn signs_next(
    rt: &(impl Threads + Sync),
    files: &HostRuntime,
    name: &str,
    index: u64,
) -> Result<bool, Fail> {
    let signed = sign_from_file(rt, files, files.alloc(), name, &[1; 32], b"abc")?;
    Ok(signed.index == index && is_valid(&signed.public, b"abc", &signed.signature))
}

#[test]
fn a_state_in_a_file_signs(rt: HostRuntime) -> Result<(), Fail> {
    let name = "uses_sign/key.state";
    assert!(rt; makes_folder(&rt, "uses_sign", name)?);
    assert!(rt; make_state(&rt, rt.alloc(), name, key_of(7)?).is_err());
    for index in [0, 1] {
        assert!(rt; signs_next(&rt, &rt, name, index)?);
    }
    fs::remove_dir_all(&rt, "uses_sign")?;
    Ok(())
}

/// Whether an index signs, and whether its trees are kept then.
fn signs_by_kept_nodes(
    rt: &(impl Threads + Sync),
    files: &HostRuntime,
    name: &str,
    index: u64,
    is_kept_anew: bool,
) -> Result<bool, Fail> {
    let public = key_of(7)?.public_key(rt, files.alloc())?;
    match sign_by_kept_nodes(rt, files, files.alloc(), name, &[1; 32], b"abc") {
        Ok(signed) => Ok(
            signed.index == index
                && is_valid(&public, b"abc", &signed.signature)
                && signed.trees.is_some() == is_kept_anew,
        ),
        Err(error) => Err(Fail::from(error)),
    }
}

#[test]
fn kept_nodes_sign(rt: HostRuntime) -> Result<(), Fail> {
    let name = "uses_kept/key.state";
    assert!(rt; makes_folder(&rt, "uses_kept", name)?);
    for (index, is_kept_anew) in [(0, true), (1, false)] {
        assert!(rt; signs_by_kept_nodes(&rt, &rt, name, index, is_kept_anew)?);
    }
    fs::remove_dir_all(&rt, "uses_kept")?;
    Ok(())
}
