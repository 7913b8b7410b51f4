//! What another implementation signs.
use super::signature;
use hex::FromHex;
use lms_params::{LmsType, OtsType};
use lms_slow::vectors::{ONE_10_8, Vector};
use lms_tree::{TreeKey, WholeTree, public_bytes};
use std::process::Abort;
use std::test::Fail;
use std::thread::Threads;

/// A key of one level, 10/8, and what another implementation signs by it.
fn vector() -> Vector {
    ONE_10_8
}

/// The tree of this vector's key.
fn vector_tree(
    rt: &(impl Abort + AllocGlobal + Threads + Sync),
    vector: Vector,
) -> Result<WholeTree, Fail> {
    let key = TreeKey {
        lms: LmsType::H10,
        ots: OtsType::W8,
        i: FromHex::from_hex(vector.id)?,
        seed: FromHex::from_hex(vector.seed)?,
    };
    Ok(WholeTree::build(rt, rt.alloc(), key)?)
}

/// The public key, and what the vector's leaf signs, after the four bytes of an HSS public key and
/// of an HSS signature of one level.
#[test]
fn agrees_with_another_implementation(rt: HostRuntime) -> Result<(), Fail> {
    let vector = vector();
    let q = (vector.index % 1024) as u32;
    let randomizer = FromHex::from_hex(vector.randomizer)?;
    let tree = vector_tree(&rt, vector)?;
    let public = public_bytes(&tree);
    let text = signature(&rt, &tree, q, &randomizer, vector.message.as_bytes())?;
    drop(tree);
    let expected = hex::decode(rt.alloc(), vector.signature)?;
    let expected_public = hex::decode(rt.alloc(), vector.public)?;
    assert!(rt;
        expected_public.get(4..) == Some(public.as_slice())
            && expected.get(4..) == Some(text.as_slice())
    );
    Ok(())
}
