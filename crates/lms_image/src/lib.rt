//! The state image: the bytes that a store keeps of a key, of how many of its indices are used, of
//! how many openings stored something, and of how many indices were burnt.
#![tactic(auto)]

mod bytes;
mod fault;
mod image;
pub mod laws;
mod version;

pub use crate::bytes::ImageBytes;
pub use crate::fault::ImageFault;
pub use crate::image::{Image, decode_image, encode_image};
