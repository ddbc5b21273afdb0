//! Kinds, headers, numbers and lines of Git's objects, after the crate `gix-object` 0.64.
#![tactic(auto)]

mod byte_string;
pub mod cut;
pub mod decimal;
pub mod decode;
pub mod encode;
mod header;
pub mod hex_line;
pub mod kind;
pub mod lines;
pub mod text;
mod traits;
pub mod write;

pub use crate::byte_string::ByteString;
pub use crate::header::Header;
pub use crate::kind::Kind;
pub use crate::traits::WriteTo;
