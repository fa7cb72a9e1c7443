//! Files with a head and a digest: the name of a format, one of its versions, a length, fields, and the MD5 of all of them.
#![tactic(auto)]

mod head;
mod put;

pub use fault_messages::HeadFault;
pub use head::{stated_version, stored_digest, unsealed};
pub use put::{put_double, put_half, put_word};
