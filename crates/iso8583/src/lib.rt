// Messages of ISO 8583, read from bytes and taken apart.
#![tactic(auto)]

pub mod bitmap;
pub mod found;
pub mod message;
pub mod read;
