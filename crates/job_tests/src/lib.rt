//! Tests of the streams of `edge_io`, with streams that fail.
//!
//! A crate with tests of its own is proved twice, without them and with them; here the tests alone
//! are proved.
#![tactic(auto)]

#[cfg(test)]
mod streams;
