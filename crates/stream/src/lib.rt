// The stream: a hash of bytes that come in parts.
#![tactic(auto)]

pub mod rapid_stream_hasher;
