//! Recordings that come from a reader, and what is made of their packets. What the commands print of them is shown by
//! the transcripts.
mod advancing;
mod drawn;
mod equal;
mod failures;
mod followed;
mod kept;
mod rereading;
mod skipped;
mod streamed;
mod streams;
