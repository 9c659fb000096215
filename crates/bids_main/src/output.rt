//! What goes out: the bytes of the stream as they are, or records of a recording.
use console::Speak;
use std::io;

// The bytes of the stream as they are, or records of them.
#[derive(Clone, Copy)]
pub enum Form {
    Stream,
    Recording,
}

// Bytes of a record, at most.
const RECORD: usize = 1000;

// Writes bytes as they are.
pub fn print(rt: &(impl Print + Speak), bytes: &[u8]) -> io::Result<()> {
    console::print(rt, b"bids", bytes)
}

impl Form {
    // Writes bytes of the stream.
    pub fn put(self, rt: &(impl Print + Speak), bytes: &[u8]) -> io::Result<()> {
        match self {
            Form::Stream => print(rt, bytes),
            Form::Recording => put_records(rt, bytes),
        }
    }
}

// Bytes in records.
fn put_records(rt: &(impl Print + Speak), bytes: &[u8]) -> io::Result<()> {
    for record in bytes.chunks(RECORD) {
        console::put_record(rt, b"bids", record)?;
    }
    Ok(())
}
