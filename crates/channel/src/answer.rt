//! The result of a call.
use crate::receiver::Receiver;
use channel_spec::Answer;

/// The result of a call.
#[derive(Clone, Copy)]
pub struct Hearing {
    pub answer: Answer,
    /// Bytes of the piece taken.
    pub taken: usize,
    pub receiver: Receiver,
}
