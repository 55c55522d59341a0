use crate::status::Status;
use vm_field::Bytes;

/// A status and the line that is printed with it.
#[derive(Drop)]
pub struct Answer {
    pub status: Status,
    pub line: Bytes,
}
