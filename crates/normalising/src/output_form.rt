//! The form of the output.

use capture_writing::Destination;

/// The form in which packets are written.
#[derive(Clone, Copy, Debug)]
pub enum OutputForm<'a> {
    /// Records of the project's own format, on line A.
    Own,
    /// A savefile, with the frames of each venue to its destination: one for each venue.
    Capture(&'a [Destination]),
}
