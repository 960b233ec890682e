// What programs share: the words that they are called with, a file or standard input read whole, a new file written,
// and how long a file is. What goes wrong with a file is reported in one line on standard error.
#![tactic(auto)]

mod errors;
mod given;
mod reading;
mod rooms;
mod sizes;
mod writing;

pub use given::{called, number};
pub use reading::{fill, read};
pub use rooms::{file_room, new_room, sound_room, texts_room};
pub use sizes::{samples_in, size, too_long};
pub use writing::write;
