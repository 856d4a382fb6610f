//! What reading the coefficient files of a line needs beyond the public functions.

pub use crate::command_line::coefficient_file_names;
