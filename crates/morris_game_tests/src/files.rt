//! Folders, files of tables in them, and look-ups in such files.

mod lists;
mod looking;
mod stored;
mod system;
mod text;
mod writing;
