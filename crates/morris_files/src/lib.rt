//! Folders of tables: files that are written whole or not at all, and the file of each pair under a
//! name of its own.
//!
//! Folders:
//! - `folder`: what a folder does; begin here
//! - `system`: a folder of the system
//! - `reason`: why a call on one failed
//! - `error_noting`: a file that notes why a write of it failed
//! - `whole`: files that are written whole or not at all
//!
//! The files of tables:
//! - `names`: their names
//! - `stored`: tables from them
//! - `header`: what the header of one says
//! - `table_file`: one that is written
//! - `digested_table`: its bytes, written and digested in one pass
//!
//! The list of their digests:
//! - `checksum_list`: a list that is written
//! - `old_checksums`: the lines of an older one that are retained
//! - `checksum_line`: whether one line is
#![tactic(auto)]

mod checksum_line;
pub mod checksum_list;
mod digested_table;
pub mod error_noting;
pub mod folder;
pub mod header;
pub mod names;
pub mod old_checksums;
pub mod reason;
pub mod stored;
pub mod system;
pub mod table_file;
pub mod whole;
