//! How the entries of a table are laid out.

/// Which positions of its pair a table has an entry for, and where.
#[derive(Clone, Copy, Debug, PartialEq, Eq)]
pub enum Layout {
    /// An entry for each position, at its index.
    Full,
    /// An entry for each position in which the set of the player to move is in canonical form: of
    /// its images under the symmetries of the board it has the least mask. Such a symmetry brings
    /// any position to one of these, its own canonical form, which has its value.
    Classes,
}
