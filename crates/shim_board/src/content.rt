// What lies in a place of the table.

/// What lies in a place of the table: the net in the first one, and pieces in those of the slots.
#[derive(Drop)]
pub enum Content<T, N> {
    Nothing,
    Piece(T),
    Net(N),
}
