//! What items are to a zone.

/// What an item is to a zone.
#[derive(Clone, Copy)]
pub enum ZoneEffect {
    /// Nothing.
    Nothing,
    /// It switches the zone on, where this is true, or off.
    Turns(bool),
    /// A motion that has an axis of the zone.
    Moves,
}
