//! What a drawing shows, in micrometres in the three directions of space.
use swept_boxes::Box3;
use sync_types::PlaceName;

/// How a box is drawn.
#[derive(Clone, Copy)]
pub enum Look {
    /// As one of a channel, by its number.
    Held(u8),
    /// As one that nobody holds: hatched.
    Free,
    /// As the first of the two that the verdict names: in red, named in its upper left corner.
    First,
    /// As the second of them: in red, named in its lower left corner.
    Second,
}

/// A box that is drawn.
#[derive(Clone, Copy)]
pub struct Tile {
    /// The box.
    pub space: Box3,
    /// How it is drawn.
    pub look: Look,
    /// Its zone, the channel that holds it, what that does, and the line of its block; 0 where it has none.
    pub name: PlaceName,
    /// Whether its zone moves in it.
    pub moves: bool,
    /// Whether its name is written into it.
    pub is_labelled: bool,
    /// Whether it is apart in time from what is looked at.
    pub is_pale: bool,
}

/// How a track turns.
#[derive(Clone, Copy)]
pub struct Turn {
    /// The centre.
    pub centre: [i64; 3],
    /// The radius.
    pub radius: u32,
    /// The first direction of its plane, with true where the track goes against it.
    pub first: (usize, bool),
    /// The second.
    pub second: (usize, bool),
    /// Whether it is a whole turn.
    pub full: bool,
}

/// A way of the point that a zone travels with.
#[derive(Clone, Copy)]
pub struct Track {
    /// The number of its channel.
    pub channel: u8,
    /// The number of its zone.
    pub zone: u8,
    /// The line of its block.
    pub line: u32,
    /// Whether each axis goes by itself.
    pub is_rapid: bool,
    /// Whether it is apart in time from what is looked at.
    pub is_pale: bool,
    /// Where it begins.
    pub from: [i64; 3],
    /// Where it ends.
    pub to: [i64; 3],
    /// How it turns; none where it is straight.
    pub turn: Option<Turn>,
}

/// What a channel does in a step.
#[derive(Clone, Copy)]
pub enum Deed {
    /// It acts, and goes on by itself.
    Acts,
    /// It begins to wait.
    Waits,
    /// It goes on.
    GoesOn,
    /// It ends, or is stopped by an alarm.
    Ends,
}

/// What a channel does in a step of the run.
#[derive(Clone, Copy)]
pub struct Moment {
    /// The step, counted from 0.
    pub step: u32,
    /// The number of the channel.
    pub channel: u8,
    /// The number of the channel whose block makes the step.
    pub actor: u8,
    /// The line of its block; 0 where it goes on.
    pub line: u32,
    /// What it does.
    pub deed: Deed,
}

/// The time of a zone in which a box lies that the verdict names.
#[derive(Clone, Copy)]
pub struct Span {
    /// How the box is named.
    pub name: PlaceName,
    /// The step with which the time begins; none where it begins with the job.
    pub first: Option<u32>,
    /// The step with which it ends; none where it lasts.
    pub last: Option<u32>,
}

/// A picture of a run.
#[derive(Drop)]
pub struct Picture {
    /// The boxes, in the order in which they are drawn.
    pub tiles: Vec<Tile>,
    /// The ways.
    pub tracks: Vec<Track>,
    /// What the channels do in each step, in order.
    pub moments: Vec<Moment>,
    /// The times of the two boxes that the verdict names, if it names any.
    pub spans: Vec<Span>,
    /// The numbers of the channels, ascending: 1 to 8.
    pub channels: Vec<u8>,
    /// Whether something was left out since there is too much of it.
    pub is_cut: bool,
}
