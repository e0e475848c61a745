//! Job lines, each read by itself.
ghost use Rattle.std.specs.Prelude.{◌≡◌, map};
ghost use Rattle.job_lines.specs.Declaration.{channel_of, zone_of, axis_name_of, owner_of, slot_of, g_of, carrier_of, named_side_of, channel_declaration_of, starting_declaration_of, channel_line, axis_declaration_of, axis_line, geo_declaration_of, geo_line, offset_declaration_of, offset_line, state_of, zone_head_of, zone_declaration_of, zone_line, tool_declaration_of, tool_line, job_line, declaration_of};

use crate::code::Code;
use crate::length::length_in;
use crate::numbers::{number_within, small_within};
use crate::option_lines::option_declaration_in;
use crate::tool_lines::{GivenEdge, given_edge_in};
use axis_sets::{ChannelId, ZONE_LIMIT, ZoneId};
use micro_units::Um;
use nc_blocks::NameText;

/// The name of an axis.
#[derive(Clone, Copy, PartialEq, Eq)]
pub struct AxisName {
    /// Its letter, in upper case.
    pub letter: u8,
    /// Its number, 1 to 99.
    pub number: u8,
}

/// A direction of a zone whose axis is a name.
#[derive(Clone, Copy, PartialEq, Eq)]
pub struct NamedSide {
    /// The axis that carries it, with true where it goes against the axis.
    pub carrier: Option<(AxisName, bool)>,
    /// The lower end.
    pub lo: Um,
    /// The upper end.
    pub hi: Um,
}

/// A zone without its directions.
#[derive(Clone, Copy, PartialEq, Eq)]
pub struct ZoneHead {
    /// The zone.
    pub zone: ZoneId,
    /// Its group, from 1 on.
    pub group: u8,
    /// The channel that holds it, or none where it is held free.
    pub holder: Option<ChannelId>,
    /// Whether it is on.
    pub on: bool,
}

/// A zone whose axes are names.
#[derive(Clone, Copy, PartialEq, Eq)]
pub struct NamedZone {
    /// The zone.
    pub zone: ZoneId,
    /// Its group, from 1 on.
    pub group: u8,
    /// The channel that holds it, or none where it is held free.
    pub holder: Option<ChannelId>,
    /// Whether it is on.
    pub on: bool,
    /// Its direction along X.
    pub x: NamedSide,
    /// Its direction along Y.
    pub y: NamedSide,
    /// Its direction along Z.
    pub z: NamedSide,
}

/// What a job line says by itself.
#[derive(Drop)]
pub enum Declaration {
    /// A channel, the program that is selected in it, and whether it starts running.
    Channel {
        /// The channel.
        channel: ChannelId,
        /// The name of the program.
        program: Option<NameText>,
        /// Whether the channel runs the program from the beginning.
        starts: bool,
    },
    /// An axis, its owner or none where it is free, and its position at the start.
    Axis {
        /// The name.
        name: AxisName,
        /// The owner.
        owner: Option<ChannelId>,
        /// The position.
        at: Um,
    },
    /// A slot of a channel, and the axis in it.
    Geo {
        /// The channel.
        channel: ChannelId,
        /// The slot: 0 for X, 1 for Y, 2 for Z.
        slot: u8,
        /// The axis.
        axis: AxisName,
    },
    /// A settable offset of a slot of a channel.
    Offset {
        /// The channel.
        channel: ChannelId,
        /// The number of the G word that selects it, 54 to 57 or 505 to 599.
        g: u16,
        /// The slot: 0 for X, 1 for Y, 2 for Z.
        slot: u8,
        /// The offset.
        by: Um,
    },
    /// A zone.
    Zone(NamedZone),
    /// An edge of a tool of a channel.
    Tool {
        /// The channel.
        channel: ChannelId,
        /// The edge, with its lengths.
        edge: GivenEdge,
    },
    /// The margin of all zones, 0 to 1,000 millimetres.
    Margin(Um),
    /// The depth of comparison, 0 to 4.
    Depth(u8),
    /// The budget of comparison, 1 to 100,000,000.
    Budget(u32),
    /// Tool radius compensation is accepted.
    Compensation,
    /// Blocks that begin with `/` are left out.
    Skip,
}

/// The channel that the word names, up to the greatest.
#[tactic(auto, unfolding(crate::specs::Declaration::channel_of))]
fn channel_in(greatest: ChannelId, word: &[u8]) -> Result<ChannelId, Code>
    ensures { result ≡ channel_of greatest word.now }
{
    match small_within(1, greatest.number, word) {
        Some(number) => Ok(ChannelId { number }),
        None => Err(Code::OutOfRange),
    }
}

/// The zone that the word names.
#[tactic(auto, unfolding(crate::specs::Declaration::zone_of))]
fn zone_in(word: &[u8]) -> Result<ZoneId, Code>
    ensures { result ≡ zone_of word.now }
{
    match small_within(1, ZONE_LIMIT as u8, word) {
        Some(number) => Ok(ZoneId { number }),
        None => Err(Code::OutOfRange),
    }
}

/// The group that the word names, which has the range of a zone.
#[tactic(auto, unfolding(crate::specs::Declaration::zone_of))]
fn group_in(word: &[u8]) -> Result<u8, Code>
    ensures { result ≡ zone_of word.now }
{
    match small_within(1, ZONE_LIMIT as u8, word) {
        Some(number) => Ok(number),
        None => Err(Code::OutOfRange),
    }
}

/// The axis name that the word is.
#[tactic(auto, unfolding(crate::specs::Declaration::axis_name_of))]
fn axis_name_in(word: &[u8]) -> Result<AxisName, Code>
    ensures { result ≡ axis_name_of word.now }
{
    let [letter, digits @ ..] = word else {
        return Err(Code::OutOfRange);
    };
    if !b"ABCUVWXYZ".contains(letter) {
        return Err(Code::OutOfRange);
    }
    match small_within(1, 99, digits) {
        Some(number) => Ok(AxisName {
            letter: *letter,
            number,
        }),
        None => Err(Code::OutOfRange),
    }
}

/// The channel that owns an axis or holds a zone, or none where it is free.
#[tactic(auto, unfolding(crate::specs::Declaration::owner_of))]
fn owner_in(greatest: ChannelId, word: &[u8]) -> Result<Option<ChannelId>, Code>
    ensures { result ≡ owner_of greatest word.now }
{
    if word == b"FREE".as_slice() {
        return Ok(None);
    }
    Ok(Some(channel_in(greatest, word)?))
}

/// The slot that the word names.
#[tactic(auto, unfolding(crate::specs::Declaration::slot_of))]
fn slot_in(word: &[u8]) -> Result<u8, Code>
    ensures { result ≡ slot_of word.now }
{
    if word == b"X".as_slice() {
        Ok(0)
    } else if word == b"Y".as_slice() {
        Ok(1)
    } else if word == b"Z".as_slice() {
        Ok(2)
    } else {
        Err(Code::OutOfRange)
    }
}

/// The number of the G word of a settable offset.
#[tactic(auto, unfolding(crate::specs::Declaration::g_of))]
fn g_in(word: &[u8]) -> Result<u16, Code>
    ensures { result ≡ g_of word.now }
{
    let [b'G', digits @ ..] = word else {
        return Err(Code::OutOfRange);
    };
    match number_within(54, 599, digits) {
        Some(number) if number <= 57 || number >= 505 => Ok(number as u16),
        _ => Err(Code::OutOfRange),
    }
}

/// The carrier of a direction.
#[tactic(auto, unfolding(crate::specs::Declaration::carrier_of))]
fn carrier_in(word: &[u8]) -> Result<Option<(AxisName, bool)>, Code>
    ensures { result ≡ carrier_of word.now }
{
    match word {
        [b'-'] => Ok(None),
        [b'+', name @ ..] => Ok(Some((axis_name_in(name)?, false))),
        [b'-', name @ ..] => Ok(Some((axis_name_in(name)?, true))),
        _ => Err(Code::OutOfRange),
    }
}

/// A direction of a zone.
#[tactic(auto, unfolding(crate::specs::Declaration::named_side_of))]
fn named_side_in(carrier: &[u8], lo: &[u8], hi: &[u8]) -> Result<NamedSide, Code>
    ensures { result ≡ named_side_of carrier.now lo.now hi.now }
{
    let carrier = carrier_in(carrier)?;
    let lo = length_in(lo)?;
    let hi = length_in(hi)?;
    if lo.micrometres > hi.micrometres {
        return Err(Code::OutOfRange);
    }
    Ok(NamedSide { carrier, lo, hi })
}

/// A channel with a program or none.
#[tactic(auto, unfolding(crate::specs::Declaration::channel_declaration_of))]
fn channel_declaration_in(
    greatest: ChannelId,
    channel: &[u8],
    program: Option<NameText>,
    starts: bool,
) -> Result<Declaration, Code>
    ensures { result ≡ channel_declaration_of greatest channel.now program starts }
{
    let channel = channel_in(greatest, channel)?;
    Ok(Declaration::Channel {
        channel,
        program,
        starts,
    })
}

/// A channel that runs a program from the beginning.
#[tactic(auto, unfolding(crate::specs::Declaration::starting_declaration_of))]
fn starting_declaration_in(
    greatest: ChannelId,
    channel: &[u8],
    program: &[u8],
    start: &[u8],
) -> Result<Declaration, Code>
    ensures { result ≡ starting_declaration_of greatest channel.now program.now start.now }
{
    if start != b"START".as_slice() {
        return Err(Code::UnknownJobLine);
    }
    channel_declaration_in(greatest, channel, Some(NameText::of_word(program)), true)
}

/// What follows CHANNEL.
#[tactic(auto, unfolding(crate::specs::Declaration::channel_line))]
fn channel_line_in(greatest: ChannelId, args: &[&[u8]]) -> Result<Declaration, Code>
    ensures { result ≡ channel_line greatest (map (λ word. word.now) args.now) }
{
    match args {
        [channel] => channel_declaration_in(greatest, channel, None, false),
        [channel, program] => channel_declaration_in(
            greatest,
            channel,
            Some(NameText::of_word(program)),
            false,
        ),
        [channel, program, start] => starting_declaration_in(greatest, channel, program, start),
        _ => Err(Code::UnknownJobLine),
    }
}

/// An axis, its owner and its position.
#[tactic(auto, unfolding(crate::specs::Declaration::axis_declaration_of))]
fn axis_declaration_in(
    greatest: ChannelId,
    name: &[u8],
    owner: &[u8],
    at: &[u8],
) -> Result<Declaration, Code>
    ensures { result ≡ axis_declaration_of greatest name.now owner.now at.now }
{
    let name = axis_name_in(name)?;
    let owner = owner_in(greatest, owner)?;
    let at = length_in(at)?;
    Ok(Declaration::Axis { name, owner, at })
}

/// What follows AXIS.
#[tactic(auto, unfolding(crate::specs::Declaration::axis_line))]
fn axis_line_in(greatest: ChannelId, args: &[&[u8]]) -> Result<Declaration, Code>
    ensures { result ≡ axis_line greatest (map (λ word. word.now) args.now) }
{
    match args {
        [name, owner, at] => axis_declaration_in(greatest, name, owner, at),
        _ => Err(Code::UnknownJobLine),
    }
}

/// A slot of a channel, and the axis in it.
#[tactic(auto, unfolding(crate::specs::Declaration::geo_declaration_of))]
fn geo_declaration_in(
    greatest: ChannelId,
    channel: &[u8],
    slot: &[u8],
    axis: &[u8],
) -> Result<Declaration, Code>
    ensures { result ≡ geo_declaration_of greatest channel.now slot.now axis.now }
{
    let channel = channel_in(greatest, channel)?;
    let slot = slot_in(slot)?;
    let axis = axis_name_in(axis)?;
    Ok(Declaration::Geo {
        channel,
        slot,
        axis,
    })
}

/// What follows GEO.
#[tactic(auto, unfolding(crate::specs::Declaration::geo_line))]
fn geo_line_in(greatest: ChannelId, args: &[&[u8]]) -> Result<Declaration, Code>
    ensures { result ≡ geo_line greatest (map (λ word. word.now) args.now) }
{
    match args {
        [channel, slot, axis] => geo_declaration_in(greatest, channel, slot, axis),
        _ => Err(Code::UnknownJobLine),
    }
}

/// A settable offset.
#[tactic(auto, unfolding(crate::specs::Declaration::offset_declaration_of))]
fn offset_declaration_in(
    greatest: ChannelId,
    channel: &[u8],
    g: &[u8],
    slot: &[u8],
    by: &[u8],
) -> Result<Declaration, Code>
    ensures { result ≡ offset_declaration_of greatest channel.now g.now slot.now by.now }
{
    let channel = channel_in(greatest, channel)?;
    let g = g_in(g)?;
    let slot = slot_in(slot)?;
    let by = length_in(by)?;
    Ok(Declaration::Offset {
        channel,
        g,
        slot,
        by,
    })
}

/// What follows OFFSET.
#[tactic(auto, unfolding(crate::specs::Declaration::offset_line))]
fn offset_line_in(greatest: ChannelId, args: &[&[u8]]) -> Result<Declaration, Code>
    ensures { result ≡ offset_line greatest (map (λ word. word.now) args.now) }
{
    match args {
        [channel, g, slot, by] => offset_declaration_in(greatest, channel, g, slot, by),
        _ => Err(Code::UnknownJobLine),
    }
}

/// Whether a zone is on.
#[tactic(auto, unfolding(crate::specs::Declaration::state_of))]
fn state_in(word: &[u8]) -> Result<bool, Code>
    ensures { result ≡ state_of word.now }
{
    if word == b"ON".as_slice() {
        Ok(true)
    } else if word == b"OFF".as_slice() {
        Ok(false)
    } else {
        Err(Code::UnknownJobLine)
    }
}

/// A zone without its directions.
#[tactic(auto, unfolding(crate::specs::Declaration::zone_head_of))]
fn zone_head_in(
    greatest: ChannelId,
    zone: &[u8],
    group: &[u8],
    holder: &[u8],
    state: &[u8],
) -> Result<ZoneHead, Code>
    ensures { result ≡ zone_head_of greatest zone.now group.now holder.now state.now }
{
    let on = state_in(state)?;
    let zone = zone_in(zone)?;
    let group = group_in(group)?;
    let holder = owner_in(greatest, holder)?;
    Ok(ZoneHead {
        zone,
        group,
        holder,
        on,
    })
}

/// A zone with its directions along X, Y and Z, or the first code of these.
#[tactic(auto, unfolding(crate::specs::Declaration::zone_declaration_of))]
fn zone_declaration_in(
    head: Result<ZoneHead, Code>,
    x: Result<NamedSide, Code>,
    y: Result<NamedSide, Code>,
    z: Result<NamedSide, Code>,
) -> Result<Declaration, Code>
    ensures { result ≡ zone_declaration_of head x y z }
{
    let head = head?;
    let x = x?;
    let y = y?;
    let z = z?;
    Ok(Declaration::Zone(NamedZone {
        zone: head.zone,
        group: head.group,
        holder: head.holder,
        on: head.on,
        x,
        y,
        z,
    }))
}

/// What follows ZONE.
#[tactic(auto, unfolding(crate::specs::Declaration::zone_line))]
fn zone_line_in(greatest: ChannelId, args: &[&[u8]]) -> Result<Declaration, Code>
    ensures { result ≡ zone_line greatest (map (λ word. word.now) args.now) }
{
    match args {
        [
            zone,
            group,
            holder,
            state,
            cx,
            lx,
            hx,
            cy,
            ly,
            hy,
            cz,
            lz,
            hz,
        ] => {
            let head = zone_head_in(greatest, zone, group, holder, state);
            let x = named_side_in(cx, lx, hx);
            let y = named_side_in(cy, ly, hy);
            let z = named_side_in(cz, lz, hz);
            zone_declaration_in(head, x, y, z)
        }
        _ => Err(Code::UnknownJobLine),
    }
}

/// An edge of a tool of a channel, or the first code of the two.
#[tactic(auto, unfolding(crate::specs::Declaration::tool_declaration_of))]
fn tool_declaration_in(
    channel: Result<ChannelId, Code>,
    edge: Result<GivenEdge, Code>,
) -> Result<Declaration, Code>
    ensures { result ≡ tool_declaration_of channel edge }
{
    let channel = channel?;
    let edge = edge?;
    Ok(Declaration::Tool { channel, edge })
}

/// What follows TOOL.
#[tactic(auto, unfolding(crate::specs::Declaration::tool_line))]
fn tool_line_in(greatest: ChannelId, args: &[&[u8]]) -> Result<Declaration, Code>
    ensures { result ≡ tool_line greatest (map (λ word. word.now) args.now) }
{
    match args {
        [channel, tool, edge, x, z] => {
            let channel = channel_in(greatest, channel);
            let edge = given_edge_in(tool, edge, x, z);
            tool_declaration_in(channel, edge)
        }
        _ => Err(Code::UnknownJobLine),
    }
}

/// What follows JOB after the first job line.
#[tactic(auto, unfolding(crate::specs::Declaration::job_line))]
fn job_line_in(args: &[&[u8]]) -> Result<Declaration, Code>
    ensures { result ≡ job_line (map (λ word. word.now) args.now) }
{
    match args {
        [_] => Err(Code::DeclaredTwice),
        _ => Err(Code::UnknownJobLine),
    }
}

/// What a job line says, from its first word and the others, all in upper case, where channels have numbers up to the greatest.
///
/// A first word that begins no job line, a wrong number of words, and a word in the place of START, ON, OFF or CONTOUR that is none of these are tried first (`UnknownJobLine`); then, from left to right, the numbers, names and lengths (`OutOfRange`).
#[tactic(auto, unfolding(crate::specs::Declaration::declaration_of))]
pub fn declaration_in(greatest: ChannelId, kind: &[u8], args: &[&[u8]]) -> Result<Declaration, Code>
    ensures { result ≡ declaration_of greatest kind.now (map (λ word. word.now) args.now) }
{
    if kind == b"CHANNEL".as_slice() {
        channel_line_in(greatest, args)
    } else if kind == b"AXIS".as_slice() {
        axis_line_in(greatest, args)
    } else if kind == b"GEO".as_slice() {
        geo_line_in(greatest, args)
    } else if kind == b"OFFSET".as_slice() {
        offset_line_in(greatest, args)
    } else if kind == b"ZONE".as_slice() {
        zone_line_in(greatest, args)
    } else if kind == b"TOOL".as_slice() {
        tool_line_in(greatest, args)
    } else if kind == b"JOB".as_slice() {
        job_line_in(args)
    } else {
        option_declaration_in(kind, args)
    }
}
