// Which blocks go into which frame of the tape.
use crate::messages::Piece;

// The lengths of payloads in 1X and in 2X.
pub const ONE_X: usize = 30;

pub const TWO_X: usize = 60;

// Blocks that go into a frame together, each told by its message and its index there.
pub type Group = &'static [(Piece, u8)];

// A frame as it is planned: a group of one or two blocks, and behind it perhaps a block that is a group of its own, for which
// there may be no room.
#[derive(Clone, Copy)]
pub struct Shot(pub Group, pub Group);

// Two groups, of which the second doesn't fit into 1X.
const OPENING: Shot = Shot(&[(Piece::Begin, 0)], &[(Piece::Title, 0)]);

const TITLE: Shot = Shot(&[(Piece::Title, 0)], &[]);

const SPOT: Shot = Shot(&[(Piece::Spot, 0)], &[]);

const LOG_0: Shot = Shot(&[(Piece::Log, 0)], &[]);

const LOG_1: Shot = Shot(&[(Piece::Log, 1)], &[]);

const LOG_2: Shot = Shot(&[(Piece::Log, 2)], &[]);

const NEXT_LOG_0: Shot = Shot(&[(Piece::NextLog, 0)], &[]);

const NEXT_LOG_1: Shot = Shot(&[(Piece::NextLog, 1)], &[]);

const NEXT_LOG: Shot = Shot(&[(Piece::NextLog, 0), (Piece::NextLog, 1)], &[]);

const PAUSE: Shot = Shot(
    &[(Piece::NextSpot, 0), (Piece::Break, 0)],
    &[(Piece::Other, 0)],
);

const NEXT_SPOT: Shot = Shot(&[(Piece::NextSpot, 0)], &[(Piece::Other, 0)]);

const WRONG: Shot = Shot(&[(Piece::Wrong, 0)], &[]);

const TITLE_AGAIN: Shot = Shot(&[(Piece::Title, 0), (Piece::Other, 0)], &[]);

// The title with its log, and a spot.
pub const SHOTS_IN_ONE_X: [Shot; 16] = [
    OPENING, TITLE, LOG_0, LOG_1, LOG_2, TITLE, LOG_0, LOG_1, LOG_2, TITLE, SPOT, SPOT, NEXT_LOG_0,
    SPOT, NEXT_LOG_1, SPOT,
];

// A second spot, and the title again.
pub const SHOTS_IN_TWO_X: [Shot; 8] = [
    PAUSE,
    NEXT_SPOT,
    NEXT_LOG,
    NEXT_SPOT,
    WRONG,
    TITLE_AGAIN,
    TITLE_AGAIN,
    TITLE_AGAIN,
];
