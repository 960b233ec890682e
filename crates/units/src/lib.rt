// The four units, and the twenty-one reasons to refuse.
//
// A count of frames, a place in bytes, the number of a donated song and a place among the texts of
// titles are four types, so that none is taken for another. A refusal has the number of document 01's
// table, and `number` is the one place that says which.
#![tactic(auto)]

ghost use Rattle.std.specs.Prelude.{◌≡◌};
ghost use Rattle.units.specs.Refusals.{number_of};

// A number of frames: one sample of each channel is a frame.
#[derive(Clone, Copy)]
pub struct Frames(pub u32);

// A place in a file or a buffer, or a length of one, counted in bytes.
#[derive(Clone, Copy)]
pub struct BytePlace(pub usize);

// The number under which a song was donated; cues and playlist entries are named by it.
#[derive(Clone, Copy)]
pub struct Donation(pub u32);

// A place among the texts of titles, or a length of one, counted in bytes.
#[derive(Clone, Copy)]
pub struct TextPlace(pub u32);

// The limit: a file has at most so many bytes.
pub const LIMIT: usize = 1073741824;

// Why an input is refused, each with its number.
#[derive(Clone, Copy, PartialEq, Eq)]
pub enum Refusal {
    LengthOutOfRange = 1,
    NotWave = 2,
    RiffSizeWrong = 3,
    ChunkPastTheEnd = 4,
    SecondOfItsKind = 5,
    DataBeforeFormat = 6,
    WaveList = 7,
    FormatOrDataMissing = 8,
    FormatWrong = 9,
    NotWholeFrames = 10,
    FactWrong = 11,
    CuesWrong = 12,
    PlaylistWrong = 13,
    OutputTooSmall = 14,
    BlockHeaderWrong = 15,
    SongEmptyOrDifferent = 16,
    NoPlaceOnSide = 17,
    AlreadyListed = 18,
    NotASide = 19,
    NoSuchBlock = 20,
    TitlesWrong = 21,
}

// The number of a refusal.
pub fn number(refusal: Refusal) -> u8
    ensures answer { result ≡ number_of refusal }
{
    refusal as u8
}
