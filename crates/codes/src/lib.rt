// The four-byte codes of a WAVE file: the one test whether a code stands at a place, and the one that
// puts it there.
#![tactic(auto)]

ghost use Rattle.std.specs.Prelude.{◌≡◌, ◌+◌, ◌≤◌, length};
ghost use Rattle.little.specs.Writing.{Put};
ghost use Rattle.codes.specs.Codes.{code_bytes, is_at};

// The codes that mean something here.
#[derive(Clone, Copy)]
pub enum Code {
    Riff,
    Wave,
    Format,
    Data,
    Fact,
    Cue,
    Playlist,
    Listing,
    WaveList,
    Titles,
    Label,
    Note,
}

// The four letters of a code, as the papers print them.
#[tactic(auto, unfolding(crate::specs::Codes::code_bytes))]
fn letters(code: Code) -> [u8; 4]
    ensures answer { result ≡ code_bytes code }
{
    match code {
        Code::Riff => *b"RIFF",
        Code::Wave => *b"WAVE",
        Code::Format => *b"fmt ",
        Code::Data => *b"data",
        Code::Fact => *b"fact",
        Code::Cue => *b"cue ",
        Code::Playlist => *b"plst",
        Code::Listing => *b"LIST",
        Code::WaveList => *b"wavl",
        Code::Titles => *b"adtl",
        Code::Label => *b"labl",
        Code::Note => *b"note",
    }
}

// Whether a code stands at a place; past the end none does. Four letters are compared as one number.
#[tactic(auto, using(crate::proofs::Laws::is_at_by_number))]
pub fn is_at(bytes: &[u8], at: usize, code: Code) -> bool
    ensures answer { result ≡ is_at bytes.now at code }
{
    little::u32_or_zero(bytes, at) == u32::from_le_bytes(letters(code))
}

// Puts a code at a place.
pub fn put(out: &mut [u8], at: usize, code: Code)
    requires { at + 4 ≤ length out.old }
    ensures buffer { Put out.old at (code_bytes code) out.new }
{
    little::put_bytes(out, at, &letters(code));
}
