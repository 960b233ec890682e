// The C interface of the library: its operations over numbers and lent buffers, as include/tronalhet.h
// declares them. A refusal is its number, and 0 is success.
#![tactic(auto)]

ghost use Rattle.std.specs.Prelude.{◌≡◌, [], ◌∷◌, length, Ok};
ghost use Rattle.units.specs.Refusals.{number_of, verdict_number};
ghost use Rattle.reader.specs.Content.{reading, sound_in, sound_start, titles_spot, texts_in};
ghost use Rattle.rules.specs.Rules.{record_in};
ghost use Rattle.riff.specs.Walk.{part_of, start_of};
ghost use Rattle.little.specs.Writing.{holding};
ghost use Rattle.writer.specs.File.{file_of, writing, written_verdict};
ghost use Rattle.encode.specs.Encoding.{encoded_bytes};
ghost use Rattle.encode.specs.Answer.{encoding, encoded_verdict};
ghost use Rattle.decode.specs.Decoding.{decoding, block_decoding, file_sound, file_block, decoded_verdict};
ghost use Rattle.side.specs.Adding.{adding, new_file, empty_side};
ghost use Rattle.words.specs.Words.{record_words, record_from};
ghost use Rattle.wave_c.specs.Interface.{refused_by, done, of_written, of_decoded, of_encoded, answer_by, enough};
ghost use Rattle.wave_c.specs.Interface.{read_verdict, room_for, record_lent, words_valid, words_writing};

use reader::Opened;
use riff::Place;
use wave::{BytePlace, Coded, Donation, Frames, Refusal};

// How many bytes or frames there are, or the number of the refusal: 0 for none, as the C interface has it.
#[repr(C)]
#[derive(Clone, Copy)]
pub struct Answer {
    pub refusal: u32,
    pub n: usize,
}

// The chased samples of each channel and the bytes of the blocks, or the number of the refusal.
#[repr(C)]
#[derive(Clone, Copy)]
pub struct CodedAnswer {
    pub refusal: u32,
    pub left: u32,
    pub right: u32,
    pub n: usize,
}

// ---- answers as numbers

// A refusal, by its number.
fn number_of(refusal: Refusal) -> u32
    ensures answer { result ≡ number_of refusal }
{
    units::number(refusal) as u32
}

// The answer that is a refusal.
fn turned_away(refusal: Refusal) -> Answer
    ensures answer { result ≡ refused_by refusal }
{
    Answer {
        refusal: number_of(refusal),
        n: 0,
    }
}

// The answer that is a success.
fn told(n: usize) -> Answer
    ensures answer { result ≡ done n }
{
    Answer { refusal: 0, n: n }
}

// What writing answers, and adding. This and the next stay two: what they take out of their units is all that they do.
fn of_written(answer: Result<BytePlace, Refusal>) -> Answer
    ensures answer { result ≡ of_written answer }
{
    match answer {
        Ok(size) => told(size.0),
        Err(refusal) => turned_away(refusal),
    }
}

// What decoding answers.
fn of_decoded(answer: Result<Frames, Refusal>) -> Answer
    ensures answer { result ≡ of_decoded answer }
{
    match answer {
        Ok(frames) => told(frames.0 as usize),
        Err(refusal) => turned_away(refusal),
    }
}

// What encoding answers.
fn of_encoded(answer: Result<Coded, Refusal>) -> CodedAnswer
    ensures answer { result ≡ of_encoded answer }
{
    match answer {
        Ok(coded) => CodedAnswer {
            refusal: 0,
            left: coded.left.0,
            right: coded.right.0,
            n: coded.bytes.0,
        },
        Err(refusal) => CodedAnswer {
            refusal: number_of(refusal),
            left: 0,
            right: 0,
            n: 0,
        },
    }
}

// ---- reading

// Puts the record of a file that was opened, as words from the start of a lent buffer, and the texts of its titles,
// from the start of another, where there is room for both.
#[tactic(auto, using(crate::proofs::Laws::putting))]
fn put_opened(file: &[u8], opened: Opened, out: &mut [u32], texts: &mut [u8]) -> u32
    requires { (reading file.now ≡ Ok opened.made) × (opened.titles ≡ titles_spot file.now) }
    ensures answer { result
        ≡ verdict_number (room_for (length (texts_in file.now)) (length out.old) (length texts.old)) }
    ensures words { out.new
        ≡ holding (room_for (length (texts_in file.now)) (length out.old) (length texts.old))
        (record_words opened.made) out.old }
    ensures texts { texts.new
        ≡ holding (room_for (length (texts_in file.now)) (length out.old) (length texts.old))
        (texts_in file.now) texts.old }
{
    if out.len() < words::WORDS {
        return number_of(Refusal::OutputTooSmall);
    }
    let end = titles::texts_end(opened.made.titles);
    if !reader::put_texts(file, opened.titles, end, texts) {
        return number_of(Refusal::OutputTooSmall);
    }
    // Most files have no list of titles, and so their record has none.
    if opened.titles.is_some() {
        words::put_record(out, opened.made);
        return 0;
    }
    words::put_untitled(out, opened.made);
    0
}

// The record of a file, as words from the start of a lent buffer, and the texts of its titles, from the start
// of another. Neither is touched where there is not room for both.
#[tactic(auto, using(crate::proofs::Laws::record_read))]
#[unsafe(no_mangle)]
pub extern "C" fn tronalhet_read(file: &[u8], out: &mut [u32], texts: &mut [u8]) -> u32
    ensures answer { result ≡ verdict_number
        (record_lent file.now (length out.old) (length texts.old)) }
    ensures words { out.new
        ≡ holding (record_lent file.now (length out.old) (length texts.old))
        (record_words (record_in (reading file.now))) out.old }
    ensures texts { texts.new
        ≡ holding (record_lent file.now (length out.old) (length texts.old))
        (texts_in file.now) texts.old }
{
    match reader::open(file) {
        Ok(opened) => put_opened(file, opened, out, texts),
        Err(refusal) => number_of(refusal),
    }
}

// Where a chunk's data start; of a missing chunk, nowhere.
fn start_of(spot: Option<Place>) -> usize
    ensures answer { result ≡ start_of spot }
{
    match spot {
        Some(place) => place.start.0,
        None => 0,
    }
}

// Puts where the sound of a file that was taken starts, where there is room for it.
#[tactic(auto, using(crate::proofs::Laws::rooming))]
fn put_start(file: &[u8], spot: Option<Place>, out: &mut [usize]) -> Answer
    ensures answer { result ≡ answer_by (enough 1 (length out.old)) (length (part_of file.now spot [])) }
    ensures buffer { out.new ≡ holding (enough 1 (length out.old)) (start_of spot ∷ []) out.old }
{
    if out.len() < 1 {
        return turned_away(Refusal::OutputTooSmall);
    }
    let sound = riff::part(file, spot, b"");
    out[0] = start_of(spot);
    told(sound.len())
}

// Where the sound of a file starts, put to a lent buffer, and how many bytes it has.
#[tactic(auto, using(crate::proofs::Laws::reading_first))]
#[unsafe(no_mangle)]
pub extern "C" fn tronalhet_sound(file: &[u8], out: &mut [usize]) -> Answer
    ensures answer { result ≡ answer_by (read_verdict 1 file.now (length out.old))
        (length (sound_in file.now)) }
    ensures buffer { out.new ≡ holding (read_verdict 1 file.now (length out.old))
        (sound_start file.now ∷ []) out.old }
{
    match reader::open(file) {
        Ok(opened) => put_start(file, opened.sound, out),
        Err(refusal) => turned_away(refusal),
    }
}

// ---- writing

// Whether there are words enough for a record, and each fits its field.
#[tactic(auto, unfolding(crate::specs::Interface::words_valid))]
fn words_valid(given: &[u32]) -> bool
    ensures answer { result ≡ words_valid given.now }
{
    words::WORDS <= given.len() && words::fields_fit(given)
}

// Writes a file of a record, which comes as words, the texts of its titles, and its sound.
#[tactic(auto, unfolding(crate::specs::Interface::words_writing, crate::specs::Interface::words_valid))]
#[unsafe(no_mangle)]
pub extern "C" fn tronalhet_write(
    given: &[u32],
    texts: &[u8],
    sound: &[u8],
    out: &mut [u8],
) -> Answer
    ensures answer { result
        ≡ of_written (words_writing given.now texts.now sound.now (length out.old)) }
    ensures buffer { out.new ≡ holding
        (written_verdict (words_writing given.now texts.now sound.now (length out.old)))
        (file_of (record_from given.now) texts.now sound.now) out.old }
{
    if !words_valid(given) {
        return turned_away(Refusal::FormatWrong);
    }
    let made = words::record_from(given);
    of_written(wave::write(made, texts, sound, out))
}

// ---- decoding and encoding

// Decodes a whole file.
#[unsafe(no_mangle)]
pub extern "C" fn tronalhet_decode(file: &[u8], out: &mut [i16]) -> Answer
    ensures answer { result ≡ of_decoded (decoding file.now (length out.old)) }
    ensures buffer { out.new ≡ holding (decoded_verdict (decoding file.now (length out.old)))
        (file_sound file.now) out.old }
{
    of_decoded(wave::decode(file, out))
}

// Decodes a block of an ADPCM file, with its fill.
#[unsafe(no_mangle)]
pub extern "C" fn tronalhet_decode_block(file: &[u8], block: u32, out: &mut [i16]) -> Answer
    ensures answer { result ≡ of_decoded (block_decoding file.now block (length out.old)) }
    ensures buffer { out.new
        ≡ holding (decoded_verdict (block_decoding file.now block (length out.old)))
        (file_block file.now block) out.old }
{
    of_decoded(wave::decode_block(file, block, out))
}

// Encodes a sound to IMA blocks.
#[unsafe(no_mangle)]
pub extern "C" fn tronalhet_encode(
    sound: &[i16],
    channels: u16,
    align: u16,
    out: &mut [u8],
) -> CodedAnswer
    ensures answer { result ≡ of_encoded (encoding sound.now channels align (length out.old)) }
    ensures buffer { out.new
        ≡ holding (encoded_verdict (encoding sound.now channels align (length out.old)))
        (encoded_bytes channels align sound.now) out.old }
{
    of_encoded(wave::encode(sound, channels, align, out))
}

// ---- sides

// Writes a side without songs.
#[unsafe(no_mangle)]
pub extern "C" fn tronalhet_empty(channels: u16, rate: u32, out: &mut [u8]) -> Answer
    ensures answer { result ≡ of_written (writing (empty_side channels rate) [] [] (length out.old)) }
    ensures buffer { out.new
        ≡ holding (written_verdict (writing (empty_side channels rate) [] [] (length out.old)))
        (file_of (empty_side channels rate) [] []) out.old }
{
    of_written(wave::empty(channels, rate, out))
}

// Adds a song to a side.
#[unsafe(no_mangle)]
pub extern "C" fn tronalhet_add(
    side: &[u8],
    song: &[u8],
    number: u32,
    limit: u32,
    out: &mut [u8],
) -> Answer
    ensures answer { result
        ≡ of_written
        (adding side.now song.now (record { 0 = number }) (record { 0 = limit }) (length out.old)) }
    ensures buffer { out.new
        ≡ holding (written_verdict
        (adding side.now song.now (record { 0 = number }) (record { 0 = limit }) (length out.old)))
        (new_file side.now song.now (record { 0 = number })) out.old }
{
    of_written(wave::add(side, song, Donation(number), Frames(limit), out))
}
