// Room on the stack for what a program reads and makes. The `ensures` of a room gives its length alone, which
// lending it as a slice needs.
ghost use Rattle.std.specs.Prelude.{◌≡◌, length};

// Room for a file, and for one byte more, which shows that a file is longer than a program accepts.
pub fn file_room() -> [u8; 262145]
    ensures long { 262145 ≡ length result }
{
    [0; 262145]
}

// Room for the texts of a file's titles: enough for every file.
pub fn texts_room() -> [u8; titles::MOST_TITLE_BYTES]
    ensures long { 32768 ≡ length result }
{
    [0; titles::MOST_TITLE_BYTES]
}

// Room for the sound of such a file: a byte holds less than two samples in every format.
pub fn sound_room() -> [i16; 524288]
    ensures long { 524288 ≡ length result }
{
    [0; 524288]
}

// Room for a file of such a sound: two bytes for each sample at most, and 4,096 for the rest of the file. A list
// of titles may have more, but it was in the file that was read, in place of as many bytes of sound.
pub fn new_room() -> [u8; 1052672]
    ensures long { 1052672 ≡ length result }
{
    [0; 1052672]
}
