// 16-bit sound: a sample from its two bytes and back, 8-bit sound, holding a wider number to 16
// bits, and the loops that turn the bytes of PCM sound into samples and samples into bytes.
#![tactic(auto)]

ghost use Rattle.std.specs.Prelude.{◌≡◌, ℤ, map, ◌+◌, ◌*◌, ◌/◌, ◌≤◌, length};
ghost use Rattle.little.specs.Numbers.{number_in};
ghost use Rattle.little.specs.Writing.{Put, front};
ghost use Rattle.samples.specs.Sound.{signed_of, bits_of, sample_at, sample_bytes, samples_in, sound_bytes, eight, hold};

// The signed number of 16 bits.
#[tactic(auto, unfolding(crate::specs::Sound::signed_of))]
pub fn from_bits(bits: u16) -> i16
    ensures answer { result ≡ signed_of bits }
{
    bits.cast_signed()
}

// The 16 bits of a signed number.
#[tactic(auto, unfolding(crate::specs::Sound::bits_of))]
pub fn to_bits(sample: i16) -> u16
    ensures answer { result ≡ bits_of sample }
{
    sample.cast_unsigned()
}

// The sample at a place.
#[tactic(auto, unfolding(crate::specs::Sound::sample_at))]
pub fn sample_at(bytes: &[u8], at: usize) -> i16
    requires { at + 2 ≤ length bytes.now }
    ensures answer { result ≡ sample_at bytes.now at }
{
    from_bits(little::u16_at(bytes, at))
}

// Puts a sample at a place.
#[tactic(auto, unfolding(crate::specs::Sound::sample_bytes))]
pub fn put_sample(out: &mut [u8], at: usize, sample: i16)
    requires { at + 2 ≤ length out.old }
    ensures buffer { Put out.old at (sample_bytes sample) out.new }
{
    little::put_u16(out, at, to_bits(sample));
}

// A value of 8-bit sound as a sample.
#[tactic(auto, unfolding(crate::specs::Sound::eight))]
pub fn from_eight(value: u8) -> i16
    ensures answer { result ≡ eight value }
{
    (value as i16 - 128) * 256
}

// A wider number held to 16 bits.
#[tactic(auto, unfolding(crate::specs::Sound::hold))]
pub fn held(value: i32) -> i16
    ensures answer { result ≡ hold value }
{
    value.clamp(-32768, 32767) as i16
}

// What says one sample of PCM: a byte of 8 bits, or two bytes of 16.
trait Sound {
    ghost sample_of: { Self → ℤ };

    // The sample that it says.
    fn sample(&self) -> i16
        ensures { result ≡ sample_of self.now };
}

impl Sound for u8 {
    ghost sample_of = { eight };

    fn sample(&self) -> i16 {
        from_eight(*self)
    }
}

impl Sound for [u8; 2] {
    ghost sample_of = { λ pair. signed_of (number_in pair) };

    #[tactic(auto, unfolding(crate::specs::Sound::signed_of, little::specs::Numbers::number_in))]
    fn sample(&self) -> i16 {
        i16::from_le_bytes(*self)
    }
}

// Turns PCM into samples, one by one, from the start of a lent buffer.
#[tactic(auto, using(crate::proofs::Turning::turning))]
fn turn_each<T: Sound>(sound: &[T], out: &mut [i16])
    requires { length sound.now ≤ length out.old }
    ensures buffer { out.new ≡ front (map T.sample_of sound.now) out.old }
{
    for (i, said) in sound.iter().enumerate() {
        out[i] = said.sample();
    }
}

// Turns 64 samples. They are all read before the first is written, so that a machine can move several as one: one
// loop over all samples took 1.2 times the instructions, which is more than 1.1 of plain C.
#[tactic(auto, using(crate::proofs::Turning::turning))]
fn turn_many<T: Sound>(sound: &[T], out: &mut [i16])
    requires { (length sound.now ≡ 64) × (length out.old ≡ 64) }
    ensures buffer { out.new ≡ map T.sample_of sound.now }
{
    let mut samples = [0; 64];
    turn_each(sound, &mut samples);
    out.copy_from_slice(&samples);
}

// Turns PCM into samples, 64 at a turn, from the start of a lent buffer.
#[tactic(auto, using(crate::proofs::Turning::turning))]
fn turn<T: Sound>(sound: &[T], out: &mut [i16])
    requires { length sound.now ≤ length out.old }
    ensures buffer { out.new ≡ front (map T.sample_of sound.now) out.old }
{
    let turns = sound.len() / 64;
    for i in 0..turns {
        let at = 64 * i;
        turn_many(&sound[at..at + 64], &mut out[at..at + 64]);
    }
    let rest = 64 * turns;
    turn_each(&sound[rest..], &mut out[rest..]);
}

// Turns 16-bit PCM into samples, from the start of a lent buffer.
#[tactic(auto, using(crate::proofs::Turning::pairs_say))]
pub fn from_pcm16(bytes: &[u8], out: &mut [i16])
    requires { length bytes.now / 2 ≤ length out.old }
    ensures buffer { out.new ≡ front (samples_in bytes.now) out.old }
{
    let (pairs, _) = bytes.as_chunks::<2>();
    turn(pairs, out);
}

// Turns 8-bit PCM into samples, from the start of a lent buffer.
pub fn from_pcm8(bytes: &[u8], out: &mut [i16])
    requires { length bytes.now ≤ length out.old }
    ensures buffer { out.new ≡ front (map eight bytes.now) out.old }
{
    turn(bytes, out);
}

// Turns samples into 16-bit PCM, from the start of a lent buffer.
#[tactic(auto, using(crate::proofs::Turning::sound_turning))]
pub fn to_pcm16(sound: &[i16], out: &mut [u8])
    requires { 2 * length sound.now ≤ length out.old }
    ensures buffer { out.new ≡ front (sound_bytes sound.now) out.old }
{
    for (i, sample) in sound.iter().enumerate() {
        put_sample(out, 2 * i, *sample);
    }
}
