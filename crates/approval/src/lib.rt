// The approval copy that a donor gets: the record of its file, a sound in IMA blocks.
#![tactic(auto)]

ghost use Rattle.std.specs.Prelude.{◌≡◌};
ghost use Rattle.approval.specs.Approval.{approval_record};

use rules::Record;
use units::Frames;

// The record of an approval copy: IMA sound of some channels at a rate, in blocks of an align, so many
// frames; no cues, no playlist and no titles.
pub fn record_of(channels: u16, rate: u32, align: u16, frames: Frames) -> Record
    ensures answer { result ≡ approval_record channels rate align frames }
{
    rules::bare(formats::ima(channels, rate, align), frames)
}
