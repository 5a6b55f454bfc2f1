// Which channel modulates a channel.
ghost use Rattle.std.specs.Prelude.{◌≡◌, ◌<◌};
ghost use Rattle.tone.specs.Targets.{absolute_channel};

// By its number, or by 3 ahead to 4 behind the carrier.
pub fn convert_to_absolute_channel_address(carrier: u8, mode: u8, target: u8) -> usize
    ensures result { result ≡ absolute_channel carrier mode target }
    ensures upper_bound { result < 8 }
{
    let offset = (target & 7) as usize;
    if mode == 0 {
        return offset;
    }
    ((carrier as usize) + offset) & 7
}
