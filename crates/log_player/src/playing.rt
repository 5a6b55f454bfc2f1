// A fresh player.
ghost use Rattle.std.specs.Prelude.{◌≡◌, length};
ghost use Rattle.s3w2.specs.Fresh.{made_ram};
ghost use Rattle.log_player.specs.Worlds.{made_player};

use crate::{Made, Player};
use s3w2::Chip;
use version::SguVersion;

impl Player {
    // A fresh V3.1 chip; its RAM is zeroed, unless its length is refused.
    pub fn fresh(ram: &mut [u8]) -> Made
        ensures result { result ≡ made_player (length ram.old) }
        ensures ram { ram.new ≡ made_ram ram.old }
    {
        let made = Chip::with_version(ram, SguVersion::V3_1);
        let chip = made.chip;
        let answer = made.answer;
        Made {
            player: Player {
                chip,
                left: 0,
                right: 0,
            },
            answer,
        }
    }
}
