// Writes: a register of a block, and bytes of the RAM one after the other.
ghost use Rattle.std.specs.Prelude.{◌≡◌, length};
ghost use Rattle.voices.specs.Lists.{block_channel, block_entries, block_empties, after_ram_writes};

use crate::Core;
use version::SguVersion;
use voice::Channel;

// A write at a block's offset; the channel is lent its own part of the queue buffer.
pub fn write_at(
    c: Channel,
    version: SguVersion,
    queue: &mut [i16],
    offset: u8,
    value: u8,
) -> Channel
    ensures { (result ≡ block_channel version c offset value) × (queue.new ≡ block_entries version c queue.old offset value) }
{
    if offset < 0x10 {
        return c.write_control(version, queue, offset, value);
    }
    if offset == 0x1A {
        return c.write_control(version, queue, offset, value);
    }
    c.write_pcm_reg(offset - 0x10, value)
}

// Whether such a write empties the cache.
pub fn empties(offset: u8) -> bool
    ensures { result ≡ block_empties offset }
{
    if offset < 0x10 {
        return Channel::control_write_invalidates(offset);
    }
    if offset == 0x1A {
        return Channel::control_write_invalidates(offset);
    }
    Channel::pcm_write_invalidates(offset - 0x10)
}

impl Core {
    // The caches of the voices whose streams have one of the bytes are emptied; `ram` is the RAM's length.
    pub fn after_ram_writes(self, ram: usize, addresses: &[u32]) -> Core
        ensures { result ≡ after_ram_writes ram (length addresses.now) addresses.now self }
    {
        let mut core = self;
        for address in addresses {
            if (*address as usize) < ram {
                core.forget(*address);
            }
        }
        core
    }
}
