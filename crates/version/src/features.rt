// What the versions have.
ghost use Rattle.std.specs.Prelude.{◌≡◌};
ghost use Rattle.version.specs.Versions.{version_number, version_of, default_version, core_count, has3ws8pna, has34si22};
ghost use Rattle.version.specs.Versions.{has_sample_control, interpolates as interpolates_at, wavetable_mask_of};

use crate::SguVersion;

// The version of a chip that is made without one.
impl Default for SguVersion {
    ghost is_default = { λ version. version ≡ default_version };

    fn default() -> SguVersion {
        SguVersion::V3_1
    }
}

// The number that session texts give a version.
impl From<SguVersion> for u8 {
    ghost from_gives = { λ version number. number ≡ version_number version };

    fn from(version: SguVersion) -> u8 {
        version as u8
    }
}

// The version of a number; above 4 it is V3.1.
impl From<u64> for SguVersion {
    ghost from_gives = { λ number version. version ≡ version_of number };

    fn from(number: u64) -> SguVersion {
        match number {
            0 => SguVersion::V1,
            1 => SguVersion::V2,
            2 => SguVersion::V2_1,
            3 => SguVersion::V3,
            _ => SguVersion::V3_1,
        }
    }
}

impl SguVersion {
    // The cores of a version.
    pub fn core_count(self) -> usize
        ensures { result ≡ core_count self }
    {
        if self == SguVersion::V1 { 1 } else { 2 }
    }

    // Whether a version has FIFO voices: V2.1 and later.
    pub fn has_3ws8pna(self) -> bool
        ensures { result ≡ has3ws8pna self }
    {
        SguVersion::V2_1 <= self
    }

    // Whether a version takes streams of version 3 instead of 1 and 2: V3 and later.
    pub fn has_34si22(self) -> bool
        ensures { result ≡ has34si22 self }
    {
        SguVersion::V3 <= self
    }

    // Whether a version has the sample control register.
    pub fn has_sample_control(self) -> bool
        ensures { result ≡ has_sample_control self }
    {
        SguVersion::V3_1 <= self
    }

    // Whether a voice with this sample control interpolates.
    pub fn interpolates(self, sample_control: u8) -> bool
        ensures { result ≡ interpolates_at self sample_control }
    {
        match self {
            SguVersion::V3_1 => (sample_control >> 2) & 1 == 0,
            _ => SguVersion::V2_1 <= self,
        }
    }

    // The samples of its wavetable, less one.
    pub fn wavetable_mask(self, sample_control: u8) -> u8
        ensures { result ≡ wavetable_mask_of self sample_control }
    {
        match self {
            SguVersion::V3_1 => tone::wavetable_mask(sample_control),
            _ => 255,
        }
    }
}
