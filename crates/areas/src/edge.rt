// The half of an edge as it stands in the pages: a word of four fields.
ghost use Rattle.std.specs.Prelude.{◌≡◌};
ghost use Rattle.areas.specs.EdgeHalf.{half_word};
ghost use Rattle.areas.specs.Decoded.{decoded_end};

// The fields of a half as they are read, the area still an index.
#[derive(Clone, Copy)]
pub struct RawEnd {
    pub index: u32,
    pub poly: u32,
    pub unk2: u32,
    pub unk3: u32,
}

// The word of a half. Each value is cut to its bits.
pub fn half_word(index: u32, poly: u32, unk2: u32, unk3: u32) -> u32
    ensures { result ≡ half_word index poly unk2 unk3 }
{
    index % 32 + poly % 16384 * 32 + unk2 % 4 * 524288 + unk3 % 2048 * 2097152
}

// The fields of a word.
pub fn decode_end(raw: u32) -> RawEnd
    ensures { result ≡ decoded_end raw }
{
    RawEnd {
        index: raw % 32,
        poly: raw / 32 % 16384,
        unk2: raw / 524288 % 4,
        unk3: raw / 2097152 % 2048,
    }
}
