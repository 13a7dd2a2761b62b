//! The correlation tags, by their numbers from 1 to 11.

ghost use Rattle.std.specs.Prelude.{◌≡◌, ◌≤◌};
ghost use Rattle.fx25_blocks.specs.Tags.{IsTag, block_length, check_count, data_count, tag_value};

/// How many tags there are.
pub const TAGS: u8 = 11;

static VALUES: [u64; 11] = [
    0xB74D_B7DF_8A53_2F3E,
    0x26FF_60A6_00CC_8FDE,
    0xC7DC_0508_F3D9_B09E,
    0x8F05_6EB4_3696_60EE,
    0x6E26_0B1A_C583_5FAE,
    0xFF94_DC63_4F1C_FF4E,
    0x1EB7_B9CD_BC09_C00E,
    0xDBF8_69BD_2DBB_1776,
    0x3ADB_0C13_DEAE_2836,
    0xAB69_DB6A_5431_88D6,
    0x4A4A_BEC4_A724_B796,
];

static DATA_COUNTS: [u8; 11] = [239, 128, 64, 32, 223, 128, 64, 32, 191, 128, 64];

static CHECK_COUNTS: [u8; 11] = [16, 16, 16, 16, 32, 32, 32, 32, 64, 64, 64];

/// The 64 bits of a tag. The least significant one is sent first.
pub fn tag_value(tag: u8) -> u64
    requires { IsTag tag }
    ensures { result ≡ tag_value tag }
{
    VALUES[tag as usize - 1]
}

/// How many data octets follow a tag.
pub fn data_count(tag: u8) -> usize
    requires { IsTag tag }
    ensures value { result ≡ data_count tag }
    ensures most { result ≤ 239 }
{
    DATA_COUNTS[tag as usize - 1] as usize
}

/// How many check octets follow the data octets of a tag.
pub fn check_count(tag: u8) -> usize
    requires { IsTag tag }
    ensures value { result ≡ check_count tag }
    ensures most { result ≤ 64 }
{
    CHECK_COUNTS[tag as usize - 1] as usize
}

/// How many octets follow a tag.
pub fn block_length(tag: u8) -> usize
    requires { IsTag tag }
    ensures value { result ≡ block_length tag }
    ensures most { result ≤ 255 }
{
    data_count(tag) + check_count(tag)
}
