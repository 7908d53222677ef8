// Keys and items.
ghost use Rattle.std.specs.Prelude.{◌≡◌, take, ◌<◌};
ghost use Rattle.foundation.specs.BigEndian.{big_endian};
ghost use Rattle.keys.specs.Keys.{tag_of, group_of};
ghost use Rattle.klv.specs.Item.{data_len, aligned};
ghost use Rattle.klv.specs.OneText.{one_text, type_text};
ghost use Rattle.klv.specs.Header.{header_at};
ghost use Rattle.answers.specs.Answers.{of_header};

use answers::ItemAnswer;
use keys::GroupId;
use klv::{Cursor, KLV};

// The number that bytes stand for, the first eight at most.
#[unsafe(no_mangle)]
pub extern "C" fn gpmf_big_endian(part: &[u8]) -> u64
    ensures { result ≡ big_endian (take 8 part.now) }
{
    gpmf_basics::item_face::gpmf_big_endian(part)
}

// The number of a key in the table of tags, 0 for others.
#[unsafe(no_mangle)]
pub extern "C" fn gpmf_tag_id(key: u32) -> u32
    ensures { result ≡ tag_of key }
{
    gpmf_basics::item_face::gpmf_tag_id(key)
}

// The group that a key names.
#[unsafe(no_mangle)]
pub extern "C" fn gpmf_group_from_key(key: u32) -> GroupId
    ensures { result ≡ group_of key }
{
    gpmf_basics::item_face::gpmf_group_from_key(key)
}

// A cursor at a place.
#[unsafe(no_mangle)]
pub extern "C" fn gpmf_cursor_new(at: usize) -> Cursor
    ensures { result.at ≡ at }
{
    gpmf_basics::item_face::gpmf_cursor_new(at)
}

// The header at a cursor, of an item that is whole.
#[unsafe(no_mangle)]
pub extern "C" fn gpmf_parse_header(cursor: Cursor, s: &[u8]) -> ItemAnswer
    ensures { result ≡ of_header cursor.at (header_at s.now cursor.at) }
{
    gpmf_basics::item_face::gpmf_parse_header(cursor, s)
}

// The length of an item's payload.
#[unsafe(no_mangle)]
pub extern "C" fn gpmf_data_len(klv: KLV) -> usize
    ensures { (result ≡ data_len klv) × (result < 16777216) }
{
    gpmf_basics::item_face::gpmf_data_len(klv)
}

// The same with its padding.
#[unsafe(no_mangle)]
pub extern "C" fn gpmf_aligned_data_len(klv: KLV) -> usize
    ensures { (result ≡ aligned (data_len klv)) × (result < 16777220) }
{
    gpmf_basics::item_face::gpmf_aligned_data_len(klv)
}

// Whether a value is one text.
#[unsafe(no_mangle)]
pub extern "C" fn gpmf_is_one_text(klv: KLV) -> bool
    ensures { result ≡ one_text klv }
{
    gpmf_basics::item_face::gpmf_is_one_text(klv)
}

// Whether an item is a TYPE of one text.
#[unsafe(no_mangle)]
pub extern "C" fn gpmf_is_type_text(klv: KLV) -> bool
    ensures { result ≡ type_text klv }
{
    gpmf_basics::item_face::gpmf_is_type_text(klv)
}
