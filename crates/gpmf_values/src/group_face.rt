// What the rows of a group lead to. A group comes in parts: the C interface.
ghost use Rattle.std.specs.Prelude.{◌≡◌};
ghost use Rattle.tagged.specs.Tagged.{tagged_of, one_number};
ghost use Rattle.scaling.specs.Quaternion.{negated16, scaled_by};
ghost use Rattle.quaternions.specs.Scaled.{quaternion_of};
ghost use Rattle.stamps.specs.Stamp.{stamp_of};
ghost use Rattle.durations.specs.Average.{average_of};
ghost use Rattle.answers.specs.Answers.{of_tagged, of_stamp};
ghost use Rattle.value_answers.specs.Answers.{of_average};
ghost use Rattle.orientation_answers.specs.Answers.{of_scaled_row};

use answers::{ItemAnswer, WholeAnswer};
use klv::KLV;
use orientation_answers::QuaternionAnswer;
use scaling::Quaternion;
use value_answers::RealAnswer;

// The item of a group and tag.
#[unsafe(no_mangle)]
pub extern "C" fn gpmf_tagged_item(
    s: &[u8],
    rows: &[u32],
    count: usize,
    group_kind: u32,
    group_key: u32,
    tag: u32,
    key: u32,
) -> ItemAnswer
    ensures { result ≡ of_tagged (tagged_of s.now rows.now count group_kind group_key tag key) }
{
    let group = tagged::Group {
        payload: s,
        rows,
        count,
        kind: group_kind,
        key: group_key,
    };
    answers::of_tagged(group.tagged(tag, key))
}

// Whether a header is that of one number of a letter, but for its key.
#[unsafe(no_mangle)]
pub extern "C" fn gpmf_is_one_number(klv: KLV, letter: u8) -> bool
    ensures { result ≡ one_number klv letter }
{
    tagged::is_one_number(klv, letter)
}

// 0 less a number in 16 bits.
#[unsafe(no_mangle)]
pub extern "C" fn gpmf_negated(x: i16) -> i16
    ensures { result ≡ negated16 x }
{
    scaling::negated(x)
}

// A quaternion over a scale.
#[unsafe(no_mangle)]
pub extern "C" fn gpmf_scaled(w: i16, x: i16, y: i16, z: i16, scale: f64) -> Quaternion
    ensures { result ≡ scaled_by scale w x y z }
{
    scaling::scaled(w, x, y, z, scale)
}

// The scaled quaternion of a row of a group.
#[unsafe(no_mangle)]
pub extern "C" fn gpmf_scaled_quaternion(
    s: &[u8],
    rows: &[u32],
    count: usize,
    group_kind: u32,
    group_key: u32,
    row: usize,
) -> QuaternionAnswer
    ensures { result ≡ of_scaled_row (quaternion_of s.now rows.now count group_kind group_key row) }
{
    let group = tagged::Group {
        payload: s,
        rows,
        count,
        kind: group_kind,
        key: group_key,
    };
    orientation_answers::of_scaled_row(quaternions::scaled_quaternion(group, row))
}

// The stamp of a group in microseconds.
#[unsafe(no_mangle)]
pub extern "C" fn gpmf_stamp_us(
    s: &[u8],
    rows: &[u32],
    count: usize,
    group_kind: u32,
    group_key: u32,
) -> WholeAnswer
    ensures { result ≡ of_stamp (stamp_of s.now rows.now count group_kind group_key) }
{
    let group = tagged::Group {
        payload: s,
        rows,
        count,
        kind: group_kind,
        key: group_key,
    };
    answers::of_stamp(stamps::stamp_us(group))
}

// Milliseconds for a reading, over a list of packets.
#[unsafe(no_mangle)]
pub extern "C" fn gpmf_get_avg_sample_duration(
    counts: &[u32],
    has_stamp: &[u8],
    stamps: &[u64],
    durations: &[f64],
    missing: &[u8],
) -> RealAnswer
    ensures { result ≡ of_average (average_of counts.now has_stamp.now stamps.now durations.now missing.now) }
{
    value_answers::of_average(durations::get_avg_sample_duration(
        counts, has_stamp, stamps, durations, missing,
    ))
}
