// Quaternions of CORI and IORI, scaled.

#![tactic(auto)]

ghost use Rattle.std.specs.Prelude.{◌≡◌};
ghost use Rattle.tagged.specs.Number.{signed_number, Sixteen};
ghost use Rattle.quaternions.specs.Scaled.{number_at, scale_of, quaternion_at, quaternion_of};
ghost use Rattle.quaternions.specs.Ready.{HalvesStand};

use elements::Element;
use foundation::refusal::Refusal;
use keys::names::SCAL;
use keys::tags::{DATA, SCALE};
use payload_values::is_quaternions;
use scaling::Quaternion;
use tagged::{Group, Tagged};

// The number of an element of the letter s.
fn sixteen(e: Element) -> i16
    requires { Sixteen e }
    ensures { result ≡ signed_number e }
{
    if let Element::Signed(n) = e {
        n as i16
    } else {
        0
    }
}

// The number at a row and a column of an item.
#[tactic(auto, unfolding(crate::specs::Scaled::number_at))]
fn number_at(s: &[u8], item: Tagged, row: usize, column: usize) -> Result<i16, Refusal>
    requires { HalvesStand s.now item }
    ensures { result ≡ number_at s.now item.place row column }
{
    let e = values::element(s, item.place as usize, items::NO_TYPE, row, column)?;
    Ok(sixteen(e))
}

// The scale of a group.
#[tactic(auto, using(crate::proofs::Laws::usual_bits), unfolding(crate::specs::Scaled::scale_of))]
fn scale_of(group: Group) -> Result<f64, Refusal>
    ensures { result ≡ scale_of group.entry.payload.now group.entry.rows.now group.entry.count group.entry.kind group.entry.key }
{
    match group.tagged(SCALE, SCAL)? {
        Some(scal) if tagged::is_one_number(scal.klv, b's') => {
            let n = number_at(group.payload, scal, 0, 0)?;
            Ok(f64::from(n))
        }
        _ => Ok(32767.0),
    }
}

// The four numbers of a row of an item, by a scale.
#[tactic(auto, unfolding(crate::specs::Scaled::quaternion_at))]
fn quaternion_at(
    s: &[u8],
    item: Tagged,
    row: usize,
    scale: f64,
) -> Result<Option<Quaternion>, Refusal>
    requires { HalvesStand s.now item }
    ensures { result ≡ quaternion_at s.now item.place row scale }
{
    let w = number_at(s, item, row, 0)?;
    let x = number_at(s, item, row, 1)?;
    let y = number_at(s, item, row, 2)?;
    let z = number_at(s, item, row, 3)?;
    Ok(Some(scaling::scaled(w, x, y, z, scale)))
}

// The quaternion of a row of a group's data, scaled by the group's SCAL if that is one `s` number, and else by 32767.
#[tactic(auto, unfolding(crate::specs::Scaled::quaternion_of))]
pub fn scaled_quaternion(group: Group, row: usize) -> Result<Option<Quaternion>, Refusal>
    ensures { result ≡ quaternion_of group.entry.payload.now group.entry.rows.now group.entry.count group.entry.kind group.entry.key row }
{
    match group.tagged(DATA, 0)? {
        Some(data) if is_quaternions(data.klv) => {
            let scale = scale_of(group)?;
            quaternion_at(group.payload, data, row, scale)
        }
        _ => Ok(None),
    }
}
