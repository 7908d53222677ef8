// What is to be read of an item, by the letter of its type.
ghost use Rattle.std.specs.Prelude.{◌≡◌, ◌<◌, ◌≤◌};
ghost use Rattle.elements.specs.Types.{width_of};
ghost use Rattle.value.specs.Value.{kind_of, quaternions, numbers, text};
ghost use Rattle.payload_values.specs.Small.{SmallGrid, Planned, LetterPlanned};

use klv::{KLV, wide, wider};
use value::{Grid, Kind, Plan};

#[tactic(auto, unfolding(value::specs::Value::kind_of))]
fn kind_of(repeat: u16, n: usize) -> Kind
    ensures { result ≡ kind_of repeat n }
{
    match n {
        1 if repeat == 1 => Kind::Single,
        1 => Kind::List,
        3 => Kind::Vector,
        4 => Kind::TimedVector,
        _ => Kind::Nested,
    }
}

fn quaternions_of(klv: KLV) -> Grid
    ensures { SmallGrid (quaternions klv) result }
{
    Grid {
        kind: Kind::Quaternions,
        rows: wider(klv.repeat),
        columns: 4,
        letter: b's',
    }
}

fn numbers_of(klv: KLV, width: usize) -> Grid
    requires { (width ≡ width_of klv.data_type) × (0 < width) × (width ≤ 8) }
    ensures { SmallGrid (numbers klv) result }
{
    let n = wide(klv.size) / width;
    Grid {
        kind: kind_of(klv.repeat, n),
        rows: wider(klv.repeat),
        columns: n,
        letter: klv.data_type,
    }
}

fn text_of(payload: &[u8]) -> Grid
    ensures { SmallGrid (text payload.now) result }
{
    Grid {
        kind: Kind::Text,
        rows: 1,
        columns: texts::latin1_len(payload),
        letter: b'B',
    }
}

// The letters that are no numbers.
#[tactic(auto, unfolding(value::specs::Value::letter_plan, elements::specs::Types::width_of))]
fn letter_plan(letter: u8) -> Plan
    ensures { LetterPlanned letter result }
{
    match letter {
        b'c' => Plan::Texts,
        b'G' => Plan::Even(Grid {
            kind: Kind::Identifier,
            rows: 1,
            columns: 4,
            letter: b'L',
        }),
        b'U' => Plan::Date,
        b'?' => Plan::Structures,
        _ => Plan::Even(Grid {
            kind: Kind::Unknown,
            rows: 0,
            columns: 0,
            letter: 0,
        }),
    }
}

pub(crate) fn plan_of(klv: KLV, payload: &[u8]) -> Plan
    ensures { Planned klv payload.now result }
{
    if crate::is_quaternions(klv) {
        return Plan::Even(quaternions_of(klv));
    }
    let width = elements::width(klv.data_type);
    if 0 < width {
        return Plan::Even(numbers_of(klv, width));
    }
    if klv.is_one_text() {
        return Plan::Even(text_of(payload));
    }
    letter_plan(klv.data_type)
}
