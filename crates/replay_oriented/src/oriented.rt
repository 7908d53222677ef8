// The one question: oriented HEX. The answer is written, without the end of its line.
use axes::Axes;
use std::io;
use tagged::Group;

const GYRO: u32 = 0x4759524f;

const ACCL: u32 = 0x4143434c;

const MAGN: u32 = 0x4d41474e;

pub(crate) fn answer(rt: &impl Print, question: &[u8]) -> io::Result<()> {
    match question.strip_prefix(b"oriented ".as_slice()) {
        Some(hex) => answer_oriented(rt, hex),
        None => write_unknown(rt),
    }
}

fn write_unknown(rt: &impl Print) -> io::Result<()> {
    rt.write_all(b"unknown")
}

fn answer_oriented(rt: &impl Print, hex: &[u8]) -> io::Result<()> {
    let mut payload = [0u8; 8192];
    match words::unhex_word(hex, &mut payload) {
        Ok(count) => write_reading(rt, words::part(&payload, 0, count)),
        Err(_) => write_unknown(rt),
    }
}

fn write_reading(rt: &impl Print, payload: &[u8]) -> io::Result<()> {
    let mut rows = [0u32; 16384];
    match metadata::parse_metadata(payload, false, &mut rows) {
        Ok(reading) => write_oriented(
            rt,
            Group {
                payload,
                rows: &rows,
                count: reading.rows,
                kind: 1,
                key: GYRO,
            },
        ),
        Err(_) => rt.write_all(b"err"),
    }
}

// Where the Rust panics, some group is refused.
fn write_oriented(rt: &impl Print, group: Group) -> io::Result<()> {
    match [GYRO, ACCL, MAGN].map(|key| orientation::orientation_of_group(Group { key, ..group })) {
        [Ok(gyroscope), Ok(accelerometer), Ok(magnetometer)] => {
            rt.write_all(b"ok")?;
            write_axes(rt, gyroscope, b" GYRO=")?;
            write_axes(rt, accelerometer, b" ACCL=")?;
            write_axes(rt, magnetometer, b" MAGN=")
        }
        _ => rt.write_all(b"panic"),
    }
}

fn write_axes(rt: &impl Print, axes: Option<Axes>, name: &[u8]) -> io::Result<()> {
    if let Some(axes) = axes {
        rt.write_all(name)?;
        rt.write_all(&[axes.first, axes.second, axes.third])?;
    }
    Ok(())
}
