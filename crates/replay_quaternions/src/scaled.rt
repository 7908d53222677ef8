// The one question: quat HEX. The answer is written, without the end of its line.
use scaling::Quaternion;
use std::io;
use tagged::Group;

const CORI: u32 = 0x434f5249;

const IORI: u32 = 0x494f5249;

pub(crate) fn answer(rt: &impl Print, question: &[u8]) -> io::Result<()> {
    match question.strip_prefix(b"quat ".as_slice()) {
        Some(hex) => answer_quaternions(rt, hex),
        None => write_unknown(rt),
    }
}

fn write_unknown(rt: &impl Print) -> io::Result<()> {
    rt.write_all(b"unknown")
}

fn answer_quaternions(rt: &impl Print, hex: &[u8]) -> io::Result<()> {
    let mut payload = [0u8; 8192];
    match words::unhex_word(hex, &mut payload) {
        Ok(count) => write_reading(rt, words::part(&payload, 0, count)),
        Err(_) => write_unknown(rt),
    }
}

fn write_reading(rt: &impl Print, payload: &[u8]) -> io::Result<()> {
    let mut rows = [0u32; 16384];
    match metadata::parse_metadata(payload, false, &mut rows) {
        Ok(reading) => {
            let cori = Group {
                payload,
                rows: &rows,
                count: reading.rows,
                kind: 1,
                key: CORI,
            };
            rt.write_all(b"ok")?;
            write_group(rt, cori, b" CORI=[")?;
            write_group(rt, Group { key: IORI, ..cori }, b" IORI=[")
        }
        Err(_) => rt.write_all(b"err"),
    }
}

// The quaternions of a group, where it has any.
fn write_group(rt: &impl Print, group: Group, name: &[u8]) -> io::Result<()> {
    if let Ok(None) = quaternions::scaled_quaternion(group, 0) {
        return Ok(());
    }
    rt.write_all(name)?;
    write_list(rt, group)?;
    rt.write_all(b"]")
}

// Row after row, up to the first that is refused: it lies outside the value.
fn write_list(rt: &impl Print, group: Group) -> io::Result<()> {
    for row in 0..65536 {
        let Ok(Some(q)) = quaternions::scaled_quaternion(group, row) else {
            return Ok(());
        };
        if row > 0 {
            rt.write_all(b";")?;
        }
        write_quaternion(rt, q)?;
    }
    Ok(())
}

// Each of its numbers by its bits.
fn write_quaternion(rt: &impl Print, q: Quaternion) -> io::Result<()> {
    let [w, x, y, z] = [q.w, q.x, q.y, q.z].map(float_bits::double_bits);
    print!(rt; "[d{w:016x};d{x:016x};d{y:016x};d{z:016x}]")
}
