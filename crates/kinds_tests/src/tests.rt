// Each kind: records with their keys, and strings of which each breaks one rule.
use super::*;
use kinds::*;
use std::process::Abort;
use std::test::Fail;

// A string of bytes and the keys that it has.
type Row<'a> = (&'a [u8], &'a [u32]);

fn states<K: Kind>(rt: &impl Abort, kind: &K, widths: &[u8], size: usize, capacity: usize) {
    let space = kind.space();
    assert!(rt; &space.widths[0..space.keys] == widths);
    assert_eq!(rt; kind.size(), size);
    assert_eq!(rt; kind.capacity(), capacity);
}

fn reads<K: Kind>(rt: &impl Abort, kind: &K, rows: &[Row]) -> Result<(), Fail> {
    for (bytes, keys) in rows {
        let found = kind
            .keys(bytes)
            .ok_or_else(|| Fail::new("a record was refused"))?;
        assert!(rt; found.as_slice() == *keys);
    }
    Ok(())
}

fn refuses<K: Kind>(rt: &impl Abort, kind: &K, strings: &[&[u8]]) {
    for bytes in strings {
        assert!(rt; kind.keys(bytes).is_none());
    }
}

#[test]
fn daylight(rt: HostRuntime) -> Result<(), Fail> {
    let kind = Daylight::new();
    states(&rt, &kind, &[18, 5, 14], 16, 31);
    let good: [Row; 3] = [
        (
            b"DR\x01\x00\x00\x00\x00\x00\x00\x00\x00\x00\x00\x00\x00\x00",
            &[0, 1, 0],
        ),
        (
            b"DR\x18\x00\x00\x03\xFF\xFF\x3A\x98\x0B\xB8\xFF\xFF\xFF\xFF",
            &[262143, 24, 15000],
        ),
        (
            b"DR\x07\x00\x00\x02\x01\x03\x01\x02\xF4\x48\x00\x00\x00\x01",
            &[131331, 7, 258],
        ),
    ];
    reads(&rt, &kind, &good)?;
    let bad: [&[u8]; 12] = [
        b"ER\x01\x00\x00\x00\x00\x00\x00\x00\x00\x00\x00\x00\x00\x00", // mark
        b"DS\x01\x00\x00\x00\x00\x00\x00\x00\x00\x00\x00\x00\x00\x00", // mark
        b"DR\x01\x00\x00\x00\x00\x00\x00\x00\x00\x00\x00\x00\x00", // length
        b"DR\x01\x00\x00\x00\x00\x00\x00\x00\x00\x00\x00\x00\x00\x00\x00", // length
        b"DR\x00\x00\x00\x00\x00\x00\x00\x00\x00\x00\x00\x00\x00\x00", // string 0
        b"DR\x19\x00\x00\x00\x00\x00\x00\x00\x00\x00\x00\x00\x00\x00", // string 25
        b"DR\x01\x01\x00\x00\x00\x00\x00\x00\x00\x00\x00\x00\x00\x00", // byte 3 not zero
        b"DR\x01\x00\x00\x04\x00\x00\x00\x00\x00\x00\x00\x00\x00\x00", // hour 2 ^ 18
        b"DR\x01\x00\x01\x00\x00\x00\x00\x00\x00\x00\x00\x00\x00\x00", // hour 2 ^ 24
        b"DR\x01\x00\x00\x00\x00\x00\x3A\x99\x00\x00\x00\x00\x00\x00", // 15001 tenths of a volt
        b"DR\x01\x00\x00\x00\x00\x00\x00\x00\x0B\xB9\x00\x00\x00\x00", // current 3001
        b"DR\x01\x00\x00\x00\x00\x00\x00\x00\xF4\x47\x00\x00\x00\x00", // current -3001
    ];
    refuses(&rt, &kind, &bad);
    Ok(())
}

#[test]
fn insulation(rt: HostRuntime) -> Result<(), Fail> {
    let kind = Insulation::new();
    states(&rt, &kind, &[16, 6, 20], 12, 42);
    let good: [Row; 3] = [
        (b"IR\x00\x00\x01\x00\x00\x00\x00\x00\x00\x00", &[0, 1, 0]),
        (
            b"IR\x01\x02\x28\x03\xE7\x00\x02\x00\x00\x00",
            &[258, 40, 999],
        ),
        (
            b"IR\xFF\xFF\x02\x00\x01\x00\x01\x00\x00\x00",
            &[65535, 2, 1],
        ),
    ];
    reads(&rt, &kind, &good)?;
    let bad: [&[u8]; 10] = [
        b"JR\x00\x00\x01\x00\x00\x00\x00\x00\x00\x00", // mark
        b"IS\x00\x00\x01\x00\x00\x00\x00\x00\x00\x00", // mark
        b"IR\x00\x00\x01\x00\x00\x00\x00\x00\x00", // length
        b"IR\x00\x00\x01\x00\x00\x00\x00\x00\x00\x00\x00", // length
        b"IR\x00\x00\x00\x00\x00\x00\x00\x00\x00\x00", // array 0
        b"IR\x00\x00\x29\x00\x00\x00\x00\x00\x00\x00", // array 41
        b"IR\x00\x00\x01\x00\x00\x00\x03\x00\x00\x00", // surface 3
        b"IR\x00\x00\x01\x00\x00\x00\x00\x01\x00\x00", // byte 9 not zero
        b"IR\x00\x00\x01\x00\x00\x00\x00\x00\x01\x00", // byte 10 not zero
        b"IR\x00\x00\x01\x00\x00\x00\x00\x00\x00\x01", // byte 11 not zero
    ];
    refuses(&rt, &kind, &bad);
    Ok(())
}

#[test]
fn resistances(rt: HostRuntime) -> Result<(), Fail> {
    let kind = Insulation::new();
    let good: [Row; 7] = [
        (b"IR\x00\x00\x01\x00\x63\x00\x00\x00\x00\x00", &[0, 1, 99]),
        (b"IR\x00\x00\x01\x03\xE7\x00\x00\x00\x00\x00", &[0, 1, 999]),
        (b"IR\x00\x00\x01\x00\x64\x01\x00\x00\x00\x00", &[0, 1, 1000]),
        (
            b"IR\x00\x00\x01\x00\x7B\x02\x00\x00\x00\x00",
            &[0, 1, 12300],
        ),
        (
            b"IR\x00\x00\x01\x00\x64\x03\x00\x00\x00\x00",
            &[0, 1, 100000],
        ),
        (
            b"IR\x00\x00\x01\x03\xE7\x03\x00\x00\x00\x00",
            &[0, 1, 999000],
        ),
        (
            b"IR\x00\x00\x01\x00\x00\xFF\x00\x00\x00\x00",
            &[0, 1, 1048575],
        ),
    ];
    reads(&rt, &kind, &good)?;
    let bad: [&[u8]; 9] = [
        b"IR\x00\x00\x01\x03\xE8\x00\x00\x00\x00\x00", // digits 1000
        b"IR\x00\x00\x01\x03\xE8\x03\x00\x00\x00\x00", // digits 1000, power 3
        b"IR\x00\x00\x01\x00\x63\x01\x00\x00\x00\x00", // digits 99, power 1
        b"IR\x00\x00\x01\x00\x63\x03\x00\x00\x00\x00", // digits 99, power 3
        b"IR\x00\x00\x01\x00\x00\x01\x00\x00\x00\x00", // digits 0, power 1
        b"IR\x00\x00\x01\x00\x64\x04\x00\x00\x00\x00", // digits 100, power 4
        b"IR\x00\x00\x01\x00\x00\xFE\x00\x00\x00\x00", // digits 0, power 254
        b"IR\x00\x00\x01\x00\x01\xFF\x00\x00\x00\x00", // digits 1, power 255
        b"IR\x00\x00\x01\x00\x64\xFF\x00\x00\x00\x00", // digits 100, power 255
    ];
    refuses(&rt, &kind, &bad);
    Ok(())
}

#[test]
fn trial_t(rt: HostRuntime) -> Result<(), Fail> {
    let kind = TrialT::new();
    states(&rt, &kind, &[2, 2], 4, 2);
    let good: [Row; 3] = [
        (b"TW\x00\x00", &[0, 0]),
        (b"TW\x03\x03", &[3, 3]),
        (b"TW\x01\x02", &[1, 2]),
    ];
    reads(&rt, &kind, &good)?;
    let bad: [&[u8]; 6] = [
        b"UW\x00\x00", // mark
        b"TX\x00\x00", // mark
        b"TW\x00", // length
        b"TW\x00\x00\x00", // length
        b"TW\x04\x00", // byte 2
        b"TW\x00\x04", // byte 3
    ];
    refuses(&rt, &kind, &bad);
    Ok(())
}

#[test]
fn trial_u(rt: HostRuntime) -> Result<(), Fail> {
    let kind = TrialU::new();
    states(&rt, &kind, &[8], 3, 1);
    let good: [Row; 2] = [(b"UN\x00", &[0]), (b"UN\xFF", &[255])];
    reads(&rt, &kind, &good)?;
    let bad: [&[u8]; 4] = [
        b"VN\x00", // mark
        b"UO\x00", // mark
        b"UN", // length
        b"UN\x00\x00", // length
    ];
    refuses(&rt, &kind, &bad);
    Ok(())
}

#[test]
fn trial_x(rt: HostRuntime) -> Result<(), Fail> {
    let kind = TrialX::new();
    states(&rt, &kind, &[20, 20, 20], 11, 1);
    let good: [Row; 3] = [
        (b"XY\x00\x00\x00\x00\x00\x00\x00\x00\x00", &[0, 0, 0]),
        (
            b"XY\x0F\xFF\xFF\x0F\xFF\xFF\x0F\xFF\xFF",
            &[1048575, 1048575, 1048575],
        ),
        (
            b"XY\x01\x02\x03\x04\x05\x06\x07\x08\x09",
            &[66051, 263430, 460809],
        ),
    ];
    reads(&rt, &kind, &good)?;
    let bad: [&[u8]; 7] = [
        b"YY\x00\x00\x00\x00\x00\x00\x00\x00\x00", // mark
        b"XZ\x00\x00\x00\x00\x00\x00\x00\x00\x00", // mark
        b"XY\x00\x00\x00\x00\x00\x00\x00\x00", // length
        b"XY\x00\x00\x00\x00\x00\x00\x00\x00\x00\x00", // length
        b"XY\x10\x00\x00\x00\x00\x00\x00\x00\x00", // first field 2 ^ 20
        b"XY\x00\x00\x00\x10\x00\x00\x00\x00\x00", // second field
        b"XY\x00\x00\x00\x00\x00\x00\x10\x00\x00", // third field
    ];
    refuses(&rt, &kind, &bad);
    Ok(())
}

#[test]
fn rainfall(rt: HostRuntime) -> Result<(), Fail> {
    let kind = Rainfall::new();
    states(&rt, &kind, &[16, 4, 14], 8, 63);
    let good: [Row; 2] = [
        (b"RF\x00\x00\x01\x00\x00\x00", &[0, 1, 0]),
        (b"RF\xFF\xFF\x0C\x27\x0F\x00", &[65535, 12, 9999]),
    ];
    reads(&rt, &kind, &good)?;
    let bad: [&[u8]; 8] = [
        b"SF\x00\x00\x01\x00\x00\x00", // mark
        b"RG\x00\x00\x01\x00\x00\x00", // mark
        b"RF\x00\x00\x01\x00\x00", // length
        b"RF\x00\x00\x01\x00\x00\x00\x00", // length
        b"RF\x00\x00\x00\x00\x00\x00", // gauge 0
        b"RF\x00\x00\x0D\x00\x00\x00", // gauge 13
        b"RF\x00\x00\x01\x27\x10\x00", // 10000 tenths
        b"RF\x00\x00\x01\x00\x00\x01", // byte 7 not zero
    ];
    refuses(&rt, &kind, &bad);
    Ok(())
}

#[test]
fn fields(rt: HostRuntime) {
    let bytes = b"\x01\x02\xFE\xDC";
    assert!(rt; has_mark(bytes, [1, 2]) && !has_mark(bytes, [1, 3]) && !has_mark(bytes, [0, 2]));
    assert_eq!(rt; byte(bytes, 2), 0xFE);
    assert_eq!(rt; be16(bytes, 1), 0x02FE);
    assert_eq!(rt; be24(bytes, 1), 0x02FEDC);
    assert_eq!(rt; be32(bytes, 0), 0x0102FEDC);
    assert_eq!(rt; signed16(bytes, 2), -292);
    // what would lie past the end counts as zero
    assert_eq!(rt; byte(bytes, 4), 0);
    assert_eq!(rt; be16(bytes, 3), 0xDC00);
    assert_eq!(rt; be32(bytes, 255), 0);
}
